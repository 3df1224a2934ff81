//! A class file with the instructions of its methods.
ghost use Rattle.std.specs.Prelude.{◌≡◌, map};
ghost use Rattle.linker_names.specs.Bodies.{instructions_at, instructions_of_member};

use jx_base::{ClassFile, Instr, Listed};
use std::marker::Model;

/// A class file whose code was read, with the instructions of each method. Contracts see the file.
#[derive(Drop)]
pub struct ReadClass {
    file: ClassFile,
    bodies: Vec<Listed<Instr>>,
}

impl Model for ReadClass {
    ghost use Rattle.std.specs.Prelude.{◌≡◌, map};
    ghost use Rattle.jx_base.specs.declared.class_file.ClassFile.{ClassFile as OneFile};
    ghost use Rattle.linker_names.specs.Bodies.{instructions_of_member};

    ghost Value = { OneFile };

    ghost view = { λ class. class.file };

    ghost invariant = { λ class. class.bodies.items
        ≡ map instructions_of_member class.file.methods };
}

impl ReadClass {
    /// A file with the instructions of each method, none of a method without code. Takes no memory.
    pub fn new(file: ClassFile, bodies: Vec<Listed<Instr>>) -> ReadClass
        requires { bodies.items ≡ map instructions_of_member file.methods }
        ensures { result ≡ file }
    {
        ReadClass { file, bodies }
    }

    pub fn file(&self) -> &ClassFile
        ensures { result.now ≡ self.now }
    {
        &self.file
    }

    /// The instructions of a method, by its place among the methods of the file.
    pub fn instructions(&self, method: usize) -> &[Instr]
        ensures { result.now ≡ instructions_at self.now method }
    {
        match self.bodies.get(method) {
            Some(body) => body.as_slice(),
            None => &[],
        }
    }
}
