//! Each form of instruction, assembled and read again.

use crate::answers::{assembled, with_body};
use class_reader::read_class;
use code_reader::read_code;
use instruction_table::{form_of, opcode_of};
use jx_base::{ClassFile, Form, Instr};
use std::alloc::Global;
use std::test::Fail;

// An instruction at pc 0, behind the label x and in front of the label y, and what is read of it:
// its opcode, whether it is wide, and its operands. The class has seven constants of its own.
type Row = (&'static str, u8, bool, &'static [i32]);

static ROWS: [Row; 52] = [
    ("bipush -128", 0x10, false, &[-128]),
    ("bipush 127", 0x10, false, &[127]),
    ("sipush -32768", 0x11, false, &[-32768]),
    ("sipush 0032767", 0x11, false, &[32767]),
    ("ldc int -2147483648", 0x12, false, &[8]),
    ("ldc string \"\"", 0x12, false, &[9]),
    ("ldc string \"T\"", 0x12, false, &[8]),
    ("ldc_w int 5", 0x13, false, &[8]),
    (
        "ldc_w string \"a \\u0022\\u005c\\ud800\"",
        0x13,
        false,
        &[9],
    ),
    ("ldc2_w long -9223372036854775808", 0x14, false, &[8]),
    ("iload 255", 0x15, false, &[255]),
    ("lload 0", 0x16, false, &[0]),
    ("aload 7", 0x19, false, &[7]),
    ("istore 200", 0x36, false, &[200]),
    ("lstore 1", 0x37, false, &[1]),
    ("astore 2", 0x3a, false, &[2]),
    ("iinc 255 -128", 0x84, false, &[255, -128]),
    ("goto x", 0xa7, false, &[0]),
    ("goto y", 0xa7, false, &[3]),
    ("goto_w y", 0xc8, false, &[5]),
    ("ifnull x", 0xc6, false, &[0]),
    ("ifnonnull y", 0xc7, false, &[3]),
    (
        "tableswitch -1 y x y x",
        0xaa,
        false,
        &[28, -1, 1, 0, 28, 0],
    ),
    (
        "tableswitch 2147483646 x y x",
        0xaa,
        false,
        &[0, 2147483646, 2147483647, 24, 0],
    ),
    ("lookupswitch y", 0xab, false, &[12, 0]),
    (
        "lookupswitch x -5 y 7 x",
        0xab,
        false,
        &[0, 2, -5, 28, 7, 0],
    ),
    ("getstatic A f I", 0xb2, false, &[13]),
    ("putstatic T f [J", 0xb3, false, &[11]),
    ("getfield T m LA;", 0xb4, false, &[10]),
    ("putfield A m D", 0xb5, false, &[12]),
    ("invokevirtual A m ()V", 0xb6, false, &[11]),
    ("invokespecial A <init> ()V", 0xb7, false, &[12]),
    ("invokestatic T m ()V", 0xb8, false, &[9]),
    ("invokeinterface A n (JI[JLA;D)V", 0xb9, false, &[13]),
    ("new A", 0xbb, false, &[9]),
    ("newarray boolean", 0xbc, false, &[4]),
    ("newarray char", 0xbc, false, &[5]),
    ("newarray byte", 0xbc, false, &[8]),
    ("newarray short", 0xbc, false, &[9]),
    ("newarray int", 0xbc, false, &[10]),
    ("newarray long", 0xbc, false, &[11]),
    ("anewarray T", 0xbd, false, &[2]),
    ("checkcast [[I", 0xc0, false, &[9]),
    ("instanceof java/lang/Object", 0xc1, false, &[4]),
    ("wide iload 65535", 0x15, true, &[65535]),
    ("wide lload 256", 0x16, true, &[256]),
    ("wide aload 0", 0x19, true, &[0]),
    ("wide istore 65535", 0x36, true, &[65535]),
    ("wide lstore 300", 0x37, true, &[300]),
    ("wide astore 1", 0x3a, true, &[1]),
    ("wide iinc 65535 -32768", 0x84, true, &[65535, -32768]),
    ("multianewarray [[I 255", 0xc5, false, &[9, 255]),
];

// The class file of a body that has the line between two labels.
fn class_with(alloc: Global, line: &str) -> Option<ClassFile> {
    let mut body = Vec::new(alloc);
    for part in ["x:\n", line, "\ny:\nnop\n"] {
        if body.extend_from_slice(part.as_bytes()).is_err() {
            return None;
        }
    }
    let Ok(text) = with_body(alloc, body.as_slice()) else {
        return None;
    };
    match assembled(alloc, text.as_slice()) {
        Some(bytes) => {
            if bytes.len() > 1 << 31 {
                return None;
            }
            read_class(alloc, bytes.as_slice()).ok()
        }
        None => None,
    }
}

// The first instruction of the first method.
fn first_instr(alloc: Global, class: &ClassFile) -> Option<Instr> {
    let method = class.methods.as_slice().first()?;
    let code = method.code.as_ref()?;
    if code.code.as_slice().len() > 65_535 {
        return None;
    }
    match read_code(alloc, code.code.as_slice(), code.table.as_slice()) {
        Ok(instrs) => instrs.into_iter().next(),
        Err(_) => None,
    }
}

fn read_again(alloc: Global, line: &str) -> Option<Instr> {
    match class_with(alloc, line) {
        Some(class) => first_instr(alloc, &class),
        None => None,
    }
}

fn is_as(instr: &Instr, opcode: u8, wide: bool, operands: &[i32]) -> bool {
    instr.opcode == opcode && instr.wide == wide && instr.operands.as_slice() == operands
}

#[test]
fn operands_are_read_again(rt: HostRuntime) {
    let alloc = rt.alloc();
    for (line, opcode, wide, operands) in &ROWS {
        let Some(instr) = read_again(alloc, line) else {
            panic!(rt; "{line} is assembled and read");
        };
        assert!(rt; is_as(&instr, *opcode, *wide, operands), "{line}");
    }
}

#[test]
fn plain_instructions_and_branches_are_read_again(rt: HostRuntime) {
    let alloc = rt.alloc();
    for opcode in 0..=201 {
        let known = opcode_of(opcode);
        let operands: Option<&[i32]> = match form_of(opcode) {
            Form::Plain => Some(&[]),
            Form::Branch => Some(&[0]),
            _ => None,
        };
        let branch = operands.is_some_and(|operands| operands.len() == 1);
        let line = [known.mnemonic, if branch { " x" } else { "" }].concat(alloc);
        if let (Some(operands), Ok(line)) = (operands, line) {
            let Some(instr) = read_again(alloc, line.as_str()) else {
                panic!(rt; "opcode {opcode} is assembled and read");
            };
            assert!(rt; is_as(&instr, opcode, false, operands), "opcode {opcode}");
        }
    }
}
