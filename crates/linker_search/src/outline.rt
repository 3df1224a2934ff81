//! The outline of a linked system with its look-ups.
ghost use Rattle.std.specs.Prelude.{◌≡◌, IfOk, IfSome, ◌<◌, length};
ghost use Rattle.jx_base.specs.Basics.{first_some};
ghost use Rattle.program_model.specs.Lookup.{chain_of, class_named, supers_of};
ghost use Rattle.link_model.specs.Linking.{found_field, found_method, own_field, own_method};
ghost use Rattle.linker_names.specs.Names.{selector_of};
ghost use Rattle.linker_search.specs.Walked.{distinct_supers};

use crate::instances::instance_places;
use crate::methods::method_places;
use crate::names::class_names;
use crate::places::{MOST, Places, Sought};
use crate::statics::static_places;
use crate::supers::all_supers;
use jx_base::{ClassId, Listed, OutOfMemory, Resolved, System};
use linker_names::NameAndType;
use linker_outline::Names;
use std::alloc::{AllocError, Global};
use std::marker::Model;

/// A system in which classes and their members are found at once. Contracts see the system.
#[derive(Drop)]
pub struct Outline {
    system: System,
    names: Names,
    supers: Vec<Listed<u32>>,
    methods: Places,
    instances: Places,
    statics: Places,
}

impl Model for Outline {
    ghost use Rattle.jx_base.specs.declared.program.System.{System as OneSystem};
    ghost use Rattle.linker_search.specs.LookUps.{AreLookUps};

    ghost Value = { OneSystem };

    ghost view = { λ outline. outline.system };

    ghost invariant = { λ outline. AreLookUps outline.system (record {
      names = outline.names;
      supers = outline.supers.items;
      methods = outline.methods;
      instances = outline.instances;
      statics = outline.statics;
    }) };
}

impl Outline {
    pub fn new(alloc: Global, system: System) -> Result<Outline, OutOfMemory>
        ensures { IfOk result (λ outline. outline ≡ system) }
    {
        let classes = system.program.classes.as_slice();
        // No memory holds so many.
        if classes.len() > MOST {
            return Err(AllocError);
        }
        let names = class_names(alloc, classes)?;
        let supers = all_supers(alloc, &system)?;
        let methods = method_places(alloc, &system)?;
        let instances = instance_places(alloc, classes)?;
        let statics = static_places(alloc, classes)?;
        Ok(Outline {
            system,
            names,
            supers,
            methods,
            instances,
            statics,
        })
    }

    pub fn system(&self) -> &System
        ensures { result.now ≡ self.now }
    {
        &self.system
    }

    pub fn into_system(self) -> System
        ensures { result ≡ self }
    {
        let Outline { system, .. } = self;
        system
    }

    /// The number of the first class of that name.
    pub fn class_named(&self, name: &[u16]) -> Option<u32>
        ensures found { result ≡ class_named self.now name.now }
        ensures within { IfSome result (λ class. class < length self.now.program.classes) }
    {
        self.names.find(name)
    }

    // The class, its superinterfaces and its supers, each once.
    fn supers(&self, class: u32) -> &[u32]
        ensures { result.now ≡ distinct_supers self.now class }
    {
        match self.supers.get(class as usize) {
            Some(supers) => supers.as_slice(),
            None => &[],
        }
    }

    // The field that the class itself declares: one of instances before a static one.
    fn own_field(&self, class: u32, member: NameAndType<'_>) -> Option<Resolved>
        ensures { result ≡ own_field self.now (selector_of member.entry) class }
    {
        let sought = Sought { class, member };
        if let Some(place) = self.instances.get(sought) {
            return Some(Resolved::Instance(ClassId(class), *place));
        }
        match self.statics.get(sought) {
            Some(place) => Some(Resolved::Static(ClassId(class), *place)),
            None => None,
        }
    }

    /// The field of that name and descriptor that a search from the class finds.
    pub fn field(&self, class: u32, member: NameAndType<'_>) -> Option<Resolved>
        ensures { result ≡ found_field self.now (selector_of member.entry) class }
    {
        for above in self.supers(class) {
            if let Some(field) = self.own_field(*above, member) {
                return Some(field);
            }
        }
        None
    }

    // The method that the class itself declares.
    fn own_method(&self, class: u32, member: NameAndType<'_>) -> Option<u32>
        ensures { result ≡ own_method self.now (selector_of member.entry) class }
    {
        self.methods.get(Sought { class, member }).copied()
    }

    // The method that the class or the nearest of its supers declares.
    fn method_of_chain(&self, class: u32, member: NameAndType<'_>) -> Option<u32>
        ensures { result ≡ first_some (own_method self.now (selector_of member.entry))
            (chain_of self.now class) }
    {
        let classes = self.system.program.classes.as_slice();
        let mut next = class;
        for _ in 0..classes.len() {
            let found = classes.get(next as usize)?;
            if let Some(method) = self.own_method(next, member) {
                return Some(method);
            }
            next = found.parent?.0;
        }
        None
    }

    // The method that the first of the class, its superinterfaces and its supers declares.
    fn method_of_supers(&self, class: u32, member: NameAndType<'_>) -> Option<u32>
        ensures { result ≡ first_some (own_method self.now (selector_of member.entry))
            (supers_of self.now class) }
    {
        for above in self.supers(class) {
            if let Some(method) = self.own_method(*above, member) {
                return Some(method);
            }
        }
        None
    }

    /// The place in `Program::methods` of the method of that name and descriptor that a search from
    /// the class finds.
    pub fn method(&self, class: u32, member: NameAndType<'_>) -> Option<u32>
        ensures found { result ≡ found_method self.now (selector_of member.entry) class }
        ensures within { IfSome result (λ place. place < length self.now.program.methods) }
    {
        match self.method_of_chain(class, member) {
            Some(method) => Some(method),
            None => self.method_of_supers(class, member),
        }
    }
}
