//! What stands above the classes of a template.
ghost use Rattle.std.specs.Prelude.{◌≡◌, ◌∷◌, [], IfOk, OnOk, length, map};
ghost use Rattle.link_model.specs.LinkFaults.{all_above, is_above_itself};
ghost use Rattle.linker_faults.specs.Hierarchies.{above_at, all_right_above, joined};
ghost use Rattle.linker_faults.specs.Hierarchies.{listed_places, right_above};

use indexmap::IndexSet;
use jx_base::{ClassFile, OutOfMemory};
use linker_lists::TemplateClasses;
use linker_names::{ReadClass, class_name_in, super_name};
use std::alloc::Global;
use std::marker::Model;

/// A template's classes with their files, and what stands right above each class of the plan.
#[derive(Drop)]
pub struct Hierarchy<'a> {
    classes: &'a TemplateClasses<'a>,
    files: &'a [ReadClass],
    above: Vec<IndexSet<u32>>,
}

impl<'a> Model for Hierarchy<'a> {
    ghost use Rattle.std.specs.Prelude.{◌≡◌, map};
    ghost use Rattle.linker_faults.specs.Hierarchies.{OfFiles, all_right_above};

    ghost Value = { OfFiles };

    ghost view = { λ h. record {
      plan = h.classes.now.plan;
      template = h.classes.now.template;
      files = h.files.now;
    } };

    ghost invariant = { λ h. map (λ set. set.keys) h.above.items
        ≡ all_right_above h.classes.now.plan h.classes.now.template h.files.now };
}

// Adds the place of the template's class of that name, where there is one.
fn add_place(
    places: &mut IndexSet<u32>,
    classes: &TemplateClasses<'_>,
    name: &[u16],
) -> Result<(), OutOfMemory>
    ensures { OnOk result (places.new.keys ≡ joined places.old.keys
        (listed_places classes.now.plan classes.now.template (name.now ∷ []))) }
{
    if let Some(place) = classes.place(name) {
        places.insert(place)?;
    }
    Ok(())
}

// The template's classes that a file extends or implements itself.
fn right_above(
    alloc: Global,
    classes: &TemplateClasses<'_>,
    file: &ClassFile,
) -> Result<IndexSet<u32>, OutOfMemory>
    ensures { IfOk result (λ places. places.keys
        ≡ right_above classes.now.plan classes.now.template file.now) }
{
    let mut places = IndexSet::new(alloc);
    add_place(&mut places, classes, super_name(file))?;
    for index in file.interfaces.as_slice() {
        add_place(&mut places, classes, class_name_in(file, *index))?;
    }
    Ok(places)
}

// The same of each class of the plan.
fn all_right_above(
    alloc: Global,
    classes: &TemplateClasses<'_>,
    files: &[ReadClass],
) -> Result<Vec<IndexSet<u32>>, OutOfMemory>
    ensures { IfOk result (λ above. map (λ set. set.keys) above.items
        ≡ all_right_above classes.now.plan classes.now.template files.now) }
{
    let mut above = Vec::with_capacity(alloc, files.len())?;
    for class in files {
        above.push(right_above(alloc, classes, class.file())?)?;
    }
    Ok(above)
}

// Adds the places that are new.
fn add_all(reached: &mut IndexSet<u32>, places: &[u32]) -> Result<(), OutOfMemory>
    ensures { OnOk result (reached.new.keys ≡ joined reached.old.keys places.now) }
{
    for place in places {
        reached.insert(*place)?;
    }
    Ok(())
}

impl<'a> Hierarchy<'a> {
    /// Looks up what stands right above each class once.
    pub fn new(
        alloc: Global,
        classes: &'a TemplateClasses<'a>,
        files: &'a [ReadClass],
    ) -> Result<Hierarchy<'a>, OutOfMemory>
        ensures { IfOk result (λ h. h ≡ record {
          plan = classes.now.plan;
          template = classes.now.template;
          files = files.now;
        }) }
    {
        Ok(Hierarchy {
            classes,
            files,
            above: all_right_above(alloc, classes, files)?,
        })
    }

    pub fn classes(&self) -> &'a TemplateClasses<'a>
        ensures plan { result.now.plan ≡ self.now.plan }
        ensures template { result.now.template ≡ self.now.template }
    {
        self.classes
    }

    pub fn files(&self) -> &'a [ReadClass]
        ensures { result.now ≡ self.now.files }
    {
        self.files
    }

    // The classes right above the one at a place of the plan, each once.
    fn right_above(&self, place: u32) -> &[u32]
        ensures { result.now ≡ above_at
            (all_right_above self.now.plan self.now.template self.now.files) place }
    {
        match self.above.get(place as usize) {
            Some(places) => places.as_slice(),
            None => &[],
        }
    }

    // All classes of the template above the one at a place, the nearest first. There are no more of
    // them than the template has classes.
    fn all_above(&self, alloc: Global, place: u32) -> Result<IndexSet<u32>, OutOfMemory>
        ensures { IfOk result (λ reached. reached.keys ≡ all_above self.now.plan self.now.files
            self.now.template place (length self.now.template.classes)) }
    {
        let mut reached = IndexSet::new(alloc);
        add_all(&mut reached, self.right_above(place))?;
        for followed in 0..self.classes.template().classes.as_slice().len() {
            let Some(next) = reached.get_index(followed).copied() else {
                return Ok(reached);
            };
            add_all(&mut reached, self.right_above(next))?;
        }
        Ok(reached)
    }

    /// Whether a walk up from the class at a place comes back to it.
    pub fn is_above_itself(&self, alloc: Global, place: u32) -> Result<bool, OutOfMemory>
        ensures { IfOk result (λ above. above
            ≡ is_above_itself self.now.plan self.now.files self.now.template place) }
    {
        Ok(self.all_above(alloc, place)?.contains(&place))
    }
}
