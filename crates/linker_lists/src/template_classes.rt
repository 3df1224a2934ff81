//! The classes of a template's list.
ghost use Rattle.std.specs.Prelude.{◌≡◌, ◌≤◌, IfOk, length};
ghost use Rattle.jx_base.specs.Basics.{contains_number, has_text};
ghost use Rattle.link_model.specs.LinkFaults.{listed_names, listed_place};
ghost use Rattle.linker_lists.specs.Listings.{are_listed};
ghost use Rattle.program_model.specs.Plans.{IsPlanInRange};

use jx_base::{OutOfMemory, Plan, Template};
use linker_outline::Names;
use std::alloc::Global;
use std::marker::Model;

/// A template of a plan, in whose list a class is found by its name at once.
#[derive(Drop)]
pub struct TemplateClasses<'a> {
    plan: &'a Plan,
    template: &'a Template,
    names: &'a Names,
    listed: Vec<bool>,
}

impl<'a> Model for TemplateClasses<'a> {
    ghost use Rattle.std.specs.Prelude.{◌≡◌};
    ghost use Rattle.linker_lists.specs.Listings.{OfPlan, are_listed};
    ghost use Rattle.program_model.specs.Plans.{IsPlanInRange};

    ghost Value = { OfPlan };

    ghost view = { λ classes. record { plan = classes.plan.now; template = classes.template.now } };

    ghost invariant = { λ classes. IsPlanInRange classes.plan.now
        × (classes.names.now ≡ classes.plan.now.classes)
        × (classes.listed.items ≡ are_listed classes.plan.now classes.template.now) };
}

#[tactic(auto, unfolding(jx_base::specs::Basics::contains_number))]
fn is_listed(template: &Template, place: u32) -> bool
    ensures { result ≡ contains_number template.now.classes place }
{
    template.classes.as_slice().contains(&place)
}

// Of each place of the plan whether the template lists it. Both are short: 256 at most.
fn are_listed(alloc: Global, plan: &Plan, template: &Template) -> Result<Vec<bool>, OutOfMemory>
    requires few { length plan.now.classes ≤ 256 }
    ensures { IfOk result (λ listed. listed.items ≡ are_listed plan.now template.now) }
{
    let mut listed = Vec::new(alloc);
    for place in 0..plan.classes.as_slice().len() {
        listed.push(is_listed(template, place as u32))?;
    }
    Ok(listed)
}

impl<'a> TemplateClasses<'a> {
    /// The template's classes. `names` has the names of the plan's classes in order.
    pub fn new(
        alloc: Global,
        plan: &'a Plan,
        names: &'a Names,
        template: &'a Template,
    ) -> Result<TemplateClasses<'a>, OutOfMemory>
        requires range { IsPlanInRange plan.now }
        requires names { names.now ≡ plan.now.classes }
        ensures { IfOk result (λ classes.
            classes ≡ record { plan = plan.now; template = template.now }) }
    {
        Ok(TemplateClasses {
            plan,
            template,
            names,
            listed: are_listed(alloc, plan, template)?,
        })
    }

    pub fn plan(&self) -> &'a Plan
        ensures { result.now ≡ self.now.plan }
    {
        self.plan
    }

    pub fn template(&self) -> &'a Template
        ensures { result.now ≡ self.now.template }
    {
        self.template
    }

    /// The place among the plan's classes of the listed class of that name.
    pub fn place(&self, name: &[u16]) -> Option<u32>
        ensures { result ≡ listed_place self.now.plan self.now.template name.now }
    {
        let place = self.names.find(name)?;
        if self.listed[place as usize] {
            Some(place)
        } else {
            None
        }
    }

    /// Whether the list has a class of that name.
    pub fn lists(&self, name: &[u16]) -> bool
        ensures { result ≡ has_text (listed_names self.now.plan self.now.template) name.now }
    {
        self.place(name).is_some()
    }
}
