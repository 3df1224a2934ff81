//! The names of templates and classes.
ghost use Rattle.std.specs.Prelude.{◌≡◌};
ghost use Rattle.audit_model.specs.Audit.{class_text, template_text};
ghost use Rattle.jx_base.specs.Texts.{quoted};

use jx_base::{ClassId, System};

/// The name of the template, or none where there is no such.
#[tactic(auto, unfolding(audit_model::specs::Audit::template_text, program_model::specs::Lookup::template_at))]
pub fn template_name(system: &System, template: usize) -> &[u16]
    ensures { quoted result.now ≡ template_text system.now template }
{
    match system.plan.templates.as_slice().get(template) {
        Some(found) => found.name.as_slice(),
        None => &[],
    }
}

/// The name of the class, or none where there is no such.
#[tactic(auto, unfolding(audit_model::specs::Audit::class_text, program_model::specs::Lookup::class_at))]
pub fn class_name(system: &System, class: ClassId) -> &[u16]
    ensures { quoted result.now ≡ class_text system.now class.0 }
{
    match system.program.classes.as_slice().get(class.0 as usize) {
        Some(found) => found.name.as_slice(),
        None => &[],
    }
}
