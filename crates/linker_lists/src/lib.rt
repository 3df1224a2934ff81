//! The classes that a template lists, found by their names.
#![tactic(auto)]

mod template_classes;

pub use template_classes::TemplateClasses;
