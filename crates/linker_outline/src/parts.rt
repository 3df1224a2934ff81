//! What an outline is made of.

use crate::names::Names;
use jx_base::{Class, Plan};
use linker_names::ReadClass;

/// A plan with the class files of its classes, the built-in classes, and the names of both in
/// order.
#[derive(Clone, Copy)]
pub struct Parts<'a> {
    pub plan: &'a Plan,
    pub files: &'a [ReadClass],
    pub built_in: &'a [Class],
    pub numbers: &'a Names,
}
