//! Instructions on numbers, the stack, locals, branches and switches (JVMS 6.5).
#![tactic(auto)]

mod arithmetic;
mod branches;
mod depth;
mod group;
mod locals;
mod moves;
mod numbers;
mod operands;
mod stack;
mod step;
mod switches;
mod values;

pub use depth::slots_left;
pub use locals::{has_place, set_local};
pub use operands::index_operand;
pub use step::{NumStep, step_num};
pub use values::{as_kind, is_null, is_same, slots_of};
