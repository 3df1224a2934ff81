//! The built-in methods of the machine (docs/boot_classes.md).
#![tactic(auto)]

mod answer;
mod builders;
mod built_in;
mod memory;
mod names;
mod run;
mod services;
mod strings;
mod supers;
mod table;
mod texts;
mod values;

pub use answer::BuiltInAnswer;
pub use built_in::{Appended, BuiltIn, IntAct, MemoryAct, PlaceAct, RangeAct, TextAct};
pub use run::run_built_in;
pub use table::built_in_of;
