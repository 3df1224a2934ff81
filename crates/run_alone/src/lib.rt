//! One worker: the run of a system in which Domain Zero and the domains take turns.
#![tactic(auto)]

mod actor;
mod laws;
mod run;
mod stopped;
mod turn;
mod turns;
mod worker;
mod zero;

pub use laws::{code_performs_its_own_acts, lack_has_one_template, lack_leaves_no_history};
pub use run::run_alone;
pub use stopped::Stopped;
