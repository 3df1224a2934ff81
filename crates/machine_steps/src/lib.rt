//! One step of a thread that has frames.
#![tactic(auto)]

mod instructions;
mod numbers;
mod stepping;
mod throwing;

pub use instructions::next_instr;
pub use stepping::{Stepped, step_frames};
