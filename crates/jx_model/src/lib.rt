//! The sequential nucleus as definitions, and laws of them.
#![tactic(auto)]

mod follower;
mod laws;

pub use follower::Follower;
pub use laws::{
    act_stays_well_made, numbers_are_given_once, one_thread_runs, one_worker_has_one_history,
    reasons_are_given, refusals_change_nothing, start_is_admitted, well_made_is_tested,
};
