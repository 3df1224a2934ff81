//! What a reply makes of the thread that performed the act.
#![tactic(auto)]

mod beginning;
mod exports;
mod replies;
mod results;
mod sites;
mod stage;
mod throwing;

pub use beginning::begin_method;
pub use exports::add_export;
pub use replies::give_reply;
pub use results::{give_result, go_behind};
pub use sites::fits_result;
pub use stage::Stage;
pub use throwing::{raise, throw_object};
