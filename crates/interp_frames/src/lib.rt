//! How a method begins in a thread without frames, and how a thrown object unwinds them.
#![tactic(auto)]

mod beginning;
mod exceptions;
mod handlers;
mod throwing;

pub use beginning::{Begun, begin};
pub use exceptions::make_exception;
pub use handlers::handler_in;
pub use throwing::{Caught, throw};
