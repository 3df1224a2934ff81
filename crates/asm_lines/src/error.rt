//! Why words don't say what is asked for.

use jx_base::Error;

/// Words that are not of the form that is asked for.
#[derive(Clone, Copy)]
pub struct Malformed;

/// Why words say nothing: they are malformed, or memory was refused.
pub type LineError = Error<Malformed>;
