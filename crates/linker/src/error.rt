//! Why class files aren't linked.

use jx_base::Error;
use link_model::LinkFault;

/// Why there is no system: the first fault of linking, or memory was refused.
pub type LinkError = Error<LinkFault>;
