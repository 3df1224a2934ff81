//! Instructions on objects, and calls.
#![tactic(auto)]

mod arguments;
mod calls;
mod entering;
mod laws;
mod lookup;
mod portals;
mod returns;
mod running;
mod selection;
mod step;

pub use arguments::all_fit;
pub use entering::{frame_of, is_overflow};
pub use interp_core::{Core, ObjStep};
pub use laws::each_row_is_one_steps;
pub use lookup::{frame_place, method_at, selector_at};
pub use selection::selected_method;
pub use step::step_obj;
