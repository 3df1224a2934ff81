//! What the instructions of a domain's thread work on.
#![tactic(auto)]

mod behind;
mod cores;
mod frames;
mod kept;
mod leaving;
mod making;
mod objects;
mod step;
mod switches;

pub use behind::place_behind;
pub use cores::Core;
pub use frames::{class_of_frame, code_of, constant_at, pc_behind, peek, running};
pub use kept::{default_of, kept_value};
pub use leaving::{leave, take};
pub use making::{Contents, make_array, make_object};
pub use objects::{cells_of, class_of_object, put_cell, shape_of};
pub use step::ObjStep;
