//! The top calls: what the program does, for any shelf and any sink.
#![tactic(auto)]

mod assembling;
mod calls;
mod check;
mod class_error;
mod class_files;
mod commands;
mod defect;
mod fetching;
mod finding;
mod laws;
mod read_classes;
mod request;
mod run;
mod status;
mod status_lines;

pub use calls::{jx_main, jx_serial};
pub use class_asm::{AsmFault, AsmKind};
pub use defect::{Defect, DefectKind};
pub use laws::files_decide;
pub use link_model::{LinkFault, LinkKind};
pub use request::Request;
pub use status::Status;
pub use status_lines::{status_line, status_number};
pub use system_text::PlanFault;
