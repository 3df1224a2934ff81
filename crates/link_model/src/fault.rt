//! The faults of linking.

use jx_base::Text;

/// What is wrong with a class, or with what its code uses.
#[derive(Clone, Copy, Debug, PartialEq, Eq)]
pub enum LinkKind {
    NoClass = 1,
    NoField = 2,
    NoMethod = 3,
    SuperLoop = 4,
    NoMain = 5,
    Twice = 6,
    Abstract = 7,
    BadConstant = 8,
    WrongName = 9,
}

/// The first fault of linking: the class that was read, and the name that is missing or at fault.
/// For `BadConstant` the name is the constant's index in decimal digits.
#[derive(Debug, Drop)]
pub struct LinkFault {
    pub class: Text,
    pub kind: LinkKind,
    pub name: Text,
}
