//! The text of an audit and of a summary, as definitions.
#![tactic(auto)]
