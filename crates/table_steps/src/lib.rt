//! The tables stand for a history with one more entry, act by act: what stays, and what each act
//! changes.
#![tactic(auto)]
