//! The machine of a domain as definitions: instructions, states and next acts.
#![tactic(auto)]
