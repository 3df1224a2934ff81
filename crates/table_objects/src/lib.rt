//! What one more entry changes of the records of services and memory objects: who holds them, and
//! what calls carry.
#![tactic(auto)]
