//! What is permitted, and what replies ask of a past, read off the tables.
#![tactic(auto)]
