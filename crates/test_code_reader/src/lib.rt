//! Tests of what is read from files, over tables of small cases.
#![tactic(auto)]

#[cfg(test)]
mod code;
