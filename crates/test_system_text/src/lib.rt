//! Tests of descriptions: texts, and their plans or first faults.
#![tactic(auto)]

#[cfg(test)]
mod answers;
#[cfg(test)]
mod domains;
#[cfg(test)]
mod plans;
#[cfg(test)]
mod tops;
