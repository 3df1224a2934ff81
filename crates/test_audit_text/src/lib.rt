//! Tests of audits.
#![tactic(auto)]

#[cfg(test)]
mod calls;
#[cfg(test)]
mod lines;
#[cfg(test)]
mod odd_names;
#[cfg(test)]
mod rendering;
