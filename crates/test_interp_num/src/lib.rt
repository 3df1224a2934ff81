//! Tests of numeric instructions.
#![tactic(auto)]

#[cfg(test)]
mod arithmetic;
#[cfg(test)]
mod branches;
#[cfg(test)]
mod moves;
#[cfg(test)]
mod opcodes;
#[cfg(test)]
mod outcome_text;
#[cfg(test)]
mod running;
