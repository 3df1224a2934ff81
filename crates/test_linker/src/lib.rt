//! Tests of linking: the systems that classes link to, and their first faults.
#![tactic(auto)]

#[cfg(test)]
mod answers;
#[cfg(test)]
mod cases;
#[cfg(test)]
mod faults;
#[cfg(test)]
mod files;
#[cfg(test)]
mod first;
#[cfg(test)]
mod reading;
#[cfg(test)]
mod short_forms;
#[cfg(test)]
mod systems;
#[cfg(test)]
mod uses;
