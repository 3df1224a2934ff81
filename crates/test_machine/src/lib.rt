//! Tests of the machine of a domain: what code comes to at its first act.
#![tactic(auto)]

#[cfg(test)]
mod cases;
#[cfg(test)]
mod exceptions;
#[cfg(test)]
mod files;
#[cfg(test)]
mod first_act;
#[cfg(test)]
mod limits;
#[cfg(test)]
mod reading;
#[cfg(test)]
mod short_forms;
#[cfg(test)]
mod values;
