//! Tests of the tables of the nucleus.
#![tactic(auto)]

#[cfg(test)]
mod call_desk;
#[cfg(test)]
mod calls;
#[cfg(test)]
mod domain_desk;
#[cfg(test)]
mod domains;
#[cfg(test)]
mod journals;
#[cfg(test)]
mod memory;
#[cfg(test)]
mod prints;
#[cfg(test)]
mod service_desk;
#[cfg(test)]
mod services;
