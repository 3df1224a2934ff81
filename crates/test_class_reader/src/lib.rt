//! Tests of reading class files, over tables of bytes.
#![tactic(auto)]

#[cfg(test)]
mod codes;
#[cfg(test)]
mod constants;
#[cfg(test)]
mod descriptors;
#[cfg(test)]
mod fronts;
#[cfg(test)]
mod members;
#[cfg(test)]
mod parts;
#[cfg(test)]
mod texts;
#[cfg(test)]
mod whole;
