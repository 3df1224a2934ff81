//! Domains that share one list through the lock, each in a thread of its own.
#![tactic(auto)]

#[cfg(test)]
mod plain_list;
#[cfg(test)]
mod printers;
#[cfg(test)]
mod tests;
