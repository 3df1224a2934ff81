//! Tests of lines of words and of pages.
#![tactic(auto)]

#[cfg(test)]
mod pages;
