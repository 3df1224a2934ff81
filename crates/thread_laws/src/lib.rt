//! Laws of the threads of a domain: what its history says of them is so in its machine.
#![tactic(auto)]

mod laws;

pub use laws::{
    entries_are_of_their_thread, nothing_follows_an_end, running_threads_may_perform,
    states_agree_on_threads, threads_serve_their_calls,
};
