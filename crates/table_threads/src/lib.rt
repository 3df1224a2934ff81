//! What one more entry changes of the records of domains, threads and calls, and of the binds, as
//! lemmas.
#![tactic(auto)]
