//! One name that opens the definitions of the models, for cases that are computed.
#![tactic(auto)]
