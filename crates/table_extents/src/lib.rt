//! What one more entry changes of the records of extents, of their bytes, and of the granules in
//! use.
#![tactic(auto)]
