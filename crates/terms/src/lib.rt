// Terms and keys: the order of keys in lent slices, and the term that is looked up. Nothing here knows of trees.

#![tactic(auto)]

pub mod key;
pub mod term;
