// The calls that show a field of a record: the two views, and a record's fields one after the
// other.

#![tactic(auto)]

pub mod views;
pub mod walk;
