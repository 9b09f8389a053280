// One record, seen as the slice that starts at its first byte: the directory's rules, the record test, the fields and the search among
// them. No address is known here.

#![tactic(auto)]

pub mod directory;
pub mod fields;
pub mod test;
