// What is written as a record: the draft's rules and its need, and the record writer, which writes a draft's fields or a record's own behind
// a leader. No address is known here.

#![tactic(auto)]

pub mod draft;
pub mod writer;
