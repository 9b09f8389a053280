// What a caller asks of a card beside a field: all fields of a record at once, the next MFN and the
// end, and how a record stands; and of one record alone, which entry breaks a rule.

#![tactic(auto)]

pub mod listing;
pub mod record_test;
pub mod state;
