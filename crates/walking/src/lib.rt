// The field walker: from the first entry of a record's directory to the last, and the list of all fields through one walk.

#![tactic(auto)]

pub mod walker;
