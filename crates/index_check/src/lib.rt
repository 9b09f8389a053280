// The check of a whole CDS/ISIS search index: 0 exactly for the sound ones. Any bytes, read only.

#![tactic(auto)]

pub mod check;
