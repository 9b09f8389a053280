// Term lookup in the B*trees of a CDS/ISIS search index: two trees in five lent slices, which may hold any bytes and are only read.

#![tactic(auto)]

pub mod files;
pub mod layout;
pub mod lookup;
pub mod rules;
