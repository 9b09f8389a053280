// Numbers of the layout of a CDS/ISIS master file (MST) and cross-reference file (XRF): sizes and addresses, cross-reference entries, and
// the leader of a record.

#![tactic(auto)]

pub mod entry;
pub mod leader;
pub mod sizes;
