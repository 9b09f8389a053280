// The MFNs that two posting lists have in common, or joined. Document 02, C-14.

#![tactic(auto)]

pub mod merge;
