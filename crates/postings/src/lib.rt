// Posting lists in the IFP: a segment's header, a cursor over the postings of a list, and the call that gives a list's postings. Nothing
// here knows of a card. Document 02, C-14.

#![tactic(auto)]

pub mod cursor;
pub mod list;
pub mod segment;
