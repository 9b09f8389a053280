// A posting, the eight bytes that say where a term stands: read, written and compared; and the answers of the calls on postings. Document
// 02, C-14.

#![tactic(auto)]

pub mod answer;
pub mod codec;
