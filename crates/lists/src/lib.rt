// Lists of calls as text. Of a text only the decimal numbers count. A list is nine lengths (of the MST, the XRF, the room for answers and for
// bytes shown, the calls' numbers, the MFNs of lists, and the drafts' tags, lengths and bytes) and then those numbers, MFNs, tags, lengths and
// bytes.

#![tactic(auto)]

pub mod list;
pub mod numbers;
pub mod parts;
