// The two lent buffers as a store: the answers, and what every call asks first, the lengths, the control record, an MFN's entry and its
// record. Nothing that was read is believed before it is tested.

#![tactic(auto)]

pub mod answer;
pub mod gate;
