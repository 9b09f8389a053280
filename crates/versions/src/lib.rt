// The writes themselves, once a call has decided: a record at the end or in place, its entry, and
// the end. Each function asks in its `requires` what the decision has found.
// That is no ghost field of a struct: it is about the bytes that the function then overwrites. The
// two buffers stay two slices, since each write is of one of them.

#![tactic(auto)]

pub mod changing;
mod copying;
pub mod create;
pub mod settling;
