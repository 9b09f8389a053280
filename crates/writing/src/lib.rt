// The calls that may write: format, create, settle and revert; update and delete stand above. Each first reads and decides, and only then
// writes. What every one of them answers and leaves is said here.

#![tactic(auto)]

pub mod create;
pub mod format;
pub mod settling;
