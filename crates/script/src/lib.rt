// A list of calls as numbers, and what a run of one reports: the calls that the numbers stand for, why a run stopped and how many calls it ran.

#![tactic(auto)]

pub mod calls;
pub mod cursor;
pub mod lists;
pub mod report;
