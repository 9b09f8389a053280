// The theorem about every list of calls in running code: a list of calls as numbers is run on two lent buffers, and what is written down is what
// the ledger answers.

#![tactic(auto)]

pub mod run;
pub mod turns;
