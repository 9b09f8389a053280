// A whole list of MFNs is settled in one call.

#![tactic(auto)]

pub mod settle_list;
