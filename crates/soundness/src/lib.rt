// The whole-store check: passes exactly the sound stores, in time linear in the bytes and MFNs and with constant memory; and the recount.

#![tactic(auto)]

pub mod check;
mod passes;
mod steps;
