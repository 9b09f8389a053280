// What stands at fixed places of the two files: the control record of the MST, and the blocks and entries of the XRF. Only this crate knows
// how the end is stored and where a number stands in a block.

#![tactic(auto)]

pub mod control;
pub mod cross_reference;
