// The ledger of demand 3 and the theorem about every list of calls. There is no code here: crate `replay` is the theorem in running code.

#![tactic(auto)]
