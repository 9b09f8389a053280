// The calls that give a record a new version: update and delete. Each first reads and decides where
// the version goes, and only then writes.

#![tactic(auto)]

pub mod changes;
