// For port_cases, batch_cases, tandem_cases, jitter_cases and handful_cases: table and port records of a case, what is printed, and sums of what a
// case leaves.
#![tactic(auto)]

pub mod reader;
pub mod record;
pub mod rows;
pub mod sums;
pub mod tables;
