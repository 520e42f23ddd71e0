// The C interface, for a host in C or Rust: byte slices in, a refusal or 0 out. Each number is in 8 little-endian bytes.
// The functions answer a u32, 0 or the refusal's number, and not a Result: hosts in C call them (include/fenuschia.h).
#![tactic(auto)]

pub mod batch;
pub mod file;
pub mod sizing;
