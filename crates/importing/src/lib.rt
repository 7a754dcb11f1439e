// Reads a table, as `tables` defines it: its header, and its rows one at a time.
#![tactic(auto)]

mod fields;
mod forms;
pub mod hex;
pub mod reading;
