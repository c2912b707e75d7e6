// Tables: document 01, "Machines and labels". A table as bytes is its number of states, then its rows, three bytes
// each.
#![tactic(auto)]

pub mod check;
pub mod leaving;
pub mod row;
