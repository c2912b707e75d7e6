// The lines of an Aldebaran text: document 02, 1/12. What stands on them, read from left to right, and how labels are
// spelled.
#![tactic(auto)]

pub mod label;
pub mod line;
mod scan;
