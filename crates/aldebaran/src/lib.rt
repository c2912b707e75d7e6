// Reading an Aldebaran text, the form in which other tools save a machine, into a table and its first state. Document
// 02, 1/12.
#![tactic(auto)]

mod mark;
pub mod read;
mod rows;
