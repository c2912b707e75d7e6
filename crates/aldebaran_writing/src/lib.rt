// Writing a table and its first state as an Aldebaran text: document 02, 1/12.
#![tactic(auto)]

pub mod write;
