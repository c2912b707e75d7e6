// Casebooks: reading one whole or refusing it under one number, and writing one from its parts.
#![tactic(auto)]

pub mod read;
pub mod write;
