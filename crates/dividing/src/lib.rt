// The quotient of a question by a half run of one table: document 01, "The quotient".
#![tactic(auto)]

mod count;
mod disjuncts;
pub mod divide;
mod node;
mod write;
