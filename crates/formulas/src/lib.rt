// Formulas as bytes in prefix order: document 01, "Questions and verdicts".
#![tactic(auto)]

pub mod backs;
pub mod check;
pub mod forwards;
pub mod node;
pub mod sizes;
pub mod tree;
