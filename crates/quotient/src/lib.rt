// Quotients by a half that is known, and the line office: document 01, "The quotient".
#![tactic(auto)]

mod check;
pub mod half;
pub mod line;
pub mod number;
mod part;
