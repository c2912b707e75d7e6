// The lines of a sheet as bytes: document 01, "The casebook".
#![tactic(auto)]

pub mod block;
mod case;
mod ending;
mod kept;
mod line;
pub mod lines;
mod point;
