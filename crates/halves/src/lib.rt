// Half runs of one machine: their steps, the check against a table, and the cut. Document 01, "Machines and labels".
#![tactic(auto)]

pub mod half;
pub mod side;
pub mod step;
