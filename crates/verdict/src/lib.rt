// Verdicts on joint runs and half runs: document 01, "Questions and verdicts".
#![tactic(auto)]

mod answer;
mod back;
mod beside;
mod chain;
mod code;
mod grids;
pub mod half;
pub mod joint;
mod never;
mod search;
mod trial;
