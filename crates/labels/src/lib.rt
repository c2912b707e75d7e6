// The refusals of documents 01 and 02, the labels of a call, and bytes copied.
#![tactic(auto)]

pub mod copying;
pub mod label;
pub mod refusal;
