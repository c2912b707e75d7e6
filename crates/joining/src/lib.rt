// Joining two half runs to the joint run that they split. Document 01, "Joining is the reverse".
#![tactic(auto)]

pub mod join;
