// The ways of one step of a joint run, by the rows that leave its states: left alone, right alone, then handshakes by
// rising left label. Document 01, "Machines and labels".
#![tactic(auto)]

pub mod choose;
pub mod count;
pub mod step;
