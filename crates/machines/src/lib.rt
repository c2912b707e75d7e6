// Two machines side by side: the steps of joint runs, and the check of a joint run against two tables. Document 01,
// "Machines and labels".
#![tactic(auto)]

pub mod handshake;
pub mod joint;
pub mod step;
