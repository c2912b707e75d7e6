// Splittings of a joint run into two half runs: how many there are, and each by its number. Document 01, "A splitting
// chooses one way for each step".
#![tactic(auto)]

pub mod count;
pub mod split;
