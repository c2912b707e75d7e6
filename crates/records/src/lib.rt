// Records of a casebook: their lengths, their bodies, and the reading position that steps over them.
#![tactic(auto)]

pub mod record;
