// Numbers in decimal and bytes in hexadecimal, written into a lent output. Rests on no other crate.
#![tactic(auto)]

pub mod decimal;
pub mod hexadecimal;
mod output;
