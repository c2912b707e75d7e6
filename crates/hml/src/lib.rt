// The theory of the paper stands in specs/; it has no code. specs/Lib.antt lists its files in reading order.
#![tactic(auto)]
