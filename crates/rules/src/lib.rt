// Rules: the conditions on a protocol's rules, and the rules by their number.
#![tactic(auto)]

pub mod fit; // P1 to P5, and the judgement of a protocol file
pub mod numbered; // the rule of each number
