// The nodes of step lists and graphs: their values and their facts.
#![tactic(auto)]

pub mod nodes; // read front to back for 3 and 6
pub mod values; // 7: what fits a variable
pub mod names; // 9: the names that nodes make
pub mod sizes; // 8: the symbols of filled-in terms
pub mod size_pass; // 8: the least node
pub mod ruling; // 3, 6, 7, 8 and 9 of a step list
