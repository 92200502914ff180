// The prepared protocol: one slice with all that the code asks of a fit protocol.
#![tactic(auto)]

pub mod sections; // where each section starts
pub mod pairs; // a place in two bytes
pub mod finding; // the rule of a number, its lists and facts
pub mod filling; // a protocol file is judged and prepared
pub mod list_places; // and the places of the lists of each rule, and of their facts, behind it
