// A protocol file.
#![tactic(auto)]

pub mod figures; // of its limits
pub mod walks; // over a rule's terms, facts and lists
pub mod places; // in a rule
pub mod index; // of a file, filled in one pass
