// The judge of a property over a trace in numbers.
#![tactic(auto)]

pub mod figures; // tags, how many variables and arguments
pub mod reading; // numbers, terms and guards of a property file
pub mod entries; // the entries of the tables
pub mod matching; // a guard against an entry
pub mod skipping; // the place behind a formula
pub mod judging; // judge and walk
