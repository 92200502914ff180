// The actions of nodes in numbers: the trace as the judge reads it.
#![tactic(auto)]

pub mod entries; // the actions of all nodes, an entry each
pub mod numbers; // the first number of each argument: a public name's, or a mark
pub mod classes; // the class of each argument
pub mod tables; // the tables: starts, symbols, classes
pub mod active; // how many nodes have an action
