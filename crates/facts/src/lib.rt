// The facts of nodes: their bytes, and when two are the same.
#![tactic(auto)]

pub mod writing; // the canonical bytes of a fact, or of one argument of it; its bytes as it stands
pub mod nodes; // of a node's fact
pub mod counts; // how many facts a node has
pub mod symbols; // and their symbols
pub mod marks; // facts whose marks differ are not the same
pub mod compare; // two facts, two arguments, an argument and a public name
