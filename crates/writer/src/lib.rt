// The graph writer: a source for each premise, and the edges written behind the steps.
#![tactic(auto)]

pub mod free; // the free conclusions, and the first that is the same as a premise
pub mod sources; // 14: a source for each premise of each node
pub mod edges; // the bytes of the edges
