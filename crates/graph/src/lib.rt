// Dependency graphs: their edges, and causes 3 and 6 to 13 of a graph file.
#![tactic(auto)]

pub mod edges; // read into a table of numbers
pub mod reading; // 3 and 6 of a graph file
pub mod scan; // the least item that fails a test
pub mod ends; // 10: an end is missing, or the source is not earlier
pub mod joins; // 11: the facts differ
pub mod uses; // how often each fact is an end of an edge
pub mod passes; // 12: a premise without exactly one edge; 13: a linear conclusion used twice
pub mod area; // the map of the work area
pub mod ruling; // 3 and 6 to 13 of a graph file
