// The figures of a property file that the judge needs beside those of crate property.

// "1 equal, 2 unequal ..; 5 same time, 6 not same time; 7 action, 8 no action": an odd tag asserts, and the next one denies.
pub const SAME_TIME: usize = 5;

pub const SIGNS: usize = 2;

pub const ASSERTS: usize = 1;

// "12 for all"
pub const EVERY: usize = 12;

// "16 in scope": a slot for each variable.
pub const SCOPE: usize = property::figures::MOST_SCOPE;

// "each arity (0 to 8)": so many classes stand for an entry.
pub const ARITY: usize = protocol::figures::MOST_FACT_ARITY;
