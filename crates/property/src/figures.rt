// The figures of a property file.
// "tags 0 false; 1 equal, 2 unequal; 3 before, 4 not before, 5 same time, 6 not same time; 7 action, 8 no action; 9 and, 10 or; 11 exists,
// 12 for all": the first of each kind.
pub const FALSE: usize = 0;

pub const BEFORE: usize = 3;

pub const ACTION: usize = 7;

pub const AND: usize = 9;

pub const EXISTS: usize = 11;

pub const TAGS: usize = 13;

// "a count of new variables (8), each sort (0 message, 3 time)"
pub const MOST_NEW: usize = 8;

pub const NEW_LIMIT: usize = MOST_NEW + 1;

pub const TIME_SORT: usize = 3;

// "16 in scope; nesting at most 16"
pub const MOST_SCOPE: usize = 16;

pub const MOST_NESTING: usize = 16;

// "Only tags 0 and 1 stand for terms here."
pub const TERM_TAGS: usize = 2;
