// The figures of a protocol file: the most of each count and the limit above it, the sorts, the lists of a rule.
pub const FUNCTION_LIMIT: usize = term::MOST_FUNCTIONS + 1;

pub const MOST_ARITY: usize = 4;

pub const ARITY_LIMIT: usize = MOST_ARITY + 1;

pub const MOST_OWN: usize = 32;

pub const OWN_LIMIT: usize = MOST_OWN + 1;

// "own ones start at 4": the four built-in fact symbols come before them.
pub const FIRST_OWN: usize = 4;

pub const SYMBOLS: usize = FIRST_OWN + MOST_OWN;

pub const MOST_FACT_ARITY: usize = 8;

pub const FACT_ARITY_LIMIT: usize = MOST_FACT_ARITY + 1;

// "0 linear or 1 persistent"
pub const FLAGS: usize = 2;

pub const MOST_RULES: usize = 64;

pub const RULE_LIMIT: usize = MOST_RULES + 1;

pub const MOST_VARIABLES: usize = 16;

pub const VARIABLE_LIMIT: usize = MOST_VARIABLES + 1;

// "each sort (0 message, 1 fresh, 2 public)"
pub const MESSAGE_SORT: usize = 0;

pub const FRESH_SORT: usize = 1;

pub const PUBLIC_SORT: usize = 2;

pub const SORTS: usize = 3;

// "premises, actions, conclusions"
pub const PREMISES: usize = 0;

pub const ACTIONS: usize = 1;

pub const CONCLUSIONS: usize = 2;

pub const LISTS: usize = 3;

pub const MOST_FACTS: usize = 8;

pub const FACT_LIMIT: usize = MOST_FACTS + 1;

pub const MOST_RULE_SYMBOLS: usize = 64;

pub const RULE_SYMBOL_LIMIT: usize = MOST_RULE_SYMBOLS + 1;

// A test of a fact is of a leaf of one of the kinds 0 to 2, or, by this number, of its symbol.
pub const SYMBOL_KIND: usize = 3;

// "Symbols 0 Fr, 1 In, 2 Out are linear, 3 K persistent"
pub const FR: usize = 0;

pub const IN: usize = 1;

pub const OUT: usize = 2;

pub const K: usize = 3;

pub const PAST_K: usize = K + 1;
