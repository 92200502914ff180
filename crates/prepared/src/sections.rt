// The sections of a prepared protocol, one behind the other.
use protocol::figures;

// As many as there are rule numbers.
pub const RULE_COUNT: usize = rules::numbered::NUMBERS;

// The bytes of a place.
pub const PLACE_BYTES: usize = 2;

// "Protocol (4,096 bytes)"
pub const FILE_LIMIT: usize = 4096;

// The arity of each tag; behind them the arity of each fact symbol, 1 where it is linear, the place of each rule number, the bytes of the
// built-in rules and apply-rules, the file's bytes.
pub const ARITIES: usize = term::TAGS;

pub const LINEARS: usize = ARITIES + figures::SYMBOLS;

pub const PLACES: usize = LINEARS + figures::SYMBOLS;

pub const RULES: usize = PLACES + PLACE_BYTES * RULE_COUNT;

pub const FILE: usize = RULES + rules::numbered::RULE_ROOM * rules::numbered::WRITTEN;

pub const BODY: usize = FILE + FILE_LIMIT;

// Behind that body the places of each rule's lists; behind these the places of each list's facts.
pub const LIST_COUNT: usize = figures::LISTS * RULE_COUNT;

pub const FACT_COUNT: usize = figures::MOST_FACTS * LIST_COUNT;

pub const TABLE_BYTES: usize = PLACE_BYTES * (LIST_COUNT + FACT_COUNT);

pub const PREPARED: usize = BODY + TABLE_BYTES;
