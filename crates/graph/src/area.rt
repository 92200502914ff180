// The map of the work area: where each region begins, and where it ends. The counts of ends come first; two facts that are compared, or a
// canonical form, are written into the region behind them.
use crate::uses;
use facts::writing;

pub const COUNTS: usize = 0;

pub const COUNTS_END: usize = COUNTS + uses::COUNTS;

pub const FACTS: usize = COUNTS_END;

pub const FACTS_END: usize = FACTS + 2 * writing::FACT_ROOM;
