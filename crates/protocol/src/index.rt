// The index of a protocol file, filled in one pass over it.
ghost use Rattle.std.specs.Prelude.{◌≡◌, ◌≤◌, ◌<◌, ◌+◌, [], length};
ghost use Rattle.octets.specs.Limits.{longest};
ghost use Rattle.term.specs.Tags.{most_functions, tag_count};
ghost use Rattle.protocol.specs.Figures.{most_own, symbol_count, most_rules, arity_limit};
ghost use Rattle.number.specs.Reading.{below, many, counted};
ghost use Rattle.term.specs.Arity.{tag_arities};
ghost use Rattle.protocol.specs.Protocol.{empty_rule, own};
ghost use Rattle.protocol.specs.Protocol.Text.{rule_in};
ghost use Rattle.protocol.specs.Index.{Told, Slotted, Tabled, Placed, Indexed};
ghost use Rattle.protocol.specs.Index.Fill.{as_own};

use crate::walks::RuleText;
use crate::{figures, walks};

// The counts of fact symbols (with the four built-in ones) and of rules.
#[derive(Clone, Copy)]
pub struct Counts {
    pub symbols: usize,
    pub rules: usize,
}

// The arities of n functions, each into the slot of its tag.
fn functions_from(file: &[u8], at: usize, n: u32, arities: &mut [u8]) -> Option<(u32, usize)>
    requires { (n ≤ most_functions) × (length arities.old ≡ tag_count) × (arities.old ≡ tag_arities []) }
    ensures kept { length arities.new ≡ length arities.old }
    ensures told { Told (many (below file.now arity_limit) n at) (Slotted arities.new) result }
{
    let mut i = at;
    for j in 0..n {
        let (v, e) = number::below(file, i, figures::ARITY_LIMIT)?;
        arities[term::FIRST_FREE + j as usize] = v as u8;
        i = e;
    }
    Some((n, i))
}

// The built-in functions' arities, and aenc to true's behind the slots of the free functions; then a count and that many arities.
fn functions(file: &[u8], at: usize, arities: &mut [u8]) -> Option<(u32, usize)>
    requires { length arities.old ≡ tag_count }
    ensures kept { length arities.new ≡ length arities.old }
    ensures told { Told (counted file.now most_functions (below file.now arity_limit) at) (Slotted arities.new) result }
{
    octets::copy_into(
        arities,
        0,
        b"\xff\xff\xff\x00\x02\x02\x01\x02\x01\x01\x02\x01\x02\xff\xff\xff\xff\xff\xff\xff\xff\xff\xff\xff\xff\xff\xff\xff\xff\x02\x02\x01\x02\x03\x00",
    );
    let (n, e) = number::below(file, at, figures::FUNCTION_LIMIT)?;
    functions_from(file, e, n, arities)
}

// A fact symbol of the protocol's own: its arity, its persistence, the place behind it.
fn own_at(file: &[u8], at: usize) -> Option<(u32, u32, usize)>
    ensures { as_own result ≡ own file.now at }
{
    let (a, e) = number::below(file, at, figures::FACT_ARITY_LIMIT)?;
    let (l, f) = number::below(file, e, figures::FLAGS)?;
    Some((a, l, f))
}

// The built-in fact symbols, then the arities and flags of n own ones.
fn symbols_from(
    file: &[u8],
    at: usize,
    n: u32,
    ars: &mut [u8],
    flags: &mut [u8],
) -> Option<(u32, usize)>
    requires { (n ≤ most_own) × (symbol_count ≤ length ars.old) × (symbol_count ≤ length flags.old) }
    ensures kept { (length ars.new ≡ length ars.old) × (length flags.new ≡ length flags.old) }
    ensures told { Told (many (own file.now) n at) (Tabled ars.new flags.new) result }
{
    octets::copy_into(ars, 0, b"\x01\x01\x01\x01");
    octets::copy_into(flags, 0, b"\x00\x00\x00\x01");
    let mut i = at;
    for j in 0..n {
        let (a, l, e) = own_at(file, i)?;
        let k = j as usize + figures::FIRST_OWN;
        ars[k] = a as u8;
        flags[k] = l as u8;
        i = e;
    }
    Some((n, i))
}

fn symbols(file: &[u8], at: usize, ars: &mut [u8], flags: &mut [u8]) -> Option<(u32, usize)>
    requires { (symbol_count ≤ length ars.old) × (symbol_count ≤ length flags.old) }
    ensures kept { (length ars.new ≡ length ars.old) × (length flags.new ≡ length flags.old) }
    ensures told { Told (counted file.now most_own (own file.now) at) (Tabled ars.new flags.new) result }
{
    let (n, e) = number::below(file, at, figures::OWN_LIMIT)?;
    symbols_from(file, e, n, ars, flags)
}

// The places of n rules.
fn rules_from(x: &RuleText, at: usize, n: u32, places: &mut [usize]) -> Option<(u32, usize)>
    requires { (length x.now.file.now ≤ longest) × (n ≤ most_rules) × (most_rules ≤ length places.old) }
    ensures kept { length places.new ≡ length places.old }
    ensures told { Told (many (rule_in x.now) n at) (Placed (rule_in x.now) empty_rule places.new) result }
{
    let mut i = at;
    for j in 0..n {
        let e = walks::one_rule(x, i)?;
        places[j as usize] = i;
        i = e;
    }
    Some((n, i))
}

fn rules(x: &RuleText, at: usize, places: &mut [usize]) -> Option<(u32, usize)>
    requires { (length x.now.file.now ≤ longest) × (most_rules ≤ length places.old) }
    ensures kept { length places.new ≡ length places.old }
    ensures told { Told (counted x.now.file.now most_rules (rule_in x.now) at) (Placed (rule_in x.now) empty_rule places.new) result }
{
    let (n, e) = number::below(x.file, at, figures::RULE_LIMIT)?;
    rules_from(x, e, n, places)
}

// One pass over a protocol file: the counts and the filled index, or a fault. The four tables are lent one by one: each filling above takes the
// one or two that are its own, and the first two are lent on without the others wherever rules are read.
pub fn read_protocol(
    file: &[u8],
    arities: &mut [u8],
    ars: &mut [u8],
    flags: &mut [u8],
    places: &mut [usize],
) -> Option<Counts>
    requires { (length file.now ≤ longest) × (length arities.old ≡ tag_count) × (symbol_count ≤ length ars.old) × (symbol_count ≤ length flags.old) × (most_rules ≤ length places.old) }
    ensures { Indexed file.now result arities.new ars.new flags.new places.new }
{
    let (_, e) = functions(file, 0, arities)?;
    let (no, f) = symbols(file, e, ars, flags)?;
    let m = no as usize + figures::FIRST_OWN;
    let text = RuleText {
        file: file,
        arities: arities,
        ars: &ars[..m],
    };
    let (nr, g) = rules(&text, f, places)?;
    if g == file.len() {
        return Some(Counts {
            symbols: m,
            rules: nr as usize,
        });
    }
    None
}
