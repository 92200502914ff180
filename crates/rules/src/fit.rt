// The conditions P1 to P5, and the judgement of a protocol file.
ghost use Rattle.std.specs.Prelude.{◌≡◌, List, ◌≤◌, ◌<◌, length};
ghost use Rattle.octets.specs.Limits.{longest};
ghost use Rattle.term.specs.Tags.{tag_count};
ghost use Rattle.protocol.specs.Figures.{symbol_count, most_rules};
ghost use Rattle.lists.specs.Lists.{any_by};
ghost use Rattle.protocol.specs.Protocol.{Fact, Rule, empty_rule, protocol};
ghost use Rattle.protocol.specs.Places.{At};
ghost use Rattle.lists.specs.Asks.{Promises};
ghost use Rattle.protocol.specs.Protocol.Text.{facts_in, rule_in, asks_for, rule_asks_for};
ghost use Rattle.protocol.specs.Index.{Placed};
ghost use Rattle.rules.specs.Fit.{bound, p45, fits, judged};
ghost use Rattle.lists.specs.Below.{least, all_below};
ghost use Rattle.rules.specs.Fit.Laws.{hit_of, OfRule, Located, unfit, found, verdict_of, Indexes};

use protocol::figures::{ACTIONS, CONCLUSIONS, PREMISES};
use protocol::index::Counts;
use protocol::walks::{RuleText, Wanted};
use protocol::{figures, index, places, walks};

// What makes a protocol file unfit: the least rule that breaks a condition, from 1; a layout fault.
#[derive(Clone, Copy)]
pub enum Unfit {
    Broken(usize),
    Fault,
}

// One match of two arms: a closure over the pair says it no plainer.
fn hit_of(r: Option<(usize, bool)>) -> bool
    ensures { result ≡ hit_of r }
{
    match r {
        Some((_, h)) => h,
        None => false,
    }
}

// A rule: its place, and those of its lists.
#[derive(Clone, Copy)]
pub struct RulePlaces {
    pub at: usize,
    pub premises: usize,
    pub actions: usize,
    pub conclusions: usize,
}

// What P1 to P3 allow nowhere, in no premise, in no conclusion.
const A_FRESH_NAME: Wanted = Wanted {
    kind: term::FRESH,
    lo: 0,
    hi: number::NUMBER_LIMIT,
};

const OUT_OR_K: Wanted = Wanted {
    kind: figures::SYMBOL_KIND,
    lo: figures::OUT,
    hi: figures::PAST_K,
};

const FR_OR_IN: Wanted = Wanted {
    kind: figures::SYMBOL_KIND,
    lo: figures::FR,
    hi: figures::OUT,
};

const A_K: Wanted = Wanted {
    kind: figures::SYMBOL_KIND,
    lo: figures::K,
    hi: figures::PAST_K,
};

// Whether a fact of the list at a place has what is looked for. It stands beside `rule_asks`: what they promise differs, of a list and of a rule.
fn list_asks(text: &RuleText, start: usize, w: Wanted) -> bool
    requires { length text.now.file.now ≤ longest }
    ensures { Promises (At (facts_in text.now) start) (λ (fs : List Fact). result ≡ any_by (asks_for w) fs) }
{
    hit_of(walks::one_list(text, start, w))
}

// Whether a fact of the rule at a place has what is looked for.
fn rule_asks(text: &RuleText, at: usize, w: Wanted) -> bool
    requires { length text.now.file.now ≤ longest }
    ensures { OfRule text.now.file.now text.now.arities.now text.now.ars.now at (λ (r : Rule). result ≡ rule_asks_for w r) }
{
    hit_of(walks::one_layout(text, at, w))
}

// Whether variable v of a rule is of sort public, in a premise, or in no conclusion and no action.
fn is_bound(text: &RuleText, x: RulePlaces, v: u32) -> bool
    requires { (length text.now.file.now ≤ longest) × Located text.now.file.now text.now.arities.now text.now.ars.now x }
    ensures { OfRule text.now.file.now text.now.arities.now text.now.ars.now x.at (λ (r : Rule). v < length r.sorts → result ≡ bound r v) }
{
    if places::sort_of(text.file, x.at, v) == figures::PUBLIC_SORT {
        return true;
    }
    let n = v as usize;
    let it = Wanted {
        kind: term::VARIABLE,
        lo: n,
        hi: n + 1,
    };
    if list_asks(text, x.premises, it) {
        return true;
    }
    let below = list_asks(text, x.conclusions, it);
    let beside = list_asks(text, x.actions, it);
    !below & !beside
}

// The same for the first n variables.
fn all_bound(text: &RuleText, x: RulePlaces, n: u32) -> bool
    requires { (length text.now.file.now ≤ longest) × Located text.now.file.now text.now.arities.now text.now.ars.now x }
    ensures { OfRule text.now.file.now text.now.arities.now text.now.ars.now x.at (λ (r : Rule). n ≤ length r.sorts → result ≡ all_below (bound r) n) }
{
    for j in 0..n {
        if !is_bound(text, x, j) {
            return false;
        }
    }
    true
}

// P4 and P5 of a rule.
fn variables_bound(text: &RuleText, x: RulePlaces) -> bool
    requires { (length text.now.file.now ≤ longest) × Located text.now.file.now text.now.arities.now text.now.ars.now x }
    ensures { OfRule text.now.file.now text.now.arities.now text.now.ars.now x.at (λ (r : Rule). result ≡ p45 r) }
{
    match walks::sorts_at(text.file, x.at) {
        Some((n, _)) => all_bound(text, x, n),
        None => false,
    }
}

// P1 to P5 of the rule at a place. The places of its lists are found once.
fn rule_fits(text: &RuleText, at: usize) -> bool
    requires { length text.now.file.now ≤ longest }
    ensures { OfRule text.now.file.now text.now.arities.now text.now.ars.now at (λ (r : Rule). result ≡ fits r) }
{
    let above = places::list_at(text, at, PREMISES);
    let beside = places::list_at(text, at, ACTIONS);
    let below = places::list_at(text, at, CONCLUSIONS);
    let x = RulePlaces {
        at: at,
        premises: above,
        actions: beside,
        conclusions: below,
    };
    let fresh = rule_asks(text, at, A_FRESH_NAME);
    let known = list_asks(text, above, OUT_OR_K);
    let made = list_asks(text, below, FR_OR_IN);
    let learnt = list_asks(text, below, A_K);
    let held = variables_bound(text, x);
    !fresh & (!known & ((!made & !learnt) & held))
}

// The least of the rules at these places that breaks a condition, counted from 1.
fn least_unfit(text: &RuleText, places: &[usize]) -> Option<usize>
    requires { length text.now.file.now ≤ longest }
    ensures { (rs : List Rule) → Placed (rule_in text.now) empty_rule places.now rs (length places.now) → result ≡ found (least (unfit rs) (length places.now)) }
{
    for j in 0..places.len() {
        if !rule_fits(text, places[j]) {
            return Some(j + 1);
        }
    }
    None
}

// Reads a protocol file into its index, and judges it.
pub fn judge(
    file: &[u8],
    arities: &mut [u8],
    ars: &mut [u8],
    flags: &mut [u8],
    places: &mut [usize],
) -> Result<Counts, Unfit>
    requires { (length file.now ≤ longest) × (length arities.old ≡ tag_count) × (symbol_count ≤ length ars.old) × (symbol_count ≤ length flags.old) × (most_rules ≤ length places.old) }
    ensures told { verdict_of result ≡ judged (protocol file.now) }
    ensures index { Indexes file.now result arities.new ars.new flags.new places.new }
{
    let counts = index::read_protocol(file, arities, ars, flags, places).ok_or(Unfit::Fault)?;
    let text = RuleText {
        file: file,
        arities: arities,
        ars: &ars[..counts.symbols],
    };
    match least_unfit(&text, &places[..counts.rules]) {
        Some(k) => Err(Unfit::Broken(k)),
        None => Ok(counts),
    }
}
