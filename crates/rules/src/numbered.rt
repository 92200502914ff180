// The rule of each number: a built-in rule is written out in the layout of a protocol file's rules.
ghost use Rattle.std.specs.Prelude.{◌≡◌, List, ℕ, ◌≤◌, ◌<◌, ◌+◌, ◌*◌, length, take};
ghost use Rattle.number.specs.Groups.{base};
ghost use Rattle.term.specs.Tags.{first_function, tag_count};
ghost use Rattle.protocol.specs.Figures.{arity_limit};
ghost use Rattle.lists.specs.All.{All};
ghost use Rattle.term.specs.Arity.{tag_arities};
ghost use Rattle.protocol.specs.Protocol.{encode_rule};
ghost use Rattle.protocol.specs.Index.{Entries};
ghost use Rattle.rules.specs.Numbered.{fixed, applies, rule_room, first_apply};
ghost use Rattle.rules.specs.Numbered.Slots.{slot_of};
ghost use Rattle.rules.specs.Numbered.Bytes.{variable_bytes, premise_bytes, premise_room};
ghost use Rattle.rules.specs.Numbered.Writing.{Put};
ghost use Rattle.rules.specs.Numbered.Found.{Applies, place_found, Finds};

use protocol::figures;

// The rules 0 to 4 by what they do; the last learns a fresh name.
const MAKES_FRESH: usize = 0;

const HEARS: usize = 1;

const INJECTS: usize = 2;

const NAMES: usize = 3;

// What each number is: the rules 0 to 4; "Rule t+2 applies the function of tag t": the built-in functions', then the free functions'; "a protocol rule r
// (from 0) is 31+r"; the apply-rules of aenc to true, "95 to 100, in that order, so protocol rules keep their numbers".
const LAST_FIXED: usize = 4;

const TAG_SHIFT: usize = 2;

const FIRST_APPLY: usize = term::FIRST_FUNCTION + TAG_SHIFT;

const LAST_BUILTIN: usize = term::MUL + TAG_SHIFT;

const FIRST_FREE: usize = term::FIRST_FREE + TAG_SHIFT;

const LAST_FREE: usize = FIRST_OWN - 1;

const FIRST_OWN: usize = FIRST_FREE + term::MOST_FUNCTIONS;

const LAST_OWN: usize = FIRST_SIGNING - 1;

const FIRST_SIGNING: usize = FIRST_OWN + figures::MOST_RULES;

const LAST_SIGNING: usize = NUMBERS - 1;

const SIGNING_SHIFT: usize = FIRST_SIGNING - term::FIRST_SIGNING;

pub const NUMBERS: usize = term::TAGS + SIGNING_SHIFT;

// As many as are written out: all but the protocol's own.
pub const WRITTEN: usize = NUMBERS - figures::MOST_RULES;

const MOST_ARITY: u8 = figures::MOST_ARITY as u8;

// The bytes of the longest built-in rule, which applies a function of the most arguments.
pub const RULE_ROOM: usize = 6 + 6 * figures::MOST_ARITY;

// A rule that was found: so many bytes of the lent array; a place in the protocol file.
#[derive(Clone, Copy)]
pub enum FoundRule {
    Written(usize),
    At(usize),
}

// Rules 0 to 4.
fn put_fixed(out: &mut [u8], n: usize) -> usize
    requires { (n < first_apply) × (rule_room ≤ length out.old) }
    ensures { Put out.old 0 out.new result (encode_rule (fixed n)) }
{
    match n {
        MAKES_FRESH => octets::copy_into(out, 0, b"\x01\x01\x00\x00\x01\x00\x00\x00"),
        HEARS => octets::copy_into(out, 0, b"\x01\x00\x01\x02\x00\x00\x00\x01\x03\x00\x00"),
        INJECTS => octets::copy_into(
            out,
            0,
            b"\x01\x00\x01\x03\x00\x00\x01\x03\x00\x00\x01\x01\x00\x00",
        ),
        NAMES => octets::copy_into(out, 0, b"\x01\x02\x00\x00\x01\x03\x00\x00"),
        _ => octets::copy_into(out, 0, b"\x01\x01\x01\x00\x00\x00\x00\x01\x03\x00\x00"),
    }
}

// Writes the variables below k in order, each behind the same bytes, and gives the place behind them.
fn put_variables(out: &mut [u8], at: usize, lead: &[u8], k: u8) -> usize
    requires { at + k * (length lead.now + 1) ≤ length out.old }
    ensures { Put out.old at out.new result (variable_bytes lead.now 0 k) }
{
    let mut end = at;
    for i in 0..k {
        end = octets::copy_into(out, end, lead);
        out[end] = i;
        end += 1;
    }
    end
}

// The sorts of k message variables, and the premises K of each.
fn put_premises(out: &mut [u8], k: u8) -> usize
    requires { premise_room k ≤ length out.old }
    ensures { Put out.old 0 out.new result (premise_bytes k) }
{
    let end = 1 + k as usize;
    out[0] = k;
    octets::clear(&mut out[1..end]);
    out[end] = k;
    put_variables(out, end + 1, b"\x03\x00", k)
}

// The rule that applies the function of tag t, of arity k: K of k message variables, no action, K of the function applied to them.
fn put_apply(out: &mut [u8], t: u8, k: u8) -> usize
    requires { (t < base) × (k < base) × (length (encode_rule (applies t k)) ≤ length out.old) }
    ensures { Put out.old 0 out.new result (encode_rule (applies t k)) }
{
    let conclusions = put_premises(out, k);
    let tag = octets::copy_into(out, conclusions, b"\x00\x01\x03");
    out[tag] = t;
    put_variables(out, tag + 1, b"\x00", k)
}

// The rule that applies the function of a tag, if there is one. No arity is above the most, so a slot above it is an undeclared tag's.
fn apply_rule(arities: &[u8], t: usize, out: &mut [u8]) -> Option<FoundRule>
    requires { (first_function ≤ t) × (t < tag_count) × (length arities.now ≡ tag_count) × (rule_room ≤ length out.old) }
    ensures { (fs : List ℕ) → All (λ (a : ℕ). a < arity_limit) fs → arities.now ≡ tag_arities fs → Applies (tag_arities fs) t result out.new }
{
    let k = arities[t];
    if MOST_ARITY < k {
        return None;
    }
    Some(FoundRule::Written(put_apply(out, t as u8, k)))
}

// The place of a protocol rule.
fn own_rule(places: &[usize], k: usize) -> Option<FoundRule>
    ensures { result ≡ place_found places.now (length places.now) k }
{
    if k < places.len() {
        Some(FoundRule::At(places[k]))
    } else {
        None
    }
}

// The slot of a rule that is written out: they stand in the order of their numbers.
pub fn slot_of(n: usize) -> usize
    requires { slot_of n < slot_of (n + 1) }
    ensures { result ≡ slot_of n }
{
    if n < FIRST_OWN {
        return n;
    }
    FIRST_OWN + (n - FIRST_SIGNING)
}

// The rule of a number: its bytes are written to the lent array, or stand at a place of the protocol file.
pub fn find_rule(
    arities: &[u8],
    places: &[usize],
    number: usize,
    out: &mut [u8],
) -> Option<FoundRule>
    requires { (length arities.now ≡ tag_count) × (rule_room ≤ length out.old) }
    ensures { (file : List ℕ) (ns : ℕ) (ars flags : List ℕ) (i : Entries file ns (length places.now) arities.now ars flags places.now) → Finds i.is file arities.now (take ns ars) number result out.new }
{
    match number {
        0..=LAST_FIXED => Some(FoundRule::Written(put_fixed(out, number))),
        FIRST_APPLY..=LAST_BUILTIN => apply_rule(arities, number - TAG_SHIFT, out),
        FIRST_FREE..=LAST_FREE => apply_rule(arities, number - TAG_SHIFT, out),
        FIRST_OWN..=LAST_OWN => own_rule(places, number - FIRST_OWN),
        FIRST_SIGNING..=LAST_SIGNING => apply_rule(arities, number - SIGNING_SHIFT, out),
        _ => None,
    }
}
