// A protocol file is judged, and where it is fit, prepared.
ghost use Rattle.std.specs.Prelude.{◌≡◌, map, ◌+◌, ◌≤◌, ◌<◌, length};
ghost use Rattle.octets.specs.Splice.{splice};
ghost use Rattle.term.specs.Arity.{padded};
ghost use Rattle.protocol.specs.Protocol.{protocol};
ghost use Rattle.rules.specs.Fit.{judged};
ghost use Rattle.rules.specs.Fit.Laws.{verdict_of};
ghost use Rattle.protocol.specs.Figures.{symbol_count};
ghost use Rattle.rules.specs.Numbered.{rule_room};
ghost use Rattle.rules.specs.Numbered.Slots.{slot_of};
ghost use Rattle.prepared.specs.Sections.{slot_count, rule_count, file_limit, linears_at, written_at, body_length, place_limit};
ghost use Rattle.prepared.specs.Prepared.{linear, Body};
ghost use Rattle.prepared.specs.Filling.{Source, Laid, placed, Enters, Rows, WhereBody};

use crate::{pairs, sections};
use protocol::figures;
use protocol::index::Counts;
use rules::fit::Unfit;
use rules::numbered::FoundRule;

// Copies a table to a place, and 255 behind it where it is shorter than 36.
fn put_padded(p: &mut [u8], at: usize, table: &[u8])
    requires { (at + symbol_count ≤ length p.old) × (length table.now ≤ symbol_count) }
    ensures { p.new ≡ splice p.old at (padded symbol_count table.now) }
{
    let mut whole = [term::UNDECLARED; figures::SYMBOLS];
    octets::copy_into(&mut whole, 0, table);
    octets::copy_into(p, at, &whole);
}

// 1 for a linear symbol.
fn linear_of(flag: u8) -> u8
    ensures { result ≡ linear flag }
{
    if flag == 0 { 1 } else { 0 }
}

fn linears_into(out: &mut [u8], flags: &[u8])
    requires { length flags.now ≤ length out.old }
    ensures { out.new ≡ splice out.old 0 (map linear flags.now) }
{
    for i in 0..flags.len() {
        out[i] = linear_of(flags[i]);
    }
}

// Which fact symbols are linear.
fn put_linears(p: &mut [u8], flags: &[u8])
    requires { (length p.old ≡ body_length) × (length flags.now ≤ symbol_count) }
    ensures { p.new ≡ splice p.old linears_at (padded symbol_count (map linear flags.now)) }
{
    let mut table = [0u8; figures::SYMBOLS];
    linears_into(&mut table, flags);
    let n = flags.len();
    put_padded(p, sections::LINEARS, &table[..n]);
}

// The place of rule number n; 0 for none, as the table of the definitions has it.
fn put_place(p: &mut [u8], n: usize, place: usize)
    requires { (n < rule_count) × (length p.old ≡ body_length) × (place < place_limit) }
    ensures { p.new ≡ placed p.old n place }
{
    pairs::write(p, sections::PLACES + sections::PLACE_BYTES * n, place);
}

// The bytes of rule number n, which is written out, and its place.
fn put_rule(p: &mut [u8], n: usize, rule: &[u8])
    requires { (n < rule_count) × (slot_of n < slot_of (n + 1)) × (length p.old ≡ body_length) × (length rule.now ≤ rule_room) }
    ensures { p.new ≡ placed (splice p.old (written_at (slot_of n)) rule.now) n (written_at (slot_of n)) }
{
    let at = sections::RULES + rules::numbered::RULE_ROOM * rules::numbered::slot_of(n);
    octets::copy_into(p, at, rule);
    put_place(p, n, at);
}

// A rule number: its rule is written out, or stands in the file, or there is none.
fn enter_rule(p: &mut [u8], n: usize, arities: &[u8], places: &[usize])
    requires { (n < rule_count) × (length p.old ≡ body_length) × (length arities.now ≡ slot_count) × Source arities.now places.now (length places.now) }
    ensures { (f : Source arities.now places.now (length places.now)) → Enters f p.old p.new n }
{
    let mut own = [0u8; rules::numbered::RULE_ROOM];
    match rules::numbered::find_rule(arities, places, n, &mut own) {
        Some(FoundRule::Written(len)) => put_rule(p, n, &own[..len]),
        Some(FoundRule::At(k)) => put_place(p, n, sections::FILE + k),
        None => put_place(p, n, 0),
    }
}

// All rule numbers.
fn enter_rules(p: &mut [u8], arities: &[u8], places: &[usize])
    requires { (length p.old ≡ body_length) × (length arities.now ≡ slot_count) × Source arities.now places.now (length places.now) }
    ensures { (f : Source arities.now places.now (length places.now)) → Rows f p.old p.new rule_count }
{
    for n in 0..sections::RULE_COUNT {
        enter_rule(p, n, arities, places);
    }
}

// All sections, from the tables of a protocol file.
fn lay(p: &mut [u8], file: &[u8], arities: &[u8], ars: &[u8], flags: &[u8], places: &[usize])
    requires { (length p.old ≡ body_length) × Laid file.now arities.now ars.now flags.now places.now (length places.now) }
    ensures { (l : Laid file.now arities.now ars.now flags.now places.now (length places.now)) → Body p.new l.source.entries.is }
{
    octets::copy_into(p, 0, arities);
    put_padded(p, sections::ARITIES, ars);
    put_linears(p, flags);
    enter_rules(p, arities, places);
    octets::copy_into(p, sections::FILE, file);
}

// Judges a protocol file, and prepares it where it is fit, but for the places of its rules' lists.
pub fn prepare_body(file: &[u8], p: &mut [u8]) -> Result<Counts, Unfit>
    requires { (length file.now ≤ file_limit) × (length p.old ≡ body_length) }
    ensures told { verdict_of result ≡ judged (protocol file.now) }
    ensures made { WhereBody file.now result p.new }
{
    let mut arities = [0u8; term::TAGS];
    let mut ars = [0u8; figures::SYMBOLS];
    let mut flags = [0u8; figures::SYMBOLS];
    let mut places = [0usize; figures::MOST_RULES];
    let counts = rules::fit::judge(file, &mut arities, &mut ars, &mut flags, &mut places)?;
    let n = counts.symbols;
    lay(
        p,
        file,
        &arities,
        &ars[..n],
        &flags[..n],
        &places[..counts.rules],
    );
    Ok(counts)
}
