// The places of the lists of each rule and of their facts, in a table behind the prepared protocol.
ghost use Rattle.std.specs.Prelude.{◌≡◌, ◌+◌, ◌*◌, ◌≤◌, ◌<◌, length};
ghost use Rattle.protocol.specs.Figures.{list_count, most_facts};
ghost use Rattle.lists.specs.Asks.{Asks};
ghost use Rattle.protocol.specs.Protocol.{protocol};
ghost use Rattle.protocol.specs.Places.{place_of, At};
ghost use Rattle.rules.specs.Fit.{judged};
ghost use Rattle.rules.specs.Fit.Laws.{verdict_of};
ghost use Rattle.prepared.specs.Sections.{rule_count, entry_count, place_count, file_limit, prepared_length, place_limit};
ghost use Rattle.prepared.specs.Prepared.{Body, body_of, entry_at, list_entry, fact_entry, prepared_facts, fact_place_in};
ghost use Rattle.prepared.specs.Lists.{FirstFacts, ListsOf, entered, FactsEntered, ListEntered, NumberEntered, Tabled, WherePrepared};

use crate::{filling, finding, pairs, sections};
use protocol::figures;
use protocol::index::Counts;
use rules::fit::Unfit;

// Entry k of the table.
fn put_entry(p: &mut [u8], k: usize, place: usize)
    requires { (k < place_count) × (length p.old ≡ prepared_length) × (place < place_limit) }
    ensures { p.new ≡ entered p.old k place }
{
    pairs::write(p, sections::BODY + sections::PLACE_BYTES * k, place);
}

// The places of the first facts of the list at a place, so many, in the entries from a row on; the place behind these facts.
fn enter_facts(p: &mut [u8], list: usize, count: usize, row: usize) -> usize
    requires { (row + count ≤ place_count) × (length p.old ≡ prepared_length) × Asks (FirstFacts (body_of p.old) list count) }
    ensures behind { result ≡ fact_place_in (body_of p.old) list count }
    ensures done { FactsEntered list p.old p.new row count }
{
    let mut at = finding::first_fact(&p[..sections::BODY], list);
    for i in 0..count {
        put_entry(p, row + i, at);
        at = finding::fact_end(&p[..sections::BODY], at);
    }
    at
}

// The list at a place has entry k; its facts have their row. The place behind the list.
fn enter_list(p: &mut [u8], list: usize, k: usize) -> usize
    requires { (k < entry_count) × (length p.old ≡ prepared_length) × Asks (At (prepared_facts (body_of p.old)) list) }
    ensures behind { result ≡ place_of (prepared_facts (body_of p.old) list) }
    ensures done { ListEntered list p.old p.new k }
{
    let count = protocol::places::count_of(&p[..sections::BODY], list);
    put_entry(p, k, list);
    enter_facts(
        p,
        list,
        count,
        sections::LIST_COUNT + figures::MOST_FACTS * k,
    )
}

// The same for a list behind which nothing is looked for: its last fact is not walked.
fn enter_last(p: &mut [u8], list: usize, k: usize)
    requires { (k < entry_count) × (length p.old ≡ prepared_length) × Asks (At (prepared_facts (body_of p.old)) list) }
    ensures { ListEntered list p.old p.new k }
{
    let count = protocol::places::count_of(&p[..sections::BODY], list);
    put_entry(p, k, list);
    if count == 0 {
        return;
    }
    let row = sections::LIST_COUNT + figures::MOST_FACTS * k;
    let rest = count - 1;
    let last = enter_facts(p, list, rest, row);
    put_entry(p, row + rest, last);
}

// The lists of the rule at a place, each found behind the one before.
fn enter_lists(p: &mut [u8], place: usize, n: usize)
    requires { (n < rule_count) × (length p.old ≡ prepared_length) × ListsOf (body_of p.old) n place }
    ensures { NumberEntered p.old p.new n }
{
    let first = figures::LISTS * n;
    let premises = finding::list_at(&p[..sections::BODY], place, figures::PREMISES);
    let actions = enter_list(p, premises, first);
    let conclusions = enter_list(p, actions, first + figures::ACTIONS);
    enter_last(p, conclusions, first + figures::CONCLUSIONS);
}

// The lists of the rule of a number, if it has one.
fn enter_number(p: &mut [u8], n: usize)
    requires { (n < rule_count) × (length p.old ≡ prepared_length) × Asks (Body (body_of p.old)) }
    ensures { NumberEntered p.old p.new n }
{
    if let Some(place) = finding::rule_place(&p[..sections::BODY], n) {
        enter_lists(p, place, n);
    }
}

// The lists of all rules.
fn enter_table(p: &mut [u8])
    requires { Asks (Body (body_of p.old)) × (length p.old ≡ prepared_length) }
    ensures { Tabled p.old p.new }
{
    for n in 0..sections::RULE_COUNT {
        enter_number(p, n);
    }
}

// Judges a protocol file, and prepares it with that table where it is fit.
pub fn prepare(file: &[u8], p: &mut [u8]) -> Result<Counts, Unfit>
    requires { (length file.now ≤ file_limit) × (length p.old ≡ prepared_length) }
    ensures told { verdict_of result ≡ judged (protocol file.now) }
    ensures made { WherePrepared file.now result p.new }
{
    let counts = filling::prepare_body(file, &mut p[..sections::BODY])?;
    enter_table(p);
    Ok(counts)
}

// Entry k of the table.
fn entry_of(p: &[u8], k: usize) -> usize
    requires { (k < place_count) × (length p.now ≡ prepared_length) }
    ensures { result ≡ entry_at p.now k }
{
    pairs::read(p, sections::BODY + sections::PLACE_BYTES * k)
}

// The place of a list that the table has.
pub fn list_place(p: &[u8], n: usize, list: usize) -> usize
    requires { (n < rule_count) × (list < list_count) × (length p.now ≡ prepared_length) }
    ensures { result ≡ list_entry p.now n list }
{
    entry_of(p, figures::LISTS * n + list)
}

// The place of fact i of a list that the table has.
pub fn fact_place(p: &[u8], n: usize, list: usize, i: usize) -> usize
    requires { (n < rule_count) × (list < list_count) × (i < most_facts) × (length p.now ≡ prepared_length) }
    ensures { result ≡ fact_entry p.now n list i }
{
    let k = figures::LISTS * n + list;
    entry_of(p, sections::LIST_COUNT + figures::MOST_FACTS * k + i)
}
