// The exported calls.
#![tactic(auto)]

mod checking; // the call check, where the work area is long enough
mod drawing; // the call draw, where the work area is long enough
pub mod line; // the line of a ruling

ghost use Rattle.std.specs.Prelude.{◌≡◌, ◌≤◌, ◌<◌, ℕ, ◌+◌, ◌*◌, ◌^◌, length, List};
ghost use Rattle.term.specs.Term.{Term};
ghost use Rattle.canonical.specs.Contract.{form_room};
ghost use Rattle.lists.specs.Asks.{Asks, Asks₂, Promises, Promises₂};
ghost use Rattle.octets.specs.Limits.{longest};
ghost use Rattle.checker.specs.Answer.{refusal, written, packed, work_need};
ghost use Rattle.checker.specs.Files.{term_ruling};
ghost use Rattle.checker.specs.Files.Answers.{file_of};
ghost use Rattle.steps.specs.Nodes.{most_nodes};
ghost use Rattle.graph.specs.Graph.{most_edges};
ghost use Rattle.checker.specs.Check.{ruled, packed_ruling, check_outcome, check_work};
ghost use Rattle.checker.specs.Check.Bounds.{OutcomeSmall};
ghost use Rattle.checker.specs.Canonical.{canonical_outcome, canonical_output, canonical_work};
ghost use Rattle.checker.specs.Draw.{draw_outcome, draw_output, draw_work};
ghost use Rattle.checker.specs.Canonical.Contracts.{Form, Formed, Under, Judges, Inside};

use graph::area;
use protocol::figures;
use rewriting::{
    CONDITION_BROKEN, FILE_LONG, LAYOUT, NO_ITEM, OUTPUT_SHORT, PROTOCOL_ITEM, TERM_ITEM,
    TERM_LONG, WORK_SHORT,
};
use rules::fit::Unfit;

// "Protocol (4,096 bytes)", "Property (1,024 bytes)", "Graph (61,440 bytes)", "the term file grows to 1,280 bytes", and the work area that no call needs more of.
pub const PROTOCOL_LIMIT: usize = 4096;

pub const PROPERTY_LIMIT: usize = 1024;

pub const GRAPH_LIMIT: usize = 61440;

const TERM_LIMIT: usize = 1280;

pub const WORK_NEED: usize = 65536;

// A packed answer: from bit 56 on what it is, 3 for written; from bit 32 on a refusal's number.
const WRITTEN: u64 = 3 << 56;

const NUMBER: u64 = 1 << 32;

// 1 for an attack, 2 for a run; from bit 32 on the nodes, from bit 16 on those with an action, then the edges.
const ATTACK: u64 = 1 << 56;

const RUN: u64 = 2 << 56;

const NODES: u64 = 1 << 32;

const ACTIVE: u64 = 1 << 16;

// Document 01's refusal: its number and its item.
#[derive(Clone, Copy)]
pub struct Refusal {
    pub number: u32,
    pub item: u32,
}

// The line's counts: nodes, nodes with an action, edges.
#[derive(Clone, Copy)]
pub struct Counts {
    pub nodes: usize,
    pub active: usize,
    pub edges: usize,
}

// What checking answers of a graph that is not refused: the property is false of its trace, or true of it.
#[derive(Clone, Copy)]
pub enum Ruling {
    Attack(Counts),
    Run(Counts),
}

// A refusal by the numbers of the refusal table. No From: it could not ask that they fit.
fn refuse(number: usize, item: usize) -> Refusal
    requires { (number < 2 ^ 32) × (item < 2 ^ 32) }
    ensures { result ≡ refusal number item }
{
    Refusal {
        number: number as u32,
        item: item as u32,
    }
}

// Whether a term file is a term that is small enough: it is refused if it is no term without variables, or one that is too large.
fn term_file(term: &[u8], arities: &[u8]) -> Result<(), Refusal>
    requires { length term.now ≤ longest }
    ensures { result ≡ file_of (term_ruling arities.now term.now) }
{
    match term::walk_term(term, arities, 0, term::VARIABLES) {
        Some(w) => {
            if w.end != term.len() || w.hit {
                return Err(refuse(LAYOUT, TERM_ITEM));
            }
            if term::MOST_SYMBOLS < w.size {
                return Err(refuse(TERM_LONG, NO_ITEM));
            }
            Ok(())
        }
        None => Err(refuse(LAYOUT, TERM_ITEM)),
    }
}

// Writes the canonical form of the term file's term to the start of the output; it is made in the work area.
fn write_form(
    term: &[u8],
    arities: &[u8],
    output: &mut [u8],
    work: &mut [u8],
) -> Result<u32, Refusal>
    requires { (length work.old ≡ form_room) × Asks₂ (Form arities.now term.now) }
    ensures { Promises₂ (Form arities.now term.now) (λ (free : List ℕ) (t : Term). Formed t output.old output.new result) }
{
    let n = canonical::canonical_term(work, term, 0, arities);
    if output.len() < n {
        return Err(refuse(OUTPUT_SHORT, n));
    }
    octets::copy_into(output, 0, &work[..n]);
    Ok(n as u32)
}

// The term file under the table of a fit protocol: refused, or its canonical form is written.
fn under_protocol(
    term: &[u8],
    arities: &[u8],
    output: &mut [u8],
    work: &mut [u8],
) -> Result<u32, Refusal>
    requires { (length work.old ≡ form_room) × Asks (Under arities.now term.now) }
    ensures { Promises (Under arities.now term.now) (λ (free : List ℕ). Judges (term_ruling arities.now term.now) output.old output.new result) }
{
    term_file(term, arities)?;
    write_form(term, arities, output, work)
}

// The files, where the work area is long enough: a part of it is lent.
fn canonical_inside(
    protocol: &[u8],
    term: &[u8],
    output: &mut [u8],
    work: &mut [u8],
) -> Result<u32, Refusal>
    requires { length work.old ≡ form_room }
    ensures { Promises (λ (work : ℕ). work_need ≤ work) (Inside protocol.now term.now output.old output.new result) }
{
    if PROTOCOL_LIMIT < protocol.len() {
        return Err(refuse(FILE_LONG, PROTOCOL_ITEM));
    }
    if TERM_LIMIT < term.len() {
        return Err(refuse(FILE_LONG, TERM_ITEM));
    }
    let mut arities = [0u8; term::TAGS];
    let mut symbols = [0u8; figures::SYMBOLS];
    let mut flags = [0u8; figures::SYMBOLS];
    let mut places = [0usize; figures::MOST_RULES];
    match rules::fit::judge(
        protocol,
        &mut arities,
        &mut symbols,
        &mut flags,
        &mut places,
    ) {
        Ok(_) => under_protocol(term, &arities, output, work),
        Err(Unfit::Broken(k)) => Err(refuse(CONDITION_BROKEN, k)),
        Err(Unfit::Fault) => Err(refuse(LAYOUT, PROTOCOL_ITEM)),
    }
}

// Writes the canonical form of the term file's term, read under the protocol, to the start of the output.
pub fn canonical_form(
    protocol: &[u8],
    term: &[u8],
    output: &mut [u8],
    work: &mut [u8],
) -> Result<u32, Refusal>
    ensures answer { written result ≡ canonical_outcome protocol.now term.now (length output.old) (length work.old) }
    ensures wrote { output.new ≡ canonical_output protocol.now term.now output.old (length work.old) }
    ensures cleared { work.new ≡ canonical_work protocol.now term.now (length output.old) work.old }
{
    if work.len() < WORK_NEED {
        return Err(refuse(WORK_SHORT, NO_ITEM));
    }
    let r = canonical_inside(
        protocol,
        term,
        output,
        &mut work[area::FACTS..area::FACTS + canonical::FORM_ROOM],
    );
    octets::clear(work);
    r
}

// A refusal as one number.
fn pack_refusal(r: Refusal) -> u64
    ensures { result ≡ r.number * 2 ^ 32 + r.item }
{
    u64::from(r.number) * NUMBER + u64::from(r.item)
}

// The answer as one number.
fn pack(answer: Result<u32, Refusal>) -> u64
    ensures { result ≡ packed (written answer) }
{
    match answer {
        Ok(n) => WRITTEN + u64::from(n),
        Err(r) => pack_refusal(r),
    }
}

pub fn levtosziv_canonical(protocol: &[u8], term: &[u8], output: &mut [u8], work: &mut [u8]) -> u64
    ensures answer { result ≡ packed (canonical_outcome protocol.now term.now (length output.old) (length work.old)) }
    ensures wrote { output.new ≡ canonical_output protocol.now term.now output.old (length work.old) }
    ensures cleared { work.new ≡ canonical_work protocol.now term.now (length output.old) work.old }
{
    pack(canonical_form(protocol, term, output, work))
}

// Draws the graph of the steps, read under the protocol, to the start of the output. Its edges come from the earliest sources
// (specs/Demands/Earliest.antt), so that the same steps give the same bytes.
pub fn draw(
    protocol: &[u8],
    steps: &[u8],
    output: &mut [u8],
    work: &mut [u8],
) -> Result<u32, Refusal>
    ensures answer { written result ≡ draw_outcome protocol.now steps.now (length output.old) (length work.old) }
    ensures wrote { output.new ≡ draw_output protocol.now steps.now output.old (length work.old) }
    ensures cleared { work.new ≡ draw_work protocol.now steps.now (length output.old) work.old }
{
    if work.len() < WORK_NEED {
        return Err(refuse(WORK_SHORT, NO_ITEM));
    }
    let r = drawing::draw_files(
        protocol,
        steps,
        output,
        &mut work[area::FACTS..area::FACTS_END],
    );
    octets::clear(work);
    r
}

pub fn levtosziv_draw(protocol: &[u8], steps: &[u8], output: &mut [u8], work: &mut [u8]) -> u64
    ensures answer { result ≡ packed (draw_outcome protocol.now steps.now (length output.old) (length work.old)) }
    ensures wrote { output.new ≡ draw_output protocol.now steps.now output.old (length work.old) }
    ensures cleared { work.new ≡ draw_work protocol.now steps.now (length output.old) work.old }
{
    pack(draw(protocol, steps, output, work))
}

// Rules on a graph: refused, or the property is judged of its trace.
pub fn check(
    protocol: &[u8],
    property: &[u8],
    graph: &[u8],
    work: &mut [u8],
) -> Result<Ruling, Refusal>
    ensures answer { ruled result ≡ check_outcome protocol.now property.now graph.now (length work.old) }
    ensures cleared { work.new ≡ check_work protocol.now property.now graph.now work.old }
{
    if work.len() < WORK_NEED {
        return Err(refuse(WORK_SHORT, NO_ITEM));
    }
    let r = checking::check_files(protocol, property, graph, work);
    octets::clear(work);
    r
}

fn pack_counts(kind: u64, counts: Counts) -> u64
    requires { (kind ≤ 2 * 2 ^ 56) × (counts.nodes ≤ most_nodes) × (counts.active ≤ most_nodes) × (counts.edges ≤ most_edges) }
    ensures { result ≡ kind + counts.nodes * 2 ^ 32 + counts.active * 2 ^ 16 + counts.edges }
{
    kind + counts.nodes as u64 * NODES + counts.active as u64 * ACTIVE + counts.edges as u64
}

// The ruling as one number.
fn pack_ruling(ruling: Result<Ruling, Refusal>) -> u64
    requires { OutcomeSmall (ruled ruling) }
    ensures { result ≡ packed_ruling (ruled ruling) }
{
    match ruling {
        Ok(Ruling::Attack(counts)) => pack_counts(ATTACK, counts),
        Ok(Ruling::Run(counts)) => pack_counts(RUN, counts),
        Err(r) => pack_refusal(r),
    }
}

pub fn levtosziv_check(protocol: &[u8], property: &[u8], graph: &[u8], work: &mut [u8]) -> u64
    ensures answer { result ≡ packed_ruling (check_outcome protocol.now property.now graph.now (length work.old)) }
    ensures cleared { work.new ≡ check_work protocol.now property.now graph.now work.old }
{
    pack_ruling(check(protocol, property, graph, work))
}
