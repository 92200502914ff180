// The first number of each argument: a public name's, or a mark of its canonical form.
ghost use Rattle.std.specs.Prelude.{◌≡◌, List, ◌+◌, ◌*◌, ◌≤◌, ◌<◌, length};
ghost use Rattle.lists.specs.Asks.{Asks, Promises, Asks₂, Promises₂};
ghost use Rattle.term.specs.Term.{Term};
ghost use Rattle.message.specs.Canon.{canon};
ghost use Rattle.protocol.specs.Protocol.{Protocol};
ghost use Rattle.steps.specs.Nodes.{Node};
ghost use Rattle.facts.specs.Calls.{Room, AtPlace, OneOf, fact_at, argument_at};
ghost use Rattle.trace.specs.Tables.{stride, most_actions};
ghost use Rattle.trace.specs.Entries.{ListedAll};
ghost use Rattle.trace.specs.Numbers.{FormIn, form_number, argument_number, Counted, ActionOf, NumberedTo};

use crate::entries;
use facts::marks;
use facts::nodes::{FactId, PlacedFact};
use facts::writing::Wanted;
use prepared::{finding, sections};
use steps::values::Name;

// Above all marks and all places: the number of public name 0.
pub const BASE: u32 = 65536;

// Argument j of entry e has the place STRIDE * e + j.
pub const STRIDE: usize = protocol::figures::MOST_FACT_ARITY;

pub const PLACES: usize = STRIDE * entries::MOST_ACTIONS;

pub const FEW_PLACES: usize = STRIDE * entries::FEW_ACTIONS;

// The mark of a form is that of its bytes alone.
const NO_MARK: u32 = 0;

// The number of a canonical form.
fn form_number(form: &[u8], p: &[u8]) -> u32
    requires { Asks (FormIn form.now p.now) }
    ensures { Promises (FormIn form.now p.now) (λ (t : Term). result ≡ form_number t) }
{
    match steps::values::name_at(form, &p[..sections::ARITIES], 0) {
        Some(Name::PublicName(name)) => BASE + name.0,
        Some(Name::FreshName(_name)) => marks::mark_bytes(form, NO_MARK),
        None => marks::mark_bytes(form, NO_MARK),
    }
}

// The number of argument j of a node's fact at its place.
fn argument_number(
    work: &mut [u8],
    p: &[u8],
    s: &[u8],
    nodes: &[usize],
    x: PlacedFact,
    j: usize,
) -> u32
    requires { AtPlace p.now nodes.now x × Asks₂ (OneOf p.now s.now nodes.now x.id j) × Room work.old 0 }
    ensures { Promises₂ (OneOf p.now s.now nodes.now x.id j) (λ (P : Protocol) (m : Node). result ≡ form_number (canon (argument_at P x.id.list x.id.number j m))) }
{
    let a = facts::nodes::write_fact(work, 0, p, s, nodes, x, Wanted::One(j));
    form_number(&work[..a.end], p)
}

// The number of place j of a fact that has so many arguments.
fn place_number(
    work: &mut [u8],
    p: &[u8],
    s: &[u8],
    nodes: &[usize],
    x: PlacedFact,
    count: usize,
    j: usize,
) -> u32
    requires { AtPlace p.now nodes.now x × Asks₂ (Counted p.now s.now nodes.now x.id count) × Room work.old 0 }
    ensures { Promises₂ (Counted p.now s.now nodes.now x.id count) (λ (P : Protocol) (m : Node). result ≡ argument_number (fact_at P x.id.list x.id.number m) j) }
{
    if j < count {
        return argument_number(work, p, s, nodes, x, j);
    }
    BASE
}

// The places of the action of entry e, whose place in its rule is found once.
fn number_action(
    work: &mut [u8],
    p: &[u8],
    s: &[u8],
    nodes: &[usize],
    x: FactId,
    e: usize,
    classes: &mut [u32],
)
    requires { Asks₂ (ActionOf p.now s.now nodes.now x e) × Room work.old 0 × (e < most_actions) × (stride * (e + 1) ≤ length classes.old) }
    ensures { Promises₂ (ActionOf p.now s.now nodes.now x e) (λ (P : Protocol) (xs : List Node). NumberedTo classes.old (stride * e) P xs → NumberedTo classes.new (stride * (e + 1)) P xs) }
{
    let place = facts::nodes::fact_place(p, nodes, x);
    let f = PlacedFact { id: x, place };
    let y = finding::symbol_of(p, place);
    let count = finding::arity_of(p, y);
    for j in 0..STRIDE {
        classes[STRIDE * e + j] = place_number(work, p, s, nodes, f, count, j);
    }
}

// The places of all actions.
pub fn number_actions(
    work: &mut [u8],
    p: &[u8],
    s: &[u8],
    nodes: &[usize],
    entries: &[u32],
    classes: &mut [u32],
)
    requires { Asks₂ (ListedAll p.now s.now nodes.now entries.now (length entries.now)) × Room work.old 0 × (stride * length entries.now ≤ length classes.old) }
    ensures { Promises₂ (ListedAll p.now s.now nodes.now entries.now (length entries.now)) (λ (P : Protocol) (xs : List Node). NumberedTo classes.new (stride * length entries.now) P xs) }
{
    for (e, code) in entries.iter().enumerate() {
        let x = entries::action_of(*code);
        number_action(work, p, s, nodes, x, e, classes);
    }
}
