// The values of a node: what fits a variable (7).
ghost use Rattle.std.specs.Prelude.{◌≡◌, List, ℕ, get_or};
ghost use Rattle.term.specs.Term.{Term};
ghost use Rattle.term.specs.Reader.{symbol_at};
ghost use Rattle.protocol.specs.Protocol.{Protocol};
ghost use Rattle.number.specs.Reading.{below};
ghost use Rattle.protocol.specs.Places.{value_of};
ghost use Rattle.prepared.specs.Prepared.{place_at};
ghost use Rattle.lists.specs.Asks.{Asks, Promises, Asks₂, Promises₂};
ghost use Rattle.lists.specs.Lists.{first_bad};
ghost use Rattle.steps.specs.Nodes.{Node};
ghost use Rattle.steps.specs.Table.{row_at, held_at, NodeIn, NodesIn};
ghost use Rattle.steps.specs.Values.Tests.{value_ok, node_values_ok};
ghost use Rattle.protocol.specs.Figures.{message_sort, variable_limit};
ghost use Rattle.steps.specs.Values.Code.{NameIs, of_fresh, of_public, FormRoom, GroundThere};

use crate::nodes;
use prepared::{finding, sections};
use protocol::figures;
use term::{Fresh, Public, Symbol};

// "over 128 symbols"
const MOST_IN_VALUE: usize = 128;

// A fresh name or a public name.
#[derive(Drop)]
pub enum Name {
    FreshName(Fresh),
    PublicName(Public),
}

// The name at a place: "Fresh and public names are two incomparable sets".
pub fn name_at(file: &[u8], arities: &[u8], at: usize) -> Option<Name>
    ensures { NameIs (symbol_at file.now arities.now at) result }
{
    match term::symbol_at(file, arities, at) {
        Some(Symbol::Leaf(term::FRESH, n, _)) => Some(Name::FreshName(Fresh(n))),
        Some(Symbol::Leaf(term::PUBLIC, n, _)) => Some(Name::PublicName(Public(n))),
        _ => None,
    }
}

// "each sort (0 message, 1 fresh, 2 public)": whether a fresh name fits a variable of the sort.
fn fresh_fits(sort: usize, name: Fresh) -> bool
    ensures { result ≡ of_fresh sort name }
{
    (sort == figures::MESSAGE_SORT) | (sort == figures::FRESH_SORT)
}

// Whether a public name does.
fn public_fits(sort: usize, name: Public) -> bool
    ensures { result ≡ of_public sort name }
{
    (sort == figures::MESSAGE_SORT) | (sort == figures::PUBLIC_SORT)
}

// Whether the value without variables at a place has 128 symbols at most and is canonical. It is read as a part of the file, "in prefix order,
// tag first", and its form is made in the output.
fn message_ok(out: &mut [u8], s: &[u8], arities: &[u8], at: usize, size: usize) -> bool
    requires { FormRoom out.old × Asks (GroundThere arities.now s.now at size) }
    ensures { Promises (GroundThere arities.now s.now at size) (λ (t : Term). result ≡ value_ok message_sort t) }
{
    if MOST_IN_VALUE < size {
        return false;
    }
    canonical::is_canonical(out, term::term_part(s, arities, at), arities)
}

// Whether the value fits a variable of the sort. A name has no variable, is one symbol and is canonical.
pub fn value_ok(
    out: &mut [u8],
    s: &[u8],
    arities: &[u8],
    at: usize,
    size: usize,
    sort: usize,
) -> bool
    requires { FormRoom out.old × Asks (GroundThere arities.now s.now at size) }
    ensures { Promises (GroundThere arities.now s.now at size) (λ (t : Term). result ≡ value_ok sort t) }
{
    match name_at(s, arities, at) {
        Some(Name::FreshName(f)) => fresh_fits(sort, f),
        Some(Name::PublicName(f)) => public_fits(sort, f),
        None => sort == figures::MESSAGE_SORT && message_ok(out, s, arities, at, size),
    }
}

// Whether the values of node j, which hold no variable, fit the k variables of its rule, which stands at a place.
fn values_fit(
    out: &mut [u8],
    p: &[u8],
    s: &[u8],
    nodes: &[usize],
    j: usize,
    place: usize,
    k: usize,
) -> bool
    requires { FormRoom out.old × Asks₂ (NodeIn p.now s.now nodes.now j) × (place ≡ place_at p.now (get_or nodes.now (row_at j) 0)) × (k ≡ value_of (below p.now variable_limit place)) × (get_or nodes.now (held_at j) 0 ≡ 0) }
    ensures { Promises₂ (NodeIn p.now s.now nodes.now j) (λ (P : Protocol) (x : Node). result ≡ node_values_ok P x) }
{
    let first = nodes::ROW * j + nodes::FIRST_PLACE;
    let sizes = nodes::ROW * j + nodes::FIRST_SIZE;
    for v in 0..k {
        let sort = protocol::places::sort_of(p, place, v as u32);
        let at = nodes[first + v];
        if !value_ok(out, s, &p[..sections::ARITIES], at, nodes[sizes + v], sort) {
            return false;
        }
    }
    true
}

// Whether the values of node j fit.
fn node_values(out: &mut [u8], p: &[u8], s: &[u8], nodes: &[usize], j: usize) -> bool
    requires { FormRoom out.old × Asks₂ (NodeIn p.now s.now nodes.now j) }
    ensures { Promises₂ (NodeIn p.now s.now nodes.now j) (λ (P : Protocol) (x : Node). result ≡ node_values_ok P x) }
{
    let row = nodes::ROW * j;
    if nodes[row + nodes::HELD] != 0 {
        return false;
    }
    let place = finding::place_of(p, nodes[row]);
    let k = protocol::places::variables_of(p, place);
    values_fit(out, p, s, nodes, j, place, k)
}

// 7: the least node, from 1, that has a value that does not fit.
pub fn value_pass(p: &[u8], s: &[u8], nodes: &[usize], n: usize) -> Option<usize>
    requires { Asks₂ (NodesIn p.now s.now nodes.now n) }
    ensures { Promises₂ (NodesIn p.now s.now nodes.now n) (λ (P : Protocol) (xs : List Node). result ≡ first_bad (λ (k : ℕ) (x : Node). node_values_ok P x) 1 xs) }
{
    let mut out = [0u8; canonical::FORM_ROOM];
    for j in 0..n {
        if !node_values(&mut out, p, s, nodes, j) {
            return Some(j + 1);
        }
    }
    None
}
