// When two facts of nodes are the same, or two arguments of them, or an argument and a public name.
ghost use Rattle.std.specs.Prelude.{◌≡◌, ◌≤◌, ◌-◌, length, take, drop};
ghost use Rattle.lists.specs.Asks.{Asks₂, Promises₂, Asks₃, Promises₃};
ghost use Rattle.octets.specs.Compare.{compare_bytes, is_equal};
ghost use Rattle.term.specs.Term.{encode, leaf, public};
ghost use Rattle.protocol.specs.Protocol.{Protocol};
ghost use Rattle.steps.specs.Nodes.{Node};
ghost use Rattle.facts.specs.Writing.{fact_room, Put};
ghost use Rattle.facts.specs.Calls.{Room, FactsIn, AtPlace, WholeFact, OneOf, fact_at, argument_at, Compared, TellsFacts, TellsTerms};
ghost use Rattle.facts.specs.Kept.{SameAs};

use crate::marks::KeptFact;
use crate::nodes;
use crate::nodes::{FactId, PlacedFact};
use crate::writing::Wanted;
use term::Public;

// The tag of a public name.
const PUBLIC: u32 = term::PUBLIC as u32;

// Whether the symbols of two facts are equal, and whether the bytes that are wanted are.
#[derive(Clone, Copy)]
pub struct Both {
    pub symbols: bool,
    pub bytes: bool,
}

// Whether the first m bytes are those from m on up to n.
fn same_parts(file: &[u8], m: usize, n: usize) -> bool
    requires { (m ≤ n) × (n ≤ length file.now) }
    ensures { result ≡ is_equal (compare_bytes (take m file.now) (take (n - m) (drop m file.now))) }
{
    octets::same_bytes(&file[..m], &file[m..n])
}

// Two facts of nodes at their places, written one behind the other.
fn compare(
    out: &mut [u8],
    p: &[u8],
    s: &[u8],
    nodes: &[usize],
    x: PlacedFact,
    wx: Wanted,
    y: PlacedFact,
    wy: Wanted,
) -> Both
    requires { AtPlace p.now nodes.now x × AtPlace p.now nodes.now y × Asks₃ (FactsIn p.now s.now nodes.now x.id wx y.id wy) × Room out.old fact_room }
    ensures { Promises₃ (FactsIn p.now s.now nodes.now x.id wx y.id wy) (λ (P : Protocol) (m n : Node). Compared wx (fact_at P x.id.list x.id.number m) wy (fact_at P y.id.list y.id.number n) result) }
{
    let a = nodes::write_fact(out, 0, p, s, nodes, x, wx);
    let b = nodes::write_fact(out, a.end, p, s, nodes, y, wy);
    Both {
        symbols: a.symbol == b.symbol,
        bytes: same_parts(out, a.end, b.end),
    }
}

// Whether two facts of nodes are the same. Facts that are equal as they stand are, so canonical forms are made of others only. The bytes go
// into the output.
pub fn same_fact(out: &mut [u8], p: &[u8], s: &[u8], nodes: &[usize], x: FactId, y: FactId) -> bool
    requires { Asks₃ (FactsIn p.now s.now nodes.now x Wanted.All y Wanted.All) × Room out.old fact_room }
    ensures { Promises₃ (FactsIn p.now s.now nodes.now x Wanted.All y Wanted.All) (λ (P : Protocol) (m n : Node). TellsFacts P (fact_at P x.list x.number m) (fact_at P y.list y.number n) result) }
{
    // Each is placed here: of a fact that a function placed, each clause at its id would need `result.id ≡ x` first.
    let i = nodes::fact_place(p, nodes, x);
    let j = nodes::fact_place(p, nodes, y);
    let f = PlacedFact { id: x, place: i };
    let g = PlacedFact { id: y, place: j };
    let a = compare(out, p, s, nodes, f, Wanted::Plain, g, Wanted::Plain);
    if a.symbols & a.bytes {
        return true;
    }
    let b = compare(out, p, s, nodes, f, Wanted::All, g, Wanted::All);
    b.symbols & b.bytes
}

// Whether a fact that is kept and another are the same. The other's canonical bytes go behind those of the one that is kept, which stay.
pub fn same_as_kept(
    out: &mut [u8],
    p: &[u8],
    s: &[u8],
    nodes: &[usize],
    kept: KeptFact,
    y: FactId,
) -> bool
    requires { Asks₂ (WholeFact p.now s.now nodes.now y) × Room out.old fact_room × (kept.end ≤ fact_room) }
    ensures same { Promises₂ (WholeFact p.now s.now nodes.now y) (λ (P : Protocol) (n : Node). SameAs out.old kept P (fact_at P y.list y.number n) result) }
    ensures stays { take kept.end out.new ≡ take kept.end out.old }
{
    let b = nodes::node_fact(out, kept.end, p, s, nodes, y, Wanted::All);
    let same = same_parts(out, kept.end, b.end);
    (kept.symbol == b.symbol) & same
}

// Whether argument i of a node's fact and argument j of another are the same.
pub fn same_argument(
    out: &mut [u8],
    p: &[u8],
    s: &[u8],
    nodes: &[usize],
    x: FactId,
    i: usize,
    y: FactId,
    j: usize,
) -> bool
    requires { Asks₃ (FactsIn p.now s.now nodes.now x (Wanted.One i) y (Wanted.One j)) × Room out.old fact_room }
    ensures { Promises₃ (FactsIn p.now s.now nodes.now x (Wanted.One i) y (Wanted.One j)) (λ (P : Protocol) (m n : Node). TellsTerms P (argument_at P x.list x.number i m) (argument_at P y.list y.number j n) result) }
{
    let k = nodes::fact_place(p, nodes, x);
    let l = nodes::fact_place(p, nodes, y);
    let f = PlacedFact { id: x, place: k };
    let g = PlacedFact { id: y, place: l };
    compare(out, p, s, nodes, f, Wanted::One(i), g, Wanted::One(j)).bytes
}

// Writes the bytes of a public name from o on.
fn put_public(out: &mut [u8], o: usize, name: Public) -> usize
    requires { Room out.old o }
    ensures { Put out.old o out.new result (encode (leaf public name.0)) }
{
    let e = number::write_number(out, o, PUBLIC);
    number::write_number(out, e, name.0)
}

// Whether argument i of a node's fact is a public name.
pub fn is_public(
    out: &mut [u8],
    p: &[u8],
    s: &[u8],
    nodes: &[usize],
    x: FactId,
    i: usize,
    name: Public,
) -> bool
    requires { Asks₂ (OneOf p.now s.now nodes.now x i) × Room out.old fact_room }
    ensures { Promises₂ (OneOf p.now s.now nodes.now x i) (λ (P : Protocol) (m : Node). TellsTerms P (argument_at P x.list x.number i m) (leaf public name.0) result) }
{
    let a = nodes::node_fact(out, 0, p, s, nodes, x, Wanted::One(i));
    let e = put_public(out, a.end, name);
    same_parts(out, a.end, e)
}
