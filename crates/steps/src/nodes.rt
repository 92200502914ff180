// The nodes of a step list or graph, read front to back for 3 and 6 into their table.
ghost use Rattle.std.specs.Prelude.{◌≡◌, true, ◌≤◌, ◌<◌, ◌+◌, length};
ghost use Rattle.octets.specs.Limits.{longest};
ghost use Rattle.lists.specs.Asks.{Asks, Promises};
ghost use Rattle.protocol.specs.Figures.{most_variables};
ghost use Rattle.protocol.specs.Protocol.{Protocol};
ghost use Rattle.prepared.specs.Prepared.{Prepared};
ghost use Rattle.steps.specs.Nodes.{nodes_from, node_list, steps, most_nodes};
ghost use Rattle.steps.specs.Nodes.Code.{Told};
ghost use Rattle.steps.specs.Nodes.Filling.{ValuesRead, NodeEntered, NodeRead};
ghost use Rattle.steps.specs.Table.{place_count, RowsFor, RowsOf, FewNodes};

use prepared::{finding, sections};
use protocol::figures;

// "count of nodes (512)"
pub const MOST_NODES: usize = 512;

const NODE_LIMIT: usize = MOST_NODES + 1;

// The table is flat, numbers by their places: so `Row` and `NodesIn` (specs/Table.antt), under the theorems of the crates above, read it, and
// one buffer of a caller serves both sizes.
// The row of a node in the table: its rule number, the places of its values and the place behind them, the symbols of each value, and 1
// where a value holds a variable.
pub const PLACES: usize = figures::MOST_VARIABLES + 1;

pub const FIRST_PLACE: usize = 1;

pub const FIRST_SIZE: usize = FIRST_PLACE + PLACES;

pub const HELD: usize = FIRST_SIZE + figures::MOST_VARIABLES;

pub const ROW: usize = HELD + 1;

pub const TABLE: usize = ROW * MOST_NODES;

// Most lists have few nodes, and a table with rows for no more is soon made.
pub const FEW_NODES: usize = 32;

pub const FEW_ROWS: usize = ROW * FEW_NODES;

// Why a node is not read: a layout fault, or no such rule.
#[derive(Clone, Copy)]
pub enum NodeFault {
    Broken,
    NoRule,
}

// Why a list of nodes is not: a layout fault, or the node, from 1, that has no such rule.
#[derive(Clone, Copy)]
pub enum NodesFault {
    Broken,
    NoRule(usize),
}

// The places of k values go into the table from `to` on, with the place behind them; behind all places the symbols of each, and whether
// one holds a variable.
fn place_values(
    s: &[u8],
    arities: &[u8],
    at: usize,
    k: usize,
    nodes: &mut [usize],
    to: usize,
) -> Result<usize, NodeFault>
    requires { (length s.now ≤ longest) × (k ≤ most_variables) × (to + place_count + most_variables < length nodes.old) }
    ensures { ValuesRead s.now arities.now at k nodes.old nodes.new to result }
{
    let mut i = at;
    let mut held = false;
    for v in 0..k {
        let w = term::walk_term(s, arities, i, term::VARIABLES).ok_or(NodeFault::Broken)?;
        nodes[to + v] = i;
        nodes[to + PLACES + v] = w.size;
        held |= w.hit;
        i = w.end;
    }
    nodes[to + k] = i;
    nodes[to + PLACES + figures::MOST_VARIABLES] = usize::from(held);
    Ok(i)
}

// A node whose rule number was read goes into row j.
fn enter_node(
    p: &[u8],
    s: &[u8],
    number: usize,
    at: usize,
    nodes: &mut [usize],
    j: usize,
) -> Result<usize, NodeFault>
    requires { Asks (Prepared p.now) × (length s.now ≤ longest) × (j < most_nodes) × RowsFor nodes.old (j + 1) }
    ensures { Promises (Prepared p.now) (λ (P : Protocol). NodeEntered P p.now s.now number at nodes.old nodes.new j result) }
{
    let place = finding::rule_place(p, number).ok_or(NodeFault::NoRule)?;
    let k = protocol::places::variables_of(p, place);
    let row = ROW * j;
    nodes[row] = number;
    place_values(s, &p[..sections::ARITIES], at, k, nodes, row + FIRST_PLACE)
}

// The node at a place goes into row j: its rule number is judged before its values are read.
fn read_node(
    p: &[u8],
    s: &[u8],
    at: usize,
    nodes: &mut [usize],
    j: usize,
) -> Result<usize, NodeFault>
    requires { Asks (Prepared p.now) × (length s.now ≤ longest) × (j < most_nodes) × RowsFor nodes.old (j + 1) }
    ensures { Promises (Prepared p.now) (λ (P : Protocol). NodeRead P p.now s.now at nodes.old nodes.new j result) }
{
    let (r, e) = number::read_number(s, at).ok_or(NodeFault::Broken)?;
    enter_node(p, s, r as usize, e, nodes, j)
}

// n nodes.
fn nodes_from(
    p: &[u8],
    s: &[u8],
    at: usize,
    n: usize,
    nodes: &mut [usize],
) -> Result<(usize, usize), NodesFault>
    requires { Asks (Prepared p.now) × (length s.now ≤ longest) × (n ≤ most_nodes) × RowsFor nodes.old n }
    ensures { Promises (Prepared p.now) (λ (P : Protocol). Told (nodes_from P s.now 1 n at) p.now s.now nodes.new result) }
{
    let mut i = at;
    for j in 0..n {
        match read_node(p, s, i, nodes, j) {
            Ok(e) => i = e,
            Err(NodeFault::Broken) => return Err(NodesFault::Broken),
            Err(NodeFault::NoRule) => return Err(NodesFault::NoRule(j + 1)),
        }
    }
    Ok((n, i))
}

// The count, 512 at most, and the nodes: how many, and the place behind the list.
pub fn read_nodes(
    p: &[u8],
    s: &[u8],
    at: usize,
    nodes: &mut [usize],
) -> Result<(usize, usize), NodesFault>
    requires { Asks (Prepared p.now) × (length s.now ≤ longest) × RowsOf s.now at nodes.old }
    ensures { Promises (Prepared p.now) (λ (P : Protocol). Told (node_list P s.now at) p.now s.now nodes.new result) }
{
    let (n, e) = number::below(s, at, NODE_LIMIT).ok_or(NodesFault::Broken)?;
    nodes_from(p, s, e, n as usize, nodes)
}

// Whether the list that a file begins with has few nodes by its count.
pub fn few_nodes(s: &[u8]) -> bool
    ensures { result ≡ true → FewNodes s.now }
{
    match number::below(s, 0, NODE_LIMIT) {
        Some((n, _)) => (n as usize) <= FEW_NODES,
        None => true,
    }
}

// A whole step list: leftover bytes are a layout fault.
pub fn read_steps(p: &[u8], s: &[u8], nodes: &mut [usize]) -> Result<(usize, usize), NodesFault>
    requires { Asks (Prepared p.now) × (length s.now ≤ longest) × RowsOf s.now 0 nodes.old }
    ensures { Promises (Prepared p.now) (λ (P : Protocol). Told (steps P s.now) p.now s.now nodes.new result) }
{
    let (n, e) = read_nodes(p, s, 0, nodes)?;
    if e == s.len() {
        Ok((n, e))
    } else {
        Err(NodesFault::Broken)
    }
}
