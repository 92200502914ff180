// The facts of all nodes of a step list, node by node, premises, actions, conclusions, and the arguments of these facts.
ghost use Rattle.std.specs.Prelude.{◌≤◌};
ghost use Rattle.std.specs.List.{All};
ghost use Rattle.arrayvec.specs.ArrayVec.{array_vec_len};
ghost use Rattle.cases_facts.specs.Table.{AreRight, IsFact, IsArgument, most_facts, most_arguments};

use arrayvec::ArrayVec;
use facts::nodes::FactId;
use facts::{counts, symbols};

// The most facts, and the most arguments.
const MOST_FACTS: usize = 64;

const MOST_ARGUMENTS: usize = 256;

// The lists of facts of a node: premises, actions, conclusions.
const LISTS: usize = protocol::figures::LISTS;

// The n nodes of a step list, their rows, and the prepared protocol that they are read under. That they are right stays a clause of each
// function: the clause gives the trees that the calls of crate facts ask for, and a ghost field cannot.
#[derive(Clone, Copy)]
pub struct NodeTable<'a> {
    pub p: &'a [u8],
    pub list: &'a [u8],
    pub rows: &'a [usize],
    pub n: usize,
}

// An argument of a fact, by its number from 0.
#[derive(Clone, Copy, Default)]
pub struct Argument {
    pub place: FactId,
    pub number: usize,
}

// The first facts of the nodes. The arguments below walk on into the facts, so that they have a function of their own.
pub fn facts_of(t: NodeTable<'_>) -> ArrayVec<FactId, MOST_FACTS>
    requires { AreRight t }
    ensures facts { All (IsFact t.entry) result.items }
    ensures few { array_vec_len result ≤ most_facts }
{
    let mut facts = ArrayVec::new();
    for node in 0..t.n {
        for list in 0..LISTS {
            for number in 0..counts::fact_count(t.p, t.rows, node, list) {
                if facts.is_full() {
                    return facts;
                }
                facts.push(FactId { node, list, number });
            }
        }
    }
    facts
}

// The first arguments of these facts.
pub fn arguments_of(t: NodeTable<'_>, facts: &[FactId]) -> ArrayVec<Argument, MOST_ARGUMENTS>
    requires { AreRight t × All (IsFact t) facts.now }
    ensures arguments { All (IsArgument t.entry) result.items }
    ensures few { array_vec_len result ≤ most_arguments }
{
    let mut arguments = ArrayVec::new();
    for x in facts {
        for number in 0..symbols::argument_count(t.p, t.rows, *x) {
            if arguments.is_full() {
                return arguments;
            }
            arguments.push(Argument { place: *x, number });
        }
    }
    arguments
}
