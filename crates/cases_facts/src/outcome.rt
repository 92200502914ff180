// What the calls of crate facts say of the facts and the arguments of a table.
ghost use Rattle.std.specs.List.{All};
ghost use Rattle.facts.specs.Writing.{fact_room};
ghost use Rattle.facts.specs.Calls.{Room};
ghost use Rattle.cases_facts.specs.Table.{AreRight, IsFact, IsArgument};

use crate::table::{Argument, NodeTable};
use facts::compare;
use facts::nodes::FactId;
use std::io;
use term::Public;

// The numbers of three public names: the least, and the least that take two and three groups.
const NAMES: [u32; 3] = [0, 128, 16384];

// What may be compared with others of its kind: a fact, an argument of one.
pub trait Compared: Copy {
    ghost use Rattle.cases_facts.specs.declared.table.NodeTable.{NodeTable};

    ghost is_in: { NodeTable → Self → Type 0 };

    fn is_same(self, other: Self, t: NodeTable<'_>, out: &mut [u8]) -> bool
        requires { is_in t self × is_in t other × AreRight t × Room out.old fact_room };
}

impl Compared for FactId {
    ghost is_in = { IsFact };

    fn is_same(self, other: Self, t: NodeTable<'_>, out: &mut [u8]) -> bool {
        compare::same_fact(out, t.p, t.list, t.rows, self, other)
    }
}

impl Compared for Argument {
    ghost is_in = { IsArgument };

    fn is_same(self, other: Self, t: NodeTable<'_>, out: &mut [u8]) -> bool {
        compare::same_argument(
            out,
            t.p,
            t.list,
            t.rows,
            self.place,
            self.number,
            other.place,
            other.number,
        )
    }
}

// A number from 1; 0 for none.
fn show_number(rt: &impl Print, number: Option<usize>) -> io::Result<()> {
    print!(rt; " {}", number.unwrap_or(0))
}

// The number, from 1, of the first that is the same as x.
fn first_same<C: Compared>(t: NodeTable<'_>, all: &[C], x: C, out: &mut [u8]) -> Option<usize>
    requires { AreRight t × All (C.is_in t) all.now × C.is_in t x × Room out.old fact_room }
{
    for (i, y) in all.iter().enumerate() {
        if y.is_same(x, t, out) {
            return Some(i + 1);
        }
    }
    None
}

// Of each.
pub fn show_first_same<C: Compared>(
    rt: &impl Print,
    t: NodeTable<'_>,
    all: &[C],
    out: &mut [u8],
) -> io::Result<()>
    requires { AreRight t × All (C.is_in t) all.now × Room out.old fact_room }
{
    for x in all {
        show_number(rt, first_same(t, all, *x, out))?;
    }
    Ok(())
}

// Which of the public names an argument is, from 1.
fn public_name(t: NodeTable<'_>, a: Argument, out: &mut [u8]) -> Option<usize>
    requires { AreRight t × IsArgument t a × Room out.old fact_room }
{
    for (i, n) in NAMES.iter().enumerate() {
        if compare::is_public(out, t.p, t.list, t.rows, a.place, a.number, Public(*n)) {
            return Some(i + 1);
        }
    }
    None
}

// Of each argument.
pub fn show_names(
    rt: &impl Print,
    t: NodeTable<'_>,
    arguments: &[Argument],
    out: &mut [u8],
) -> io::Result<()>
    requires { AreRight t × All (IsArgument t) arguments.now × Room out.old fact_room }
{
    for a in arguments {
        show_number(rt, public_name(t, *a, out))?;
    }
    Ok(())
}
