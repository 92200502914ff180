// The bytes of the edges: their count, and the four numbers of each, as they stand in their table.
ghost use Rattle.std.specs.Prelude.{◌≡◌, List, ◌++◌, ◌+◌, ◌*◌, ◌≤◌, length};
ghost use Rattle.octets.specs.Limits.{longest};
ghost use Rattle.octets.specs.Splice.{splice};
ghost use Rattle.lists.specs.Asks.{Asks, Promises};
ghost use Rattle.number.specs.Groups.{groups};
ghost use Rattle.number.specs.Layout.{flat, listed};
ghost use Rattle.rewriting.specs.Graph.{Edge};
ghost use Rattle.graph.specs.Graph.{most_edges, encode_edge};
ghost use Rattle.graph.specs.Table.{edge_fields, EdgesIn};
ghost use Rattle.writer.specs.Edges.{number_room};

use graph::edges;

// How many bytes some numbers of the table take.
fn numbers_len(numbers: &[u32]) -> usize
    requires { length numbers.now ≤ longest }
    ensures { (result ≡ length (flat groups numbers.now)) × (result ≤ number_room * length numbers.now) }
{
    let mut len: usize = 0;
    for n in numbers {
        len += number::number_len(*n);
    }
    len
}

// How many bytes m edges take, with their count.
pub fn edges_len(edges: &[u32], m: usize) -> usize
    requires { Asks (EdgesIn edges.now m) }
    ensures counted { Promises (EdgesIn edges.now m) (λ (es : List Edge). result ≡ length (listed encode_edge es)) }
    ensures few { result ≤ number_room * (edge_fields * most_edges + 1) }
{
    number::number_len(m as u32) + numbers_len(&edges[..edges::FIELDS * m])
}

// Writes some numbers of the table to a place where there is room for them.
fn write_numbers(output: &mut [u8], at: usize, numbers: &[u32])
    requires { at + length (flat groups numbers.now) ≤ length output.old }
    ensures { output.new ≡ splice output.old at (flat groups numbers.now) }
{
    let mut o = at;
    for n in numbers {
        o = number::write_number(output, o, *n);
    }
}

// Writes the steps' bytes, the count of edges, and the edges, to the start of an output that has room for them.
pub fn write_graph(output: &mut [u8], steps: &[u8], edges: &[u32], m: usize)
    requires { Asks (EdgesIn edges.now m) × Promises (EdgesIn edges.now m) (λ (es : List Edge). length steps.now + length (listed encode_edge es) ≤ length output.old) }
    ensures { Promises (EdgesIn edges.now m) (λ (es : List Edge). output.new ≡ splice output.old 0 (steps.now ++ listed encode_edge es)) }
{
    let at = octets::copy_into(output, 0, steps);
    let from = number::write_number(output, at, m as u32);
    write_numbers(output, from, &edges[..edges::FIELDS * m]);
}
