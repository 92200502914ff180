// The exported calls for C: each is the call of crate checker of the same name, with the same promise. C's side of them is include/levtosziv.h.
#![tactic(auto)]

ghost use Rattle.std.specs.Prelude.{◌≡◌, length};
ghost use Rattle.checker.specs.Answer.{packed};
ghost use Rattle.checker.specs.Check.{packed_ruling, check_outcome, check_work};
ghost use Rattle.checker.specs.Canonical.{canonical_outcome, canonical_output, canonical_work};
ghost use Rattle.checker.specs.Draw.{draw_outcome, draw_output, draw_work};

#[unsafe(no_mangle)]
pub extern "C" fn levtosziv_canonical(
    protocol: &[u8],
    term: &[u8],
    output: &mut [u8],
    work: &mut [u8],
) -> u64
    ensures answer { result ≡ packed (canonical_outcome protocol.now term.now (length output.old) (length work.old)) }
    ensures wrote { output.new ≡ canonical_output protocol.now term.now output.old (length work.old) }
    ensures cleared { work.new ≡ canonical_work protocol.now term.now (length output.old) work.old }
{
    checker::levtosziv_canonical(protocol, term, output, work)
}

#[unsafe(no_mangle)]
pub extern "C" fn levtosziv_draw(
    protocol: &[u8],
    steps: &[u8],
    output: &mut [u8],
    work: &mut [u8],
) -> u64
    ensures answer { result ≡ packed (draw_outcome protocol.now steps.now (length output.old) (length work.old)) }
    ensures wrote { output.new ≡ draw_output protocol.now steps.now output.old (length work.old) }
    ensures cleared { work.new ≡ draw_work protocol.now steps.now (length output.old) work.old }
{
    checker::levtosziv_draw(protocol, steps, output, work)
}

#[unsafe(no_mangle)]
pub extern "C" fn levtosziv_check(
    protocol: &[u8],
    property: &[u8],
    graph: &[u8],
    work: &mut [u8],
) -> u64
    ensures answer { result ≡ packed_ruling (check_outcome protocol.now property.now graph.now (length work.old)) }
    ensures cleared { work.new ≡ check_work protocol.now property.now graph.now work.old }
{
    checker::levtosziv_check(protocol, property, graph, work)
}
