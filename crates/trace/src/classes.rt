// The class of each argument: the place of the first one that is the same message.
ghost use Rattle.std.specs.Prelude.{◌≡◌, List, ℕ, ◌+◌, ◌*◌, ◌≤◌, ◌<◌, length, get_or};
ghost use Rattle.lists.specs.Asks.{Asks₂, Promises₂, Asks₃, Promises₃};
ghost use Rattle.protocol.specs.Protocol.{Protocol};
ghost use Rattle.steps.specs.Nodes.{Node};
ghost use Rattle.facts.specs.Writing.{fact_room};
ghost use Rattle.facts.specs.Calls.{Room};
ghost use Rattle.trace.specs.Tables.{stride};
ghost use Rattle.trace.specs.Entries.{ListedAll};
ghost use Rattle.trace.specs.Chains.{most_chains, chain_of, HeadsBehind, Classed};
ghost use Rattle.trace.specs.Classes.{Walkable, Earlier, key_at, Classing, Ready, ClassesAre};

use crate::{entries, numbers};
use facts::compare;

// The chains of places by mark: for each place that begins a class the one before it, and one; behind these links, for each chain its last place, and
// one. Many actions have a chain for each mark; few have fewer of both, since all are cleared.
const HEADS: usize = numbers::BASE as usize;

const CHAINS: usize = numbers::PLACES + HEADS;

const FEW_ACTIONS: usize = 32;

const FEW_PLACES: usize = numbers::STRIDE * FEW_ACTIONS;

const FEW_HEADS: usize = 256;

const FEW_CHAINS: usize = FEW_PLACES + FEW_HEADS;

// Where the head of a mark's chain stands in chains of a size.
fn head_place(mark: u32, size: usize) -> usize
    ensures { result ≡ chain_of size mark }
{
    if size < CHAINS {
        return FEW_PLACES + mark as usize % FEW_HEADS;
    }
    numbers::PLACES + mark as usize % HEADS
}

// A place in the chain from a head on whose argument is the same as that of place q, if there is one.
fn earlier(
    work: &mut [u8],
    p: &[u8],
    s: &[u8],
    nodes: &[usize],
    entries: &[u32],
    chains: &[u16],
    head: u16,
    q: usize,
) -> Option<usize>
    requires { Asks₂ (Walkable p.now s.now nodes.now entries.now chains.now head q) × Room work.old fact_room × (q ≤ length chains.now) }
    ensures { Promises₂ (Walkable p.now s.now nodes.now entries.now chains.now head q) (λ (P : Protocol) (xs : List Node). Earlier (key_at P xs) chains.now head q result) }
{
    let x = entries::action_of(entries[q / numbers::STRIDE]);
    // A while: how many links there are to follow is not known before. A link is a place and one, 0 for none: an Option would take twice the room.
    let mut h = head;
    while h != 0 {
        let r = h as usize - 1;
        let y = entries::action_of(entries[r / numbers::STRIDE]);
        if compare::same_argument(
            work,
            p,
            s,
            nodes,
            x,
            q % numbers::STRIDE,
            y,
            r % numbers::STRIDE,
        ) {
            return Some(r);
        }
        h = chains[r];
    }
    None
}

// The class of place q: a public name keeps its number; else that of an earlier place with the same argument, or q itself.
fn class_place(
    work: &mut [u8],
    p: &[u8],
    s: &[u8],
    nodes: &[usize],
    entries: &[u32],
    classes: &mut [u32],
    chains: &mut [u16],
    q: usize,
)
    requires { Asks₃ (Classing p.now s.now nodes.now entries.now classes.old chains.old q) × Room work.old fact_room × (q < length classes.old) × HeadsBehind (length chains.old) (q + 1) }
    ensures { Promises₃ (Classing p.now s.now nodes.now entries.now classes.old chains.old q) (λ (raw : List ℕ) (P : Protocol) (xs : List Node). Classed (key_at P xs) raw classes.new chains.new (q + 1)) }
{
    let mark = classes[q];
    if numbers::BASE <= mark {
        return;
    }
    let chain = head_place(mark, chains.len());
    let head = chains[chain];
    match earlier(work, p, s, nodes, entries, chains, head, q) {
        Some(r) => classes[q] = classes[r],
        None => {
            classes[q] = q as u32;
            chains[q] = head;
            chains[chain] = (q + 1) as u16;
        }
    }
}

// The classes of all places, from their first numbers. The chains are empty at first.
fn class_places(
    work: &mut [u8],
    p: &[u8],
    s: &[u8],
    nodes: &[usize],
    entries: &[u32],
    classes: &mut [u32],
    chains: &mut [u16],
)
    requires { Asks₂ (Ready p.now s.now nodes.now entries.now classes.old (length entries.now)) × Room work.old fact_room × (stride * length entries.now ≤ length classes.old) × HeadsBehind (length chains.old) (stride * length entries.now) × ((i : ℕ) → get_or chains.old i 0 ≡ 0) }
    ensures { Promises₂ (Ready p.now s.now nodes.now entries.now classes.old (length entries.now)) (λ (P : Protocol) (xs : List Node). Classed (key_at P xs) classes.old classes.new chains.new (stride * length entries.now)) }
{
    let end = numbers::STRIDE * entries.len();
    for q in 0..end {
        class_place(work, p, s, nodes, entries, classes, chains, q);
    }
}

// The same with empty chains of a size.
fn class_with<const SIZE: usize>(
    work: &mut [u8],
    p: &[u8],
    s: &[u8],
    nodes: &[usize],
    entries: &[u32],
    classes: &mut [u32],
)
    requires { Asks₂ (Ready p.now s.now nodes.now entries.now classes.old (length entries.now)) × Room work.old fact_room × (stride * length entries.now ≤ length classes.old) × HeadsBehind SIZE (stride * length entries.now) × (SIZE ≤ most_chains) }
    ensures { Promises₂ (Ready p.now s.now nodes.now entries.now classes.old (length entries.now)) (λ (P : Protocol) (xs : List Node). ClassesAre classes.new (stride * length entries.now) P xs) }
{
    let mut chains = [0u16; SIZE];
    class_places(work, p, s, nodes, entries, classes, &mut chains);
}

// The class of each argument of the actions that are listed.
pub fn class_arguments(
    work: &mut [u8],
    p: &[u8],
    s: &[u8],
    nodes: &[usize],
    entries: &[u32],
    classes: &mut [u32],
)
    requires { Asks₂ (ListedAll p.now s.now nodes.now entries.now (length entries.now)) × Room work.old fact_room × (stride * length entries.now ≤ length classes.old) }
    ensures { Promises₂ (ListedAll p.now s.now nodes.now entries.now (length entries.now)) (λ (P : Protocol) (xs : List Node). ClassesAre classes.new (stride * length entries.now) P xs) }
{
    if entries.is_empty() {
        return;
    }
    numbers::number_actions(work, p, s, nodes, entries, classes);
    if entries.len() <= FEW_ACTIONS {
        class_with::<FEW_CHAINS>(work, p, s, nodes, entries, classes);
    } else {
        class_with::<CHAINS>(work, p, s, nodes, entries, classes);
    }
}
