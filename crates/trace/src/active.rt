// The nodes that have an action.
ghost use Rattle.std.specs.Prelude.{◌≡◌, List, ◌<◌, length};
ghost use Rattle.lists.specs.Asks.{Promises₂};
ghost use Rattle.lists.specs.Lists.{count_by};
ghost use Rattle.protocol.specs.Protocol.{Protocol};
ghost use Rattle.steps.specs.Nodes.{Node};
ghost use Rattle.trace.specs.Tables.{Starts};
ghost use Rattle.trace.specs.Active.{is_active};

// How many of the n nodes have an action, by where the actions of each begin: n beside the slice, which has one entry more and may be longer.
pub fn active_nodes(starts: &[u32], n: usize) -> usize
    requires { n < length starts.now }
    ensures { Promises₂ (Starts starts.now) (λ (P : Protocol) (xs : List Node). length xs ≡ n → result ≡ count_by (is_active P) xs) }
{
    let mut active = 0;
    for k in 0..n {
        if starts[k] < starts[k + 1] {
            active += 1;
        }
    }
    active
}
