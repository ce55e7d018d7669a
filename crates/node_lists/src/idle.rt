// Kind 8: for each member of a group but first and last G, the OR of X before it, H, the OR of X after it, and I, which is counted.
ghost use Rattle.std.specs.Prelude.{◌≡◌, ◌++◌, ◌+◌, ◌-◌, ◌*◌, ◌≤◌, ◌<◌, length, take};
ghost use Rattle.scope.specs.Kinds.{idle};
ghost use Rattle.number.specs.Lists.{leading};
ghost use Rattle.constraint.specs.Answers.{counts_in};
ghost use Rattle.constraint.specs.Valid.{InRange};
ghost use Rattle.literals.specs.Words.{Holds};
ghost use Rattle.literals.specs.NodeWords.{nodes_words};
ghost use Rattle.list_nodes.specs.Ground.{Ground, layout_of};
ghost use Rattle.node_lists.specs.Cluster.{row_in, xs_of};
ghost use Rattle.node_lists.specs.Idle.{gap_gates, inner_count};
ghost use Rattle.list_nodes.specs.Stored.{only_in, num_of, Stored};

use constraint::{Head, OverGroups};
use list_nodes::{Filled, store_idling, store_or};

// G, H and I of member k of a group, which is not the last, from the variable v on; its X are the first n words of a row.
fn store_gap(row: &[u32], n: usize, k: usize, v: u32, at: usize, out: &mut [u32]) -> usize
    requires { (k + 1 < n) × ((n ≤ 125) × ((n ≤ length row.now) × ((at + 134 ≤ length out.old) × (v + 2 < 1073741824)))) }
    ensures holds { Holds out.new result (take at out.old ++ nodes_words v (gap_gates (take n row.now) k 1 v)) }
    ensures upper_bound { result ≤ at + 134 }
{
    let a = store_or(row, 0, k, v, at, out);
    let b = store_or(row, k + 1, n, v + 1, a, out);
    store_idling(row[k], v, b, out)
}

// Those of each member but first and last.
fn store_gaps(row: &[u32], n: usize, v: u32, at: usize, out: &mut [u32]) -> usize
    requires { (n ≤ 125) × ((n ≤ length row.now) × ((at + 134 * (n - 2) ≤ length out.old) × (v + 3 * (n - 2) ≤ 8000001))) }
    ensures holds { Holds out.new result (take at out.old ++ nodes_words v (gap_gates (take n row.now) 1 (n - 2) v)) }
    ensures upper_bound { result ≤ at + 134 * (n - 2) }
{
    let mut end = at;
    for k in 0..n.saturating_sub(2) {
        end = store_gap(row, n, k + 1, v + 3 * k as u32, end, out);
    }
    end
}

// Its first node is the variable v.
pub fn fill_idle(
    f: OverGroups,
    head: Head,
    groups: &[u8],
    list: &[u16],
    v: u32,
    out: &mut [u32],
) -> Filled
    requires { Ground groups.now head × (InRange (counts_in head) (idle f.resource (leading f.groups list.now) f.lo f.hi)
        × ((length list.now ≡ 2048) × ((inner_count (xs_of head.times (layout_of head).uses (row_in groups.now) f.resource (leading f.groups list.now)) ≤ 255)
        × ((v + 3 * inner_count (xs_of head.times (layout_of head).uses (row_in groups.now) f.resource (leading f.groups list.now)) ≤ 8000001)
        × (length out.old ≡ 34816))))) }
    ensures { Stored (num_of head) (only_in groups.now head (idle f.resource (leading f.groups list.now) f.lo f.hi)) v out.new result }
{
    // of fixed size: there is no heap
    let mut row = [0u32; 125];
    let l = literals::numbering(head.times, head.events, head.resources);
    let times = head.times;
    let uses = l.uses;
    let resource = f.resource;
    let count = f.groups as usize;
    let mut found: u32 = 0;
    let mut at: usize = 0;
    for i in 0..count {
        let g = list[i] as u32;
        let n = literals::x_of_group(groups, g, times, uses, resource, &mut row);
        at = store_gaps(&row, n, v + 3 * found, at, out);
        // those that are neither first nor last
        found += n.saturating_sub(2) as u32;
    }
    let end = literals::outputs(v + 2, 3, found as usize, at, out);
    Filled {
        nodes: 3 * found as usize,
        at,
        end,
    }
}
