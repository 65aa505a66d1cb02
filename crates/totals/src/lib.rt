// The outward total of a set of nodes, node by node, on a drawing that is open and sound, held in lent arrays. Document 02, Job 9: "The course book adds a
// set's outward total node by node, along each node's round of turns". A turn is a rotation here, a limit a capacity.
#![tactic(auto)]

ghost use Rattle.std.specs.Prelude.{◌≡◌, not, ℕ, ◌*◌, ◌/◌, ◌<◌, ◌≤◌, length};
ghost use Rattle.integers.specs.Sum.{when, count};
ghost use Rattle.integers.specs.inner.Limited.{Limited};
ghost use Rattle.maps.specs.Dart.{rev};
ghost use Rattle.maps.specs.Check.{Sound};
ghost use Rattle.flows.specs.ProvingSet.{member};
ghost use Rattle.node_sets.specs.inner.Words.{WordsLent};
ghost use Rattle.arrays.specs.At.{at, atℤ};
ghost use Rattle.arrays.specs.Maps.{map_of};
ghost use Rattle.arrays.specs.inner.Sizes.{most_on_sheet};
ghost use Rattle.totals.specs.Subtotal.{subtotal};
ghost use Rattle.totals.specs.Totals.{total_checks, TotalGiven};
ghost use Rattle.totals.specs.inner.Starts.{Starts};
ghost use Rattle.totals.specs.inner.Given.{Subtotaled};
ghost use Rattle.totals.specs.inner.Lent.{TotalsLent};

use refusals::{Refusal, refused};

// How many nodes are in the set. Bits past the last node are not read.
fn count_members(set: &[u64], nodes: usize) -> usize
    requires { WordsLent nodes set.now }
    ensures { result ≡ count nodes (member set.now) }
{
    let mut members: usize = 0;
    for v in 0..nodes {
        if node_sets::contains(set, v) {
            members += 1;
        }
    }
    members
}

// What the dart d adds to its node's subtotal: its capacity, where its head is outside the set.
fn share(tails: &[u16; 1024], capacities: &[i32; 1024], set: &[u64], d: usize) -> i32
    requires { (d < 1024) × (at tails.now (rev d) / 64 < length set.now) }
    ensures { result ≡ when (not (member set.now (at tails.now (rev d)))) (atℤ capacities.now d) }
{
    let back = arrays::reverse(d);
    let head = arrays::wide(tails[back]);
    let limit = capacities[d];
    if node_sets::contains(set, head) {
        return 0;
    }
    limit
}

// The subtotal of the node that `start` leaves, added along its round of turns from `start` until it is back there. 1,024 darts of at most 1,000,000 stay below
// 2^31. The nodes are named by the contract only.
fn round_total<'a>(
    tails: &'a [u16; 1024],
    rotations: &'a [u16; 1024],
    capacities: &'a [i32; 1024],
    nodes: usize,
    edges: usize,
    set: &[u64],
    start: usize,
) -> i32
    requires { TotalsLent nodes edges tails.now rotations.now capacities.now set.now × (start < 2 * edges) }
    ensures { result ≡ subtotal (map_of nodes edges tails.now rotations.now) (atℤ capacities.now)
        (member set.now) (at tails.now start) }
{
    let first = share(tails, capacities, set, start);
    let mut sum = first;
    let mut d = arrays::wide(rotations[start]);
    // A while loop: it walks along the rotations until it is back at the start.
    while d != start {
        sum = signed::plus(sum, share(tails, capacities, set, d));
        d = arrays::wide(rotations[d]);
    }
    sum
}

// A dart of each node that has one: the one met last.
fn fill_starts(tails: &[u16; 1024], darts: usize, starts: &mut [u16; 1024])
    requires { (darts ≤ 1024) × (length starts.old ≡ 1024) × ((d : ℕ) → d < darts → at tails.now d < 1024) }
    ensures { (length starts.new ≡ 1024) × Starts darts (at tails.now) (at starts.new) }
{
    for d in 0..darts {
        let v = arrays::wide(tails[d]);
        starts[v] = arrays::narrow(d);
    }
}

// Writes the subtotals of the nodes in the set, nodes rising, and answers their sum.
fn fill_subtotals<'a>(
    tails: &'a [u16; 1024],
    rotations: &'a [u16; 1024],
    capacities: &'a [i32; 1024],
    nodes: usize,
    edges: usize,
    starts: &[u16; 1024],
    set: &[u64],
    subtotals: &mut [i32],
) -> i64
    requires { TotalsLent nodes edges tails.now rotations.now capacities.now set.now
        × Starts (2 * edges) (at tails.now) (at starts.now) × (length subtotals.old ≡ count nodes (member set.now)) }
    ensures { Subtotaled (map_of nodes edges tails.now rotations.now) (atℤ capacities.now)
        (member set.now) subtotals.old subtotals.new result }
{
    let mut total: i64 = 0;
    let mut place: usize = 0;
    for v in 0..nodes {
        if node_sets::contains(set, v) {
            let start = arrays::wide(starts[v]);
            let sum = round_total(tails, rotations, capacities, nodes, edges, set, start);
            total = signed::plus_wide(total, sum);
            subtotals[place] = sum;
            place += 1;
        }
    }
    total
}

// The subtotal of each node of a set, nodes rising, one element for each node in it, and the total. Nothing is written before the check.
pub fn totals_of<'a>(
    tails: &'a [u16; 1024],
    rotations: &'a [u16; 1024],
    capacities: &'a [i32; 1024],
    nodes: usize,
    edges: usize,
    set: &[u64],
    subtotals: &mut [i32],
) -> Result<i32, Refusal>
    requires { (nodes ≤ 1024) × (edges ≤ 512) × Sound (map_of nodes edges tails.now rotations.now)
        × ((d : ℕ) → d < 2 * edges → Limited most_on_sheet (atℤ capacities.now d)) }
    ensures { TotalGiven (map_of nodes edges tails.now rotations.now) (atℤ capacities.now)
        (total_checks nodes set.now subtotals.old)
        set.now subtotals.old subtotals.new result }
{
    let words = node_sets::words_for(nodes);
    if set.len() < words {
        return refused(16);
    }
    let given = &set[0..words];
    let members = count_members(given, nodes);
    if subtotals.len() < members {
        return refused(16);
    }
    let mut starts = [0u16; 1024];
    fill_starts(tails, 2 * edges, &mut starts);
    let total = fill_subtotals(
        tails,
        rotations,
        capacities,
        nodes,
        edges,
        &starts,
        given,
        &mut subtotals[0..members],
    );
    Ok(signed::narrow(total))
}
