// A set of nodes with a cut below zero: the nodes above a threshold, tried upwards.
#![tactic(auto)]

ghost use Rattle.std.specs.Prelude.{◌≡◌, ℕ, ◌<◌, ◌≤◌, eqb, length, pos, ◌≤ℤ◌, ◌<ℤ◌};
ghost use Rattle.arrays.specs.At.{at, atℤ};
ghost use Rattle.cuts.specs.inner.Cut.{cut_of};
ghost use Rattle.thresholds.specs.inner.Above.{above};
ghost use Rattle.thresholds.specs.inner.Choice.{Choosable, FirstServes};

// The lowest height of a node.
fn lowest(heights: &[i32; 1024], nodes: usize) -> i32
    requires { (0 < nodes) × (nodes ≤ 1024) }
    ensures { ((v : ℕ) → v < nodes → result ≤ℤ atℤ heights.now v) × ((v : ℕ) × (v < nodes) × (result ≡ atℤ heights.now v)) }
{
    // A for over places: an iterator over the slice hands out addresses, and the module's text would have to be changed for machines of 32 bits.
    let mut low = heights[0];
    for v in 1..nodes {
        low = low.min(heights[v]);
    }
    low
}

// Flags the nodes above the threshold.
fn flag_above(heights: &[i32; 1024], nodes: usize, threshold: i32, inside: &mut [u8; 1024])
    requires { (length inside.old ≡ 1024) × (nodes ≤ 1024) }
    ensures { (length inside.new ≡ 1024)
        × ((v : ℕ) → v < nodes → eqb (at inside.new v) 1 ≡ above (atℤ heights.now) threshold v) }
{
    for v in 0..nodes {
        inside[v] = u8::from(threshold < heights[v]);
    }
}

// Tries the thresholds upwards from the lowest height, below which all nodes are in the set and nothing leaves it.
// For a ring that passes no face twice the first one serves.
pub fn choose_set(
    tails: &[u16; 1024],
    lengths: &[i32; 1024],
    heights: &[i32; 1024],
    nodes: usize,
    darts: usize,
    inside: &mut [u8; 1024],
)
    requires { (length inside.old ≡ 1024) × Choosable nodes darts (at tails.now) (atℤ lengths.now) (atℤ heights.now) }
    ensures { (length inside.new ≡ 1024)
        × (cut_of darts (at tails.now) (atℤ lengths.now) (λ v. eqb (at inside.new v) 1) <ℤ pos 0)
        × FirstServes nodes darts (at tails.now) (atℤ lengths.now) (atℤ heights.now)
        (λ v. eqb (at inside.new v) 1) }
{
    let mut threshold = lowest(heights, nodes);
    flag_above(heights, nodes, threshold, inside);
    // A while loop: it ends at the first threshold that serves, and its number is not known before.
    while cuts::total(tails, lengths, inside, darts) >= 0 {
        threshold += 1;
        flag_above(heights, nodes, threshold, inside);
    }
}
