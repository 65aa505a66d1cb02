// Cuts over arrays: the sum of numbers of the darts that leave a set of flagged nodes.
#![tactic(auto)]

ghost use Rattle.std.specs.Prelude.{◌≡◌, ℕ, ◌+◌, ◌*◌, ◌<◌, ◌≤◌, ◌%◌, ◌+ℤ◌};
ghost use Rattle.integers.specs.Sum.{when};
ghost use Rattle.integers.specs.inner.Limited.{Limited};
ghost use Rattle.arrays.specs.At.{at, atℤ};
ghost use Rattle.arrays.specs.inner.Flags.{flagged};
ghost use Rattle.arrays.specs.inner.Sizes.{most_capacity, most_length};
ghost use Rattle.cuts.specs.inner.Cut.{leaves_of, cut_of};

// What the two darts of the edge e add to the cut of the flagged nodes: at most one of them leaves.
fn edge_share(tails: &[u16; 1024], lengths: &[i32; 1024], inside: &[u8; 1024], e: usize) -> i32
    requires { (e < 512) × (at tails.now (2 * e) < 1024) × (at tails.now (2 * e + 1) < 1024) }
    ensures { result ≡ when (leaves_of (at tails.now) (flagged inside.now) (2 * e)) (atℤ lengths.now (2 * e))
        +ℤ when (leaves_of (at tails.now) (flagged inside.now) (2 * e + 1)) (atℤ lengths.now (2 * e + 1)) }
{
    let tail = usize::from(tails[2 * e]);
    let head = usize::from(tails[2 * e + 1]);
    let at_tail = inside[tail];
    let at_head = inside[head];
    if at_tail == at_head {
        return 0;
    }
    if at_tail == 1 {
        return lengths[2 * e];
    }
    if at_head == 1 {
        return lengths[2 * e + 1];
    }
    0
}

// The sum over the darts that leave the flagged nodes, edge by edge.
pub fn total(tails: &[u16; 1024], lengths: &[i32; 1024], inside: &[u8; 1024], darts: usize) -> i64
    requires { (darts ≤ 1024) × (darts % 2 ≡ 0) × ((d : ℕ) → d < darts → at tails.now d < 1024)
        × ((d : ℕ) → d < darts → Limited most_length (atℤ lengths.now d)) }
    ensures { result ≡ cut_of darts (at tails.now) (atℤ lengths.now) (flagged inside.now) }
{
    let mut sum: i64 = 0;
    for e in 0..darts / 2 {
        let share = edge_share(tails, lengths, inside, e);
        if share != 0 {
            sum += i64::from(share);
        }
    }
    sum
}

// The same of capacities, which 1,024 darts hold within 32 bits: the outward total of the flagged nodes.
pub fn capacity(
    tails: &[u16; 1024],
    capacities: &[i32; 1024],
    inside: &[u8; 1024],
    darts: usize,
) -> i32
    requires { (darts ≤ 1024) × (darts % 2 ≡ 0) × ((d : ℕ) → d < darts → at tails.now d < 1024)
        × ((d : ℕ) → d < darts → Limited most_capacity (atℤ capacities.now d)) }
    ensures { result ≡ cut_of darts (at tails.now) (atℤ capacities.now) (flagged inside.now) }
{
    total(tails, capacities, inside, darts) as i32
}
