// The length of each dart for a value: its capacity, less the value along a path from one dart to another through the trees of a walk over all darts. From both
// ends the tree is climbed to its first dart, from each dart to the one that it was met from; what both climbs cross is cancelled.
#![tactic(auto)]

ghost use Rattle.std.specs.Prelude.{◌≡◌, ◌≢◌, ℕ, ◌<◌, eqb, length, pos, ◌-ℤ◌, ◌*ℤ◌};
ghost use Rattle.integers.specs.Sum.{when};
ghost use Rattle.lengths.specs.inner.Lengths.{Climbable, Climbed, Fillable, Filled};
ghost use Rattle.arrays.specs.At.{at, atℤ};
ghost use Rattle.integers.specs.inner.Limited.{Limited};
ghost use Rattle.arrays.specs.inner.Sizes.{most_length, most_value};

// Takes the value over one edge: its dart p, which the path goes along, gets shorter by the value, and the other dart x gets longer by it.
fn carry(lengths: &mut [i32; 1024], p: usize, x: usize, value: i32)
    requires { (length lengths.old ≡ 1024) × (p < 1024) × (x < 1024) × (x ≢ p) × Limited most_length (atℤ lengths.old p)
        × Limited most_length (atℤ lengths.old x) × Limited most_value value }
    ensures { (length lengths.new ≡ 1024)
        × ((d : ℕ) → atℤ lengths.new d ≡ atℤ lengths.old d -ℤ value *ℤ (when (eqb d p) (pos 1) -ℤ when (eqb d x) (pos 1))) }
{
    lengths[p] = signed::minus(lengths[p], value);
    lengths[x] = signed::plus(lengths[x], value);
}

// Takes the value along the way to x from the first dart of its tree, going up it, and answers that dart: the one marked with its own number. `order` and
// `darts` are named by the contract only: a dart's place in the order falls with every step, so the climb ends.
fn climb(
    order: &[u16; 1024],
    from: &[u16; 1024],
    darts: usize,
    x: usize,
    value: i32,
    lengths: &mut [i32; 1024],
) -> usize
    requires { (length lengths.old ≡ 1024) × Climbable darts x (at order.now) (at from.now) (atℤ lengths.old) value }
    ensures { (length lengths.new ≡ 1024)
        × Climbed darts x (at order.now) (at from.now) value (atℤ lengths.old) (atℤ lengths.new) result }
{
    let mut y: usize = x;
    let mut p = arrays::wide(from[x]);
    // A while loop: it walks up a tree, from a dart to the one that it was met from.
    while p != y {
        let child = y;
        y = p;
        p = arrays::wide(from[y]);
        let back = arrays::reverse(y);
        if child == back {
            carry(lengths, y, child, value);
        }
    }
    y
}

// The lengths for a value from `start` to `finish`: up from `start` to the first dart of its tree and down to `finish`. Answers whether both are in one tree;
// where they are not, the lengths are of use for the value 0 only.
pub fn fill_lengths(
    capacities: &[i32; 1024],
    order: &[u16; 1024],
    from: &[u16; 1024],
    darts: usize,
    start: usize,
    finish: usize,
    value: i32,
    lengths: &mut [i32; 1024],
) -> bool
    requires { (length lengths.old ≡ 1024) × Fillable darts start finish (at order.now) (at from.now) (atℤ capacities.now) value }
    ensures { (length lengths.new ≡ 1024)
        × Filled darts start finish (at order.now) (at from.now) (atℤ capacities.now) value (atℤ lengths.new) result }
{
    arrays::copy(&capacities[..darts], &mut lengths[..darts]);
    let down = climb(order, from, darts, finish, value, lengths);
    let against = signed::minus(0, value);
    let up = climb(order, from, darts, start, against, lengths);
    up == down
}
