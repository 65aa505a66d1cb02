// A walk over the darts from a start dart: from each dart met it goes on to the rotation and to the reverse, first come first.
// `order` lists the darts as they are met, and `from` holds the dart from which each was met first. The work grows as the number of darts.
// Over a drawing in several parts such a walk goes part by part.
#![tactic(auto)]

ghost use Rattle.std.specs.Prelude.{◌≡◌, ◌≢◌, ℕ, ◌+◌, ◌%◌, ◌<◌, ◌≤◌, length, MatchOption};
ghost use Rattle.arrays.specs.At.{at};
ghost use Rattle.traversal.specs.inner.Mark.{unmarked};
ghost use Rattle.refusals.specs.Order.{Decides};
ghost use Rattle.traversal.specs.inner.Spread.{Spread, Added, FlagsMet};
ghost use Rattle.traversal.specs.inner.Forest.{Forest, Growing, Plantable, RootsOf, RootsHere};
ghost use Rattle.traversal.specs.inner.Rounds.{Rounds, Joinable};
ghost use Rattle.traversal.specs.inner.FirstCome.{FirstCome, RoundedOff, Comes, Unround};

// The mark of a place that has no number yet: for a dart, that it was not met. Numbers stay below 1,024. An Option would double the array, and memory is fixed.
const UNMARKED: u16 = 65535;

pub fn unmark_all(label: &mut [u16; 1024])
    requires { length label.old ≡ 1024 }
    ensures { (length label.new ≡ 1024) × ((d : ℕ) → d < 1024 → at label.new d ≡ unmarked) }
{
    label.fill(UNMARKED);
}

// The first dart that leaves the node v.
pub fn dart_at(tails: &[u16; 1024], darts: usize, v: usize) -> usize
    requires { (darts ≤ 1024) × ((d : ℕ) × (d < darts) × (at tails.now d ≡ v)) }
    ensures { (result < darts) × (at tails.now result ≡ v) × ((e : ℕ) → e < result → at tails.now e ≢ v) }
{
    // A for over places: an iterator over the array hands out addresses, and the module's text would have to be changed for machines of 32 bits.
    for d in 0..darts {
        if arrays::wide(tails[d]) == v {
            return d;
        }
    }
    unreachable!()
}

// Lists d at the end, as met from `origin`, unless it was met before, and answers the new end.
fn add(
    order: &mut [u16; 1024],
    from: &mut [u16; 1024],
    end: usize,
    d: usize,
    origin: usize,
) -> usize
    requires { (length order.old ≡ 1024) × (length from.old ≡ 1024) × (d < 1024) × (origin < 1024) × (at from.old d ≡ unmarked → end < 1024) }
    ensures { (length order.new ≡ 1024) × (length from.new ≡ 1024)
        × Added d origin (at from.old) (at from.new) (at order.old) (at order.new) end result }
{
    if from[d] != UNMARKED {
        return end;
    }
    from[d] = arrays::narrow(origin);
    order[end] = arrays::narrow(d);
    end + 1
}

// Begins a tree at d: lists it, marked with its own number, and all darts that it leads to. Answers the new end. `first` and `trees`, the trees listed before,
// are named by the contract only.
fn grow(
    rotations: &[u16; 1024],
    darts: usize,
    first: usize,
    trees: usize,
    order: &mut [u16; 1024],
    from: &mut [u16; 1024],
    listed: usize,
    d: usize,
) -> usize
    requires { (length order.old ≡ 1024) × (length from.old ≡ 1024) × (darts ≤ 1024)
        × (darts % 2 ≡ 0) × ((d : ℕ) → d < darts → at rotations.now d < darts)
        × Growing darts (at rotations.now) first (at order.old) (at from.old) listed listed trees
        × Plantable darts first (at from.old) listed trees d }
    ensures { (length order.new ≡ 1024) × (length from.new ≡ 1024)
        × Growing darts (at rotations.now) first (at order.new) (at from.new) result result (trees + 1)
        × (at from.new d ≢ unmarked)
        × ((y : ℕ) → at from.old y ≢ unmarked → at from.new y ≢ unmarked) }
{
    let mut head: usize = listed;
    let mut end = add(order, from, listed, d, d);
    // A while loop: the queue `order` grows while it is read.
    while head < end {
        let p = arrays::wide(order[head]);
        let t = arrays::wide(rotations[p]);
        end = add(order, from, end, t, p);
        let back = arrays::reverse(p);
        end = add(order, from, end, back, p);
        head += 1;
    }
    end
}

// All darts that `start` leads to, each once, and how many they are.
pub fn spread(
    rotations: &[u16; 1024],
    darts: usize,
    start: usize,
    order: &mut [u16; 1024],
    from: &mut [u16; 1024],
) -> usize
    requires { (length order.old ≡ 1024) × (length from.old ≡ 1024) × (darts ≤ 1024)
        × (darts % 2 ≡ 0) × (start < darts) × ((d : ℕ) → d < darts → at rotations.now d < darts) }
    ensures { (length order.new ≡ 1024) × (length from.new ≡ 1024)
        × Spread darts (at rotations.now) start (at order.new) (at from.new) result }
{
    unmark_all(from);
    grow(rotations, darts, start, 0, order, from, 0, start)
}

// All darts, tree by tree: those that `first` leads to, then those that the lowest dart not met leads to, and so on. Answers how many trees there are. The
// first dart of a tree is marked with its own number, and no other dart is (document 02, Job 8: a tree for each part of the sheet).
pub fn spread_all(
    rotations: &[u16; 1024],
    darts: usize,
    first: usize,
    order: &mut [u16; 1024],
    from: &mut [u16; 1024],
) -> usize
    requires { (length order.old ≡ 1024) × (length from.old ≡ 1024) × (darts ≤ 1024)
        × (darts % 2 ≡ 0) × (first < darts) × ((d : ℕ) → d < darts → at rotations.now d < darts) }
    ensures { (length order.new ≡ 1024) × (length from.new ≡ 1024)
        × Forest darts (at rotations.now) first (at order.new) (at from.new) result }
{
    unmark_all(from);
    let mut end = grow(rotations, darts, first, 0, order, from, 0, first);
    let mut trees: usize = 1;
    for d in 0..darts {
        if from[d] == UNMARKED {
            end = grow(rotations, darts, first, trees, order, from, end, d);
            trees += 1;
        }
    }
    trees
}

// Lists the round of d: d as met from `origin`, each other dart as met from the one before it. Answers the new end, or None where d's node has a round already,
// or the walk round d meets another tail or a dart that was met. `first`, `trees` and `front`, the place of `origin`, are named by the contract only.
fn add_round<'a>(
    tails: &'a [u16; 1024],
    rotations: &'a [u16; 1024],
    darts: usize,
    first: usize,
    trees: usize,
    front: usize,
    order: &mut [u16; 1024],
    from: &mut [u16; 1024],
    owner: &mut [u16; 1024],
    end: usize,
    d: usize,
    origin: usize,
) -> Option<usize>
    requires { (length order.old ≡ 1024) × (length from.old ≡ 1024) × (length owner.old ≡ 1024) × (darts ≤ 1024)
        × ((d : ℕ) → d < darts → at rotations.now d < darts) × ((d : ℕ) → d < darts → at tails.now d < 1024)
        × (d < darts) × (origin < 1024) × (end < 1024) × (at from.old d ≡ unmarked)
        × Joinable darts (at rotations.now) first (at order.old) (at from.old) front end (trees + 1) d origin
        × Rounds darts (at tails.now) (at rotations.now) (at from.old) (at owner.old)
        × FirstCome (at rotations.now) first (at order.old) (at from.old) end × ((i : ℕ) → i < end → at from.old (at order.old i) ≢ unmarked)
        × Comes (at rotations.now) first (at order.old) (at from.old) end d origin }
    ensures { (length order.new ≡ 1024) × (length from.new ≡ 1024) × (length owner.new ≡ 1024)
        × MatchOption result (Unround darts (at tails.now) (at rotations.now))
        (λ listed. Growing darts (at rotations.now) first (at order.new) (at from.new) front listed (trees + 1)
        × Rounds darts (at tails.now) (at rotations.now) (at from.new) (at owner.new)
        × (at from.new d ≢ unmarked)
        × ((i : ℕ) → i < end → at order.new i ≡ at order.old i) × (end < listed)
        × ((y : ℕ) → at from.old y ≢ unmarked → at from.new y ≢ unmarked)
        × FirstCome (at rotations.now) first (at order.new) (at from.new) listed
        × RoundedOff (at rotations.now) (at order.new) listed) }
{
    let v = arrays::wide(tails[d]);
    if owner[v] != 0 {
        return None;
    }
    owner[v] = arrays::narrow(d + 1);
    let mut last = d;
    let mut next = arrays::wide(rotations[d]);
    let mut listed = add(order, from, end, d, origin);
    // A while loop: it walks along the rotation until it is back at d.
    while next != d {
        if from[next] != UNMARKED {
            return None;
        }
        if arrays::wide(tails[next]) != v {
            return None;
        }
        listed = add(order, from, listed, next, last);
        last = next;
        next = arrays::wide(rotations[next]);
    }
    Some(listed)
}

// Begins a tree at d, round by round: from each dart met it goes on to the round of its reverse. Answers the new end, or None where a round was not one.
// `first` and `trees`, the trees listed before, are named by the contract only.
fn grow_rounds<'a>(
    tails: &'a [u16; 1024],
    rotations: &'a [u16; 1024],
    darts: usize,
    first: usize,
    trees: usize,
    order: &mut [u16; 1024],
    from: &mut [u16; 1024],
    owner: &mut [u16; 1024],
    listed: usize,
    d: usize,
) -> Option<usize>
    requires { (length order.old ≡ 1024) × (length from.old ≡ 1024) × (length owner.old ≡ 1024) × (darts ≤ 1024) × (darts % 2 ≡ 0)
        × ((d : ℕ) → d < darts → at rotations.now d < darts) × ((d : ℕ) → d < darts → at tails.now d < 1024)
        × Growing darts (at rotations.now) first (at order.old) (at from.old) listed listed trees
        × Plantable darts first (at from.old) listed trees d
        × Rounds darts (at tails.now) (at rotations.now) (at from.old) (at owner.old)
        × FirstCome (at rotations.now) first (at order.old) (at from.old) listed × RoundedOff (at rotations.now) (at order.old) listed }
    ensures { (length order.new ≡ 1024) × (length from.new ≡ 1024) × (length owner.new ≡ 1024)
        × MatchOption result (Unround darts (at tails.now) (at rotations.now))
        (λ end. Growing darts (at rotations.now) first (at order.new) (at from.new) end end (trees + 1)
        × Rounds darts (at tails.now) (at rotations.now) (at from.new) (at owner.new)
        × (at from.new d ≢ unmarked)
        × ((y : ℕ) → at from.old y ≢ unmarked → at from.new y ≢ unmarked)
        × FirstCome (at rotations.now) first (at order.new) (at from.new) end
        × RoundedOff (at rotations.now) (at order.new) end) }
{
    let mut head: usize = listed;
    let mut end = add_round(
        tails, rotations, darts, first, trees, listed, order, from, owner, listed, d, d,
    )?;
    // A while loop: the queue `order` grows while it is read.
    while head < end {
        let front = head;
        let p = arrays::wide(order[front]);
        let back = arrays::reverse(p);
        head += 1;
        if from[back] == UNMARKED {
            end = add_round(
                tails, rotations, darts, first, trees, front, order, from, owner, end, back, p,
            )?;
        }
    }
    Some(end)
}

// All darts, tree by tree as in `spread_all`, if the darts that leave a node are one round of the rotation, and how many trees there are; none if they are
// not. `owner`, all zeros before, has 1 more than a dart of each node that some dart leaves.
pub fn spread_rounds<'a>(
    tails: &'a [u16; 1024],
    rotations: &'a [u16; 1024],
    darts: usize,
    first: usize,
    order: &mut [u16; 1024],
    from: &mut [u16; 1024],
    owner: &mut [u16; 1024],
) -> Option<usize>
    requires { (length order.old ≡ 1024) × (length from.old ≡ 1024) × (length owner.old ≡ 1024) × (darts ≤ 1024) × (darts % 2 ≡ 0)
        × ((d : ℕ) → d < darts → at rotations.now d < darts) × ((d : ℕ) → d < darts → at tails.now d < 1024)
        × (first < darts) × ((v : ℕ) → at owner.old v ≡ 0) }
    ensures { (length order.new ≡ 1024) × (length from.new ≡ 1024) × (length owner.new ≡ 1024)
        × MatchOption result (Unround darts (at tails.now) (at rotations.now))
        (λ trees. (0 < trees) × Forest darts (at rotations.now) first (at order.new) (at from.new) trees
        × Rounds darts (at tails.now) (at rotations.now) (at from.new) (at owner.new)
        × ((d : ℕ) → d < darts → at from.new d ≢ unmarked)
        × FirstCome (at rotations.now) first (at order.new) (at from.new) darts) }
{
    unmark_all(from);
    let mut end = grow_rounds(
        tails, rotations, darts, first, 0, order, from, owner, 0, first,
    )?;
    let mut trees: usize = 1;
    for lowest in 0..darts {
        if end == darts {
            return Some(trees);
        }
        if from[lowest] == UNMARKED {
            end = grow_rounds(
                tails, rotations, darts, first, trees, order, from, owner, end, lowest,
            )?;
            trees += 1;
        }
    }
    Some(trees)
}

// Whether a walk met the dart d.
pub fn is_met(from: &[u16; 1024], d: usize) -> bool
    requires { d < 1024 }
    ensures { Decides (at from.now d ≢ unmarked) result }
{
    from[d] != UNMARKED
}

// Flags the nodes that a walk met a dart of, and no other.
pub fn flag_met(tails: &[u16; 1024], from: &[u16; 1024], darts: usize, inside: &mut [u8; 1024])
    requires { (length inside.old ≡ 1024) × (darts ≤ 1024) × ((d : ℕ) → d < darts → at tails.now d < 1024) }
    ensures { (length inside.new ≡ 1024) × FlagsMet darts (at tails.now) (at from.now) (at inside.new) }
{
    inside.fill(0);
    for d in 0..darts {
        if from[d] != UNMARKED {
            let v = arrays::wide(tails[d]);
            inside[v] = 1;
        }
    }
}

// The faces left of the first darts of the trees of a walk over all darts, into the first places of `roots`: those at level 0 (document 02, Job 8). The search
// for them ends at the last tree, at once where there is one tree only. `rotations` and `first` are named by the contract only.
pub fn first_faces<'a>(
    rotations: &'a [u16; 1024],
    lefts: &'a [u16; 1024],
    order: &'a [u16; 1024],
    from: &'a [u16; 1024],
    darts: usize,
    first: usize,
    trees: usize,
    roots: &mut [u16; 1024],
)
    requires { (length roots.old ≡ 1024) × (darts ≤ 1024) × Forest darts (at rotations.now) first (at order.now) (at from.now) trees }
    ensures { (length roots.new ≡ 1024)
        × RootsOf darts (at rotations.now) first (at lefts.now) (at roots.new) trees
        × RootsHere darts (at rotations.now) first (at lefts.now) (at order.now) (at from.now)
        (at roots.old) (at roots.new) trees }
{
    let mut count: usize = 0;
    for i in 0..darts {
        let d = arrays::wide(order[i]);
        let p = arrays::wide(from[d]);
        if p == d {
            roots[count] = lefts[d];
            count += 1;
            if count == trees {
                return;
            }
        }
    }
}

// The faces at level 0 (document 02, Job 8): the one left of `first`, and in each other part the one left of its lowest dart, into the first places of `roots`.
// Answers how many they are.
pub fn roots_of<'a>(
    rotations: &'a [u16; 1024],
    lefts: &'a [u16; 1024],
    darts: usize,
    first: usize,
    roots: &mut [u16; 1024],
) -> usize
    requires { (length roots.old ≡ 1024) × (darts ≤ 1024)
        × (darts % 2 ≡ 0) × (first < darts) × ((d : ℕ) → d < darts → at rotations.now d < darts) }
    ensures { (length roots.new ≡ 1024)
        × RootsOf darts (at rotations.now) first (at lefts.now) (at roots.new) result }
{
    let mut order = [0u16; 1024];
    let mut from = [0u16; 1024];
    let trees = spread_all(rotations, darts, first, &mut order, &mut from);
    first_faces(rotations, lefts, &order, &from, darts, first, trees, roots);
    trees
}
