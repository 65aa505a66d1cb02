// The sheet checks 9 to 12 on a map given by two arrays: the tail of each dart, and its rotation (the paper's "turn").
// Each is decided in work that grows as the number of darts, and check 12 leaves the faces numbered in order of their lowest darts.
#![tactic(auto)]

ghost use Rattle.std.specs.Prelude.{◌≡◌, ℕ, ◌+◌, ◌*◌, ◌<◌, ◌≤◌, length, MatchOption};
ghost use Rattle.refusals.specs.Order.{Decides};
ghost use Rattle.maps.specs.Orbit.{orbits, orbit_of, Permutes};
ghost use Rattle.maps.specs.Walk.{Components};
ghost use Rattle.maps.specs.Check.{InRange, RotationFault, NodeFault, Sound};
ghost use Rattle.arrays.specs.At.{at};
ghost use Rattle.arrays.specs.Maps.{map_of, right_of};
ghost use Rattle.traversal.specs.inner.Mark.{unmarked};
ghost use Rattle.traversal.specs.inner.Forest.{Forest};
ghost use Rattle.traversal.specs.inner.FirstCome.{FirstCome};
ghost use Rattle.grouping.specs.Grouped.{Grouped};
ghost use Rattle.grouping.specs.inner.InRounds.{Rounded, InRounds};
ghost use Rattle.grouping.specs.inner.Walked.{Walked};
ghost use Rattle.rotations.specs.inner.Holding.{holding};
ghost use Rattle.rotations.specs.inner.Marking.{Markable, Marked};
ghost use Rattle.rotations.specs.inner.Laying.{step_of, Laid};
ghost use Rattle.rotations.specs.inner.Register.{Entered};
ghost use Rattle.rotations.specs.inner.Passing.{IfPassed};
ghost use Rattle.rotations.specs.MapChecks.{MapJudged};

use arrays::{narrow, wide};
use refusals::{Refusal, refused};

// The label of a place that has no number yet. Numbers stay below 1,024.
const UNMARKED: u16 = 65535;

// Orbits of a step on 0, .., n - 1: rounds of the rotation around nodes, and rounds of the face step around faces.

// Gives every place of the orbit of `start` this number. It ends because each step leads to a place that has no number yet, until it is back at `start`.
fn mark_orbit(next: &[u16; 1024], n: usize, start: usize, number: u16, label: &mut [u16; 1024])
    requires { (length label.old ≡ 1024) × Markable n (at next.now) (at label.old) start number }
    ensures { (length label.new ≡ 1024) × Marked n (at next.now) (at label.old) (at label.new) start number }
{
    let mut x = start;
    // A loop with no count: it walks along the orbit until it is back at the start.
    loop {
        label[x] = number;
        x = wide(next[x]);
        if x == start {
            break;
        }
    }
}

// Numbers the orbits from 0 in order of their lowest members, and says how many they are. The first place of an orbit that the loop meets is its lowest.
fn number_orbits(next: &[u16; 1024], n: usize, label: &mut [u16; 1024]) -> usize
    requires { (length label.old ≡ 1024) × (n ≤ 1024) × Permutes n (at next.now) }
    ensures { (length label.new ≡ 1024) × (result ≡ orbits n (at next.now))
        × ((d : ℕ) → d < n → at label.new d ≡ orbit_of n (at next.now) d) }
{
    traversal::unmark_all(label);
    let mut f: usize = 0;
    for d in 0..n {
        if label[d] == UNMARKED {
            mark_orbit(next, n, d, narrow(f), label);
            f += 1;
        }
    }
    f
}

// Check 9: "a turn has another tail, or two darts have one turn". `origin` holds, for each dart met as a rotation, 1 more than the dart that it follows.
fn rotation_fault<'a>(
    tails: &'a [u16; 1024],
    rotations: &'a [u16; 1024],
    nodes: usize,
    edges: usize,
) -> bool
    requires { (edges ≤ 512) × ((d : ℕ) → d < 2 * edges → at rotations.now d < 2 * edges) }
    ensures { Decides (RotationFault (map_of nodes edges tails.now rotations.now)) result }
{
    let darts = 2 * edges;
    let mut origin = [0u16; 1024];
    for d in 0..darts {
        let t = wide(rotations[d]);
        if tails[t] != tails[d] || origin[t] != 0 {
            return true;
        }
        origin[t] = narrow(d + 1);
    }
    false
}

// Enters each place's value under its key, and says whether two places of one key have two values.
fn enter_all<'a>(
    keys: &'a [u16; 1024],
    values: &'a [u16; 1024],
    n: usize,
    table: &mut [u16; 1024],
) -> bool
    requires { (n ≤ 1024) × (length table.old ≡ 1024) × ((k : ℕ) → at table.old k ≡ 0)
        × ((d : ℕ) → d < n → at keys.now d < 1024) × ((d : ℕ) → d < n → at values.now d < 1024) }
    ensures { (length table.new ≡ 1024) × Entered (at keys.now) (at values.now) (at table.new) n result }
{
    for d in 0..n {
        let k = wide(keys[d]);
        let entry = wide(values[d]) + 1;
        let old = wide(table[k]);
        if old == 0 {
            table[k] = narrow(entry);
        } else if old != entry {
            return true;
        }
    }
    false
}

// Whether some key has no entry.
fn some_empty(table: &[u16; 1024], n: usize) -> bool
    requires { n ≤ 1024 }
    ensures { Decides ((k : ℕ) × (k < n) × (at table.now k ≡ 0)) result }
{
    table[0..n].contains(&0)
}

// Check 10: "some node's darts do not form exactly one round, or it has none". Each node is entered with the round of its darts. `round` and `owner` are lent
// for the work: what they hold before and after does not matter.
fn node_fault<'a>(
    tails: &'a [u16; 1024],
    rotations: &'a [u16; 1024],
    nodes: usize,
    edges: usize,
    round: &mut [u16; 1024],
    owner: &mut [u16; 1024],
) -> bool
    requires { (edges ≤ 512) × (nodes ≤ 1024) × InRange (map_of nodes edges tails.now rotations.now)
        × (RotationFault (map_of nodes edges tails.now rotations.now) → ⊥) × (length round.old ≡ 1024) }
    ensures { Decides (NodeFault (map_of nodes edges tails.now rotations.now)) result
        × (length round.new ≡ 1024) × (length owner.new ≡ 1024) }
{
    let darts = 2 * edges;
    number_orbits(rotations, darts, &mut *round);
    owner.fill(0);
    if enter_all(tails, &*round, darts, &mut *owner) {
        return true;
    }
    some_empty(&*owner, nodes)
}

// Faces: rounds of the face step. "The face step of a dart is the turn of its reverse."

// Gives every dart of the face of `start` this number, and lays their reverses, whose right face it is, into the places of `grouped` before `end`, the last
// place first. Answers the place of the last one laid.
fn mark_face(
    rotations: &[u16; 1024],
    edges: usize,
    start: usize,
    number: u16,
    lefts: &mut [u16; 1024],
    grouped: &mut [u16; 1024],
    end: usize,
) -> usize
    requires { (length lefts.old ≡ 1024) × (length grouped.old ≡ 1024)
        × Markable (2 * edges) (step_of rotations.now) (at lefts.old) start number
        × (end ≡ holding unmarked (2 * edges) (at lefts.old)) × (end ≤ 2 * edges) }
    ensures { (length lefts.new ≡ 1024) × (length grouped.new ≡ 1024)
        × Marked (2 * edges) (step_of rotations.now) (at lefts.old) (at lefts.new) start number
        × Laid (2 * edges) (step_of rotations.now) (at grouped.old) (at grouped.new) start result end
        × (result ≡ holding unmarked (2 * edges) (at lefts.new))
        × Rounded (step_of rotations.now) (at grouped.new) start result end }
{
    let mut x = start;
    let mut begin = end;
    // A loop with no count: it walks along the face until it is back at the start.
    loop {
        lefts[x] = number;
        let back = arrays::reverse(x);
        begin -= 1;
        grouped[begin] = narrow(back);
        x = wide(rotations[back]);
        if x == start {
            break;
        }
    }
    begin
}

// Numbers the faces from 0 in order of their lowest darts, and says how many they are. The darts of a face are met together: so they are grouped by the face
// right of them at once, the groups from the last place down, and no dart is looked at behind the last face's lowest. The search crosses a face's darts in the
// order of its group: against the face's round it has been seen to settle sooner than along it.
fn number_faces(
    rotations: &[u16; 1024],
    edges: usize,
    lefts: &mut [u16; 1024],
    grouped: &mut [u16; 1024],
    starts: &mut [u16; 1024],
) -> usize
    requires { (edges ≤ 512) × (length lefts.old ≡ 1024) × (length grouped.old ≡ 1024) × (length starts.old ≡ 1024)
        × Permutes (2 * edges) (step_of rotations.now) }
    ensures { (length lefts.new ≡ 1024) × (length grouped.new ≡ 1024)
        × (length starts.new ≡ 1024)
        × (result ≡ orbits (2 * edges) (step_of rotations.now))
        × ((d : ℕ) → d < 2 * edges → at lefts.new d ≡ orbit_of (2 * edges) (step_of rotations.now) d)
        × Grouped (right_of lefts.new) (2 * edges) result grouped.new starts.new
        × InRounds (2 * edges) (step_of rotations.now) result (at grouped.new) (at starts.new) }
{
    let darts = 2 * edges;
    traversal::unmark_all(lefts);
    let mut f: usize = 0;
    let mut free = darts;
    let mut next: usize = 0;
    // A while loop: it ends with the last face, before it has looked at every dart.
    while 0 < free {
        let d = next;
        next += 1;
        if lefts[d] == UNMARKED {
            free = mark_face(rotations, edges, d, narrow(f), lefts, grouped, free);
            starts[f] = narrow(free);
            f += 1;
        }
    }
    f
}

// How many faces and parts a map has that passed the checks.
#[derive(Clone, Copy, Debug, PartialEq, Eq)]
pub struct Counted {
    pub faces: usize,
    pub parts: usize,
}

// Check 12, of a map that is sound. Flatness in each part is a matter of the totals (document 02, Job 8): nodes − channels + faces = 2 · parts. `tails` is
// named by the contract only.
fn check_flat<'a>(
    tails: &'a [u16; 1024],
    rotations: &'a [u16; 1024],
    nodes: usize,
    edges: usize,
    parts: usize,
    lefts: &mut [u16; 1024],
    grouped: &mut [u16; 1024],
    starts: &mut [u16; 1024],
) -> Result<Counted, Refusal>
    requires { (edges ≤ 512) × (nodes ≤ 1024) × (length lefts.old ≡ 1024) × (length grouped.old ≡ 1024)
        × (length starts.old ≡ 1024) × Sound (map_of nodes edges tails.now rotations.now)
        × (parts ≤ 2 * edges) × ((part : ℕ → ℕ) × Components (map_of nodes edges tails.now rotations.now) parts part) }
    ensures { (length lefts.new ≡ 1024) × (length grouped.new ≡ 1024)
        × (length starts.new ≡ 1024)
        × MapJudged (map_of nodes edges tails.now rotations.now) (at lefts.new) result
        × IfPassed result (λ c. (c.parts ≡ parts)
        × Grouped (right_of lefts.new) (2 * edges) c.faces grouped.new starts.new
        × InRounds (2 * edges) (step_of rotations.now) c.faces
        (at grouped.new) (at starts.new)) }
{
    let faces = number_faces(rotations, edges, lefts, grouped, starts);
    if nodes + faces != edges + 2 * parts {
        return refused(12);
    }
    Ok(Counted { faces, parts })
}

// Walks over all darts from `outer` on, part by part, and answers how many parts there are; none where the darts of some node are not one round, or it has
// none: then 9 or 10 holds, and which of them is not told. `owner` is lent for the work, all zeros.
fn walk_nodes<'a>(
    tails: &'a [u16; 1024],
    rotations: &'a [u16; 1024],
    nodes: usize,
    edges: usize,
    outer: usize,
    order: &mut [u16; 1024],
    from: &mut [u16; 1024],
    owner: &mut [u16; 1024],
) -> Option<usize>
    requires { (edges ≤ 512) × (nodes ≤ 1024) × (outer < 2 * edges) × (length order.old ≡ 1024) × (length from.old ≡ 1024)
        × InRange (map_of nodes edges tails.now rotations.now) × (length owner.old ≡ 1024) × ((v : ℕ) → at owner.old v ≡ 0) }
    ensures { (length order.new ≡ 1024) × (length from.new ≡ 1024)
        × MatchOption result (Sound (map_of nodes edges tails.now rotations.now) → ⊥)
        (λ parts. Sound (map_of nodes edges tails.now rotations.now)
        × Forest (2 * edges) (at rotations.now) outer (at order.new) (at from.new) parts
        × FirstCome (at rotations.now) outer (at order.new) (at from.new) (2 * edges))
        × (length owner.new ≡ 1024) }
{
    let darts = 2 * edges;
    let trees = traversal::spread_rounds(tails, rotations, darts, outer, order, from, &mut *owner)?;
    if some_empty(&*owner, nodes) {
        return None;
    }
    Some(trees)
}

// The checks 9, 10 and 12 one by one, for the number of the first that holds, of a map that is not sound.
fn check_in_turn<'a>(
    tails: &'a [u16; 1024],
    rotations: &'a [u16; 1024],
    nodes: usize,
    edges: usize,
    outer: usize,
    lefts: &mut [u16; 1024],
    order: &mut [u16; 1024],
    from: &mut [u16; 1024],
    grouped: &mut [u16; 1024],
    starts: &mut [u16; 1024],
) -> Result<Counted, Refusal>
    requires { (edges ≤ 512) × (nodes ≤ 1024) × (outer < 2 * edges) × (length lefts.old ≡ 1024) × (length order.old ≡ 1024)
        × (length from.old ≡ 1024) × (length grouped.old ≡ 1024) × (length starts.old ≡ 1024)
        × InRange (map_of nodes edges tails.now rotations.now) × (Sound (map_of nodes edges tails.now rotations.now) → ⊥) }
    ensures { (length lefts.new ≡ 1024) × (length order.new ≡ 1024) × (length from.new ≡ 1024)
        × (length grouped.new ≡ 1024) × (length starts.new ≡ 1024)
        × MapJudged (map_of nodes edges tails.now rotations.now) (at lefts.new) result
        × IfPassed result (λ c. Walked (2 * edges) c.faces outer c.parts (at rotations.now) lefts.new
        order.new from.new grouped.new starts.new) }
{
    if rotation_fault(tails, rotations, nodes, edges) {
        return refused(9);
    }
    if node_fault(tails, rotations, nodes, edges, &mut *grouped, &mut *starts) {
        return refused(10);
    }
    let parts = traversal::spread_all(rotations, 2 * edges, outer, order, from);
    check_flat(
        tails, rotations, nodes, edges, parts, lefts, grouped, starts,
    )
}

// The checks 9, 10 and 12 in order, of a map that the checks 3 to 5 left in range. One walk over the darts, from `outer` on, decides at once that neither 9 nor
// 10 holds. `lefts` is all zeros before. Where all pass, it holds the face at the left of each dart, and the other arrays the walk and the darts in groups.
pub fn check_map<'a>(
    tails: &'a [u16; 1024],
    rotations: &'a [u16; 1024],
    nodes: usize,
    edges: usize,
    outer: usize,
    lefts: &mut [u16; 1024],
    order: &mut [u16; 1024],
    from: &mut [u16; 1024],
    grouped: &mut [u16; 1024],
    starts: &mut [u16; 1024],
) -> Result<Counted, Refusal>
    requires { (edges ≤ 512) × (nodes ≤ 1024) × (outer < 2 * edges) × (length lefts.old ≡ 1024) × (length order.old ≡ 1024)
        × (length from.old ≡ 1024) × (length grouped.old ≡ 1024) × (length starts.old ≡ 1024)
        × InRange (map_of nodes edges tails.now rotations.now) × ((d : ℕ) → at lefts.old d ≡ 0) }
    ensures { (length lefts.new ≡ 1024) × (length order.new ≡ 1024) × (length from.new ≡ 1024)
        × (length grouped.new ≡ 1024) × (length starts.new ≡ 1024)
        × MapJudged (map_of nodes edges tails.now rotations.now) (at lefts.new) result
        × IfPassed result (λ c. Walked (2 * edges) c.faces outer c.parts (at rotations.now) lefts.new
        order.new from.new grouped.new starts.new) }
{
    let Some(parts) = walk_nodes(
        tails,
        rotations,
        nodes,
        edges,
        outer,
        order,
        from,
        &mut *lefts,
    ) else {
        return check_in_turn(
            tails, rotations, nodes, edges, outer, lefts, order, from, grouped, starts,
        );
    };
    check_flat(
        tails, rotations, nodes, edges, parts, lefts, grouped, starts,
    )
}
