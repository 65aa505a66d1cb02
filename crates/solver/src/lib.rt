// The solver: decides whether a value can be carried from a source to a sink of a plane map held in arrays. It gives the highest flow, or the nodes of a
// proving set.
//
// The walk over the darts and the groups of darts by faces were made when the drawing was opened. All other arrays belong to a step, and none is kept longer.
// Lengths and heights are made of ones, which nobody reads: of zeros the compiler makes a call of memset, which for 4 KiB takes an instruction for each byte.
#![tactic(auto)]

ghost use Rattle.std.specs.Prelude.{◌≡◌, false, List, [], ℕ, ◌*◌, ◌<◌, ◌≤◌, length, take, ℤ, pos, ◌<ℤ◌};
ghost use Rattle.integers.specs.inner.Limited.{Limited};
ghost use Rattle.maps.specs.Check.{Sound};
ghost use Rattle.maps.specs.Cut.{cut};
ghost use Rattle.lengths.specs.inner.Lengths.{Treed};
ghost use Rattle.arrays.specs.At.{at, atℤ};
ghost use Rattle.traversal.specs.inner.Forest.{Forest, RootsOf, RootsHere};
ghost use Rattle.search.specs.Dual.{dual_of};
ghost use Rattle.search.specs.Given.{given};
ghost use Rattle.search.specs.Trace.{Searches};
ghost use Rattle.solver.specs.inner.Lent.{Lent, LentRoots, LentSearch, LentWalk};
ghost use Rattle.arrays.specs.Maps.{map_of, right_of};
ghost use Rattle.arrays.specs.inner.Sizes.{most_capacity, most_value};
ghost use Rattle.solver.specs.inner.Search.{PartFlagged, Measured, Searched, Ringed};
ghost use Rattle.solver.specs.inner.Decision.{Decided};
ghost use Rattle.solver.specs.inner.Named.{MeasuredBy, MadeOfRing, Named};
ghost use Rattle.arrays.specs.inner.Flags.{flagged};

use arrays::{Demand, Sizes};
use search::Ring;

// Flags the nodes of the part that the dart d is in.
fn flag_part(
    tails: &[u16; 1024],
    rotations: &[u16; 1024],
    nodes: usize,
    edges: usize,
    d: usize,
    inside: &mut [u8; 1024],
)
    requires { (length inside.old ≡ 1024) × (edges ≤ 512) × (nodes ≤ 1024) × (d < 2 * edges) × Sound (map_of nodes edges tails.now rotations.now) }
    ensures { (length inside.new ≡ 1024)
        × PartFlagged (map_of nodes edges tails.now rotations.now) d (flagged inside.new) }
{
    let mut order = [0u16; 1024];
    let mut from = [0u16; 1024];
    traversal::spread(rotations, 2 * edges, d, &mut order, &mut from);
    traversal::flag_met(tails, &from, 2 * edges, inside);
}

// The lengths of the darts for a value, along the path through the trees of the walk from `start`, a dart at the source, to `finish`, a dart at the sink. Where
// the two are in different trees, source and sink are in different parts (document 02, Job 8): a value of 0 leaves the capacities as lengths; any other is
// impossible. Answers whether it is, with the source's part flagged for a value above 0, the sink's part for one below.
fn cut_apart(
    tails: &[u16; 1024],
    rotations: &[u16; 1024],
    capacities: &[i32; 1024],
    order: &[u16; 1024],
    from: &[u16; 1024],
    nodes: usize,
    edges: usize,
    start: usize,
    finish: usize,
    value: i32,
    lengths: &mut [i32; 1024],
    inside: &mut [u8; 1024],
) -> bool
    requires { (length lengths.old ≡ 1024) × (length inside.old ≡ 1024) × (edges ≤ 512) × (nodes ≤ 1024) × (start < 2 * edges) × (finish < 2 * edges)
        × Treed (map_of nodes edges tails.now rotations.now) (2 * edges) (at order.now) (at from.now)
        × ((d : ℕ) → d < 2 * edges → Limited most_capacity (atℤ capacities.now d)) × Limited most_value value }
    ensures { (length lengths.new ≡ 1024) × (length inside.new ≡ 1024)
        × Measured (map_of nodes edges tails.now rotations.now) (at tails.now start) (at tails.now finish)
        (atℤ capacities.now) value (atℤ lengths.new) inside.new result
        × MeasuredBy (map_of nodes edges tails.now rotations.now) start finish (at from.now)
        (atℤ capacities.now) value (atℤ lengths.new) (flagged inside.new) result }
{
    if lengths::fill_lengths(
        capacities,
        order,
        from,
        2 * edges,
        start,
        finish,
        value,
        lengths,
    ) {
        return false;
    }
    if value > 0 {
        flag_part(tails, rotations, nodes, edges, start, inside);
        return true;
    }
    if value < 0 {
        flag_part(tails, rotations, nodes, edges, finish, inside);
        return true;
    }
    false
}

// Searches from the roots, which stand at the first places of the queue, and from the parents as they stand; where the potentials settle, writes the flows that
// they make. Where there is a ring, answers the dart that closes it, and the parents lead round it.
fn settle(
    lefts: &[u16; 1024],
    capacities: &[i32; 1024],
    lengths: &[i32; 1024],
    grouped: &[u16; 1024],
    starts: &[u16; 1024],
    edges: usize,
    faces: usize,
    roots: usize,
    parents: &mut [u16; 1024],
    queue: &mut [u16; 1024],
    flows: &mut [i32],
) -> Result<(), Ring>
    requires { LentSearch lefts.now capacities.now lengths.now grouped.now starts.now edges faces roots parents.old queue.old flows.old }
    ensures { (length parents.new ≡ 1024)
        × Searched (dual_of lefts.now lengths.now (2 * edges) faces (take roots queue.old)) edges
        (atℤ capacities.now)
        flows.old flows.new (at parents.new) result
        × ((ρ : List ℤ) × Searches (given lefts.now lengths.now grouped.now starts.now
        (2 * edges) faces) queue.old roots parents.old ρ parents.new result) }
{
    // What the search begins with: no face has a level, and none waits.
    let mut potentials = [2000000000000000i64; 1024];
    let mut waiting = [0u8; 1024];
    let searched = search::search(
        lefts,
        lengths,
        grouped,
        starts,
        2 * edges,
        faces,
        roots,
        &mut potentials,
        &mut *parents,
        &mut waiting,
        &mut *queue,
    );
    if searched.is_ok() {
        edge_flows::fill_flows(lefts, capacities, lengths, &potentials, edges, flows);
    }
    searched
}

// Searches from the faces at 0, which are read off the walk; likewise. The queue with these faces is kept here, so that the steps behind the search may lie
// over it on the stack.
fn settle_all<'a>(
    rotations: &'a [u16; 1024],
    lefts: &'a [u16; 1024],
    capacities: &'a [i32; 1024],
    lengths: &'a [i32; 1024],
    order: &'a [u16; 1024],
    from: &'a [u16; 1024],
    grouped: &'a [u16; 1024],
    starts: &'a [u16; 1024],
    sizes: Sizes,
    parents: &mut [u16; 1024],
    flows: &mut [i32],
) -> Result<(), Ring>
    requires { LentWalk sizes rotations.now lefts.now capacities.now lengths.now order.now from.now grouped.now starts.now parents.old
        flows.old }
    ensures { (length parents.new ≡ 1024)
        × ((queue : List ℕ) × (length queue ≡ 1024)
        × RootsOf (2 * sizes.edges) (at rotations.now) sizes.outer (at lefts.now) (at queue) sizes.parts
        × Searched (dual_of lefts.now lengths.now (2 * sizes.edges) sizes.faces (take sizes.parts queue)) sizes.edges
        (atℤ capacities.now) flows.old flows.new (at parents.new) result
        × RootsHere (2 * sizes.edges) (at rotations.now) sizes.outer (at lefts.now) (at order.now) (at from.now)
        (λ i. 0) (at queue) sizes.parts
        × ((ρ : List ℤ) × Searches (given lefts.now lengths.now grouped.now starts.now
        (2 * sizes.edges) sizes.faces) queue sizes.parts parents.old ρ parents.new result)) }
{
    let mut queue = [0u16; 1024];
    traversal::first_faces(
        rotations,
        lefts,
        order,
        from,
        2 * sizes.edges,
        sizes.outer,
        sizes.parts,
        &mut queue,
    );
    settle(
        lefts,
        capacities,
        lengths,
        grouped,
        starts,
        sizes.edges,
        sizes.faces,
        sizes.parts,
        parents,
        &mut queue,
        flows,
    )
}

// Flags nodes whose cut of the lengths is below zero, from the ring that the parents lead round from the face y: its winding, heights of the nodes, a
// threshold.
fn cut_of_ring(
    tails: &[u16; 1024],
    rotations: &[u16; 1024],
    lefts: &[u16; 1024],
    lengths: &[i32; 1024],
    order: &[u16; 1024],
    from: &[u16; 1024],
    parents: &[u16; 1024],
    nodes: usize,
    edges: usize,
    faces: usize,
    y: usize,
    inside: &mut [u8; 1024],
)
    requires { (length inside.old ≡ 1024)
        × Treed (map_of nodes edges tails.now rotations.now) (2 * edges) (at order.now) (at from.now)
        × Ringed (map_of nodes edges tails.now rotations.now) (dual_of lefts.now lengths.now (2 * edges) faces []) (at parents.now) y }
    ensures { (length inside.new ≡ 1024)
        × (cut (map_of nodes edges tails.now rotations.now) (atℤ lengths.now) (flagged inside.new) <ℤ pos 0)
        × MadeOfRing (map_of nodes edges tails.now rotations.now) (right_of lefts.now) (atℤ lengths.now)
        (at order.now) (at from.now) (at parents.now) y (flagged inside.new) }
{
    let mut winding = [0i16; 1024];
    windings::fill_winding(lefts, parents, 2 * edges, y, &mut winding);
    let mut heights = [1i32; 1024];
    heights::fill_heights(tails, order, from, 2 * edges, &winding, &mut heights);
    thresholds::choose_set(tails, lengths, &heights, nodes, 2 * edges, inside);
}

// Decides one value from a source to a sink, with the face of the outer dart at 0 and the lowest face of each other part: true with the highest flow written,
// false with the nodes of a proving set flagged, which follows from the drawing, the question and the parents proposed (`Named`). The walk over the darts and
// their groups by faces are those of the open drawing. The search begins from `parents` as they stand, any array, and leaves its own there: a later decision on
// the same drawing may begin from those. 1024 everywhere proposes none.
pub fn decide<'a>(
    tails: &'a [u16; 1024],
    rotations: &'a [u16; 1024],
    lefts: &'a [u16; 1024],
    capacities: &'a [i32; 1024],
    order: &'a [u16; 1024],
    from: &'a [u16; 1024],
    grouped: &'a [u16; 1024],
    starts: &'a [u16; 1024],
    sizes: Sizes,
    demand: Demand,
    parents: &mut [u16; 1024],
    flows: &mut [i32],
    inside: &mut [u8; 1024],
) -> bool
    requires { Lent sizes demand.source demand.sink tails.now rotations.now lefts.now capacities.now order.now from.now grouped.now
        starts.now flows.old × Limited most_value demand.value × (length parents.old ≡ 1024) × (length inside.old ≡ 1024) }
    ensures { (length inside.new ≡ 1024)
        × Decided (map_of sizes.nodes sizes.edges tails.now rotations.now) sizes.outer (atℤ capacities.now)
        demand.source demand.sink demand.value flows.old flows.new inside.new result
        × (length parents.new ≡ 1024)
        × (result ≡ false → Named (map_of sizes.nodes sizes.edges tails.now rotations.now) sizes.outer (atℤ capacities.now)
        demand.source demand.sink demand.value parents.old (flagged inside.new)) }
{
    let start = traversal::dart_at(tails, 2 * sizes.edges, demand.source);
    let finish = traversal::dart_at(tails, 2 * sizes.edges, demand.sink);
    let mut lengths = [1i32; 1024];
    if cut_apart(
        tails,
        rotations,
        capacities,
        order,
        from,
        sizes.nodes,
        sizes.edges,
        start,
        finish,
        demand.value,
        &mut lengths,
        &mut *inside,
    ) {
        return false;
    }
    let settled = settle_all(
        rotations,
        lefts,
        capacities,
        &lengths,
        order,
        from,
        grouped,
        starts,
        sizes,
        &mut *parents,
        flows,
    );
    if let Err(ring) = settled {
        let y = arrays::wide(lefts[ring.dart]);
        cut_of_ring(
            tails,
            rotations,
            lefts,
            &lengths,
            order,
            from,
            &*parents,
            sizes.nodes,
            sizes.edges,
            sizes.faces,
            y,
            inside,
        );
        return false;
    }
    true
}

// The faces at 0 of the drawing with `first` as its outer dart, into the first places of the queue, and how many they are. Those of its own outer dart are read
// off the walk; any other takes a walk of its own.
fn fill_roots<'a>(
    rotations: &'a [u16; 1024],
    lefts: &'a [u16; 1024],
    order: &'a [u16; 1024],
    from: &'a [u16; 1024],
    sizes: Sizes,
    first: usize,
    queue: &mut [u16; 1024],
) -> usize
    requires { (length queue.old ≡ 1024) × (sizes.edges ≤ 512) × (first < 2 * sizes.edges)
        × ((d : ℕ) → d < 2 * sizes.edges → at rotations.now d < 2 * sizes.edges)
        × Forest (2 * sizes.edges) (at rotations.now) sizes.outer (at order.now) (at from.now) sizes.parts }
    ensures { (length queue.new ≡ 1024)
        × RootsOf (2 * sizes.edges) (at rotations.now) first (at lefts.now) (at queue.new) result }
{
    if first == sizes.outer {
        traversal::first_faces(
            rotations,
            lefts,
            order,
            from,
            2 * sizes.edges,
            sizes.outer,
            sizes.parts,
            queue,
        );
        return sizes.parts;
    }
    traversal::roots_of(rotations, lefts, 2 * sizes.edges, first, queue)
}

// Decides as `decide` does, of the drawing with another outer dart than its own, which `sizes` has: its faces at 0 stand at the first places of the queue, one
// for each part. The outer dart is named by the contract only.
fn decide_at<'a>(
    tails: &'a [u16; 1024],
    rotations: &'a [u16; 1024],
    lefts: &'a [u16; 1024],
    capacities: &'a [i32; 1024],
    order: &'a [u16; 1024],
    from: &'a [u16; 1024],
    grouped: &'a [u16; 1024],
    starts: &'a [u16; 1024],
    sizes: Sizes,
    demand: Demand,
    queue: &mut [u16; 1024],
    flows: &mut [i32],
    inside: &mut [u8; 1024],
) -> bool
    requires { LentRoots sizes demand.source demand.sink tails.now rotations.now lefts.now capacities.now order.now from.now grouped.now
        starts.now queue.old flows.old × Limited most_value demand.value × (length queue.old ≡ 1024) × (length inside.old ≡ 1024) }
    ensures { (length inside.new ≡ 1024)
        × Decided (map_of sizes.nodes sizes.edges tails.now rotations.now) sizes.outer (atℤ capacities.now)
        demand.source demand.sink demand.value flows.old flows.new inside.new result }
{
    let start = traversal::dart_at(tails, 2 * sizes.edges, demand.source);
    let finish = traversal::dart_at(tails, 2 * sizes.edges, demand.sink);
    let mut lengths = [1i32; 1024];
    if cut_apart(
        tails,
        rotations,
        capacities,
        order,
        from,
        sizes.nodes,
        sizes.edges,
        start,
        finish,
        demand.value,
        &mut lengths,
        &mut *inside,
    ) {
        return false;
    }
    let mut parents = [1024u16; 1024];
    let settled = settle(
        lefts,
        capacities,
        &lengths,
        grouped,
        starts,
        sizes.edges,
        sizes.faces,
        sizes.parts,
        &mut parents,
        queue,
        flows,
    );
    if let Err(ring) = settled {
        let y = arrays::wide(lefts[ring.dart]);
        cut_of_ring(
            tails,
            rotations,
            lefts,
            &lengths,
            order,
            from,
            &parents,
            sizes.nodes,
            sizes.edges,
            sizes.faces,
            y,
            inside,
        );
        return false;
    }
    true
}

// Decides as `decide` does, of the drawing with `first` as its outer dart: the face left of it is at 0 in its part, in each other part the lowest. So the flow
// on `first`, written where the value can be carried, is the least with which it can: its capacity less its length and the distance back, from the face left of
// it to the face right of it (`LeastLength`). It has several callers, so that its arrays are not kept below another decision on the stack.
pub fn decide_from<'a>(
    tails: &'a [u16; 1024],
    rotations: &'a [u16; 1024],
    lefts: &'a [u16; 1024],
    capacities: &'a [i32; 1024],
    order: &'a [u16; 1024],
    from: &'a [u16; 1024],
    grouped: &'a [u16; 1024],
    starts: &'a [u16; 1024],
    sizes: Sizes,
    first: usize,
    demand: Demand,
    flows: &mut [i32],
    inside: &mut [u8; 1024],
) -> bool
    requires { Lent sizes demand.source demand.sink tails.now rotations.now lefts.now capacities.now order.now from.now grouped.now
        starts.now flows.old × Limited most_value demand.value × (first < 2 * sizes.edges) × (length inside.old ≡ 1024) }
    ensures { (length inside.new ≡ 1024)
        × Decided (map_of sizes.nodes sizes.edges tails.now rotations.now) first (atℤ capacities.now)
        demand.source demand.sink demand.value flows.old flows.new inside.new result }
{
    let mut queue = [0u16; 1024];
    let roots = fill_roots(rotations, lefts, order, from, sizes, first, &mut queue);
    decide_at(
        tails,
        rotations,
        lefts,
        capacities,
        order,
        from,
        grouped,
        starts,
        Sizes {
            parts: roots,
            outer: first,
            ..sizes
        },
        demand,
        &mut queue,
        flows,
        inside,
    )
}
