// The largest value that can be carried from a source to a sink, with its highest flow and a set around the source whose cut it is (maximum flow, minimum cut:
// Ford and Fulkerson 1956); or that no value can be, with a set beside both ends whose cut is below zero.
// Two bounds close in: above, the cut of a set around the source, at first the least of those that spread from it (`pivots::spread`); below, a value that is
// carried, or the negative of the cut of a set around the sink. Each probe decides one value by the search over the faces (`solver::decide`; a flow of a plane
// map is a shortest path problem of its dual: Hassin 1981, Miller and Naor 1995), from the tree of the faces as the step before left it. A value that is
// carried is the low bound, and pivots lower the high one: trees of faces and nodes exchange an edge wherever a dart is full, until the full darts are a cut
// (`pivots::propose`; Erickson 2010). A value that cannot be carried has a proving set, which moves a bound or shows that there is nothing. Bounds that meet
// are the answer; where they pass each other, the union or the intersection of their two sets shows that there is nothing.
// Cost: one decision where the first bound is probed and is the answer, two or three where the pivots find it. After the first three probes the middle of the
// bounds is probed at least every other time, so some 60 decisions do for any capacities. What a decision costs is said in `search`.
#![tactic(auto)]

ghost use Rattle.std.specs.Prelude.{◌≡◌, true, false, IfSome, ◌⊎◌, List, ℕ, ◌*◌, ◌%◌, ◌<◌, ◌≤◌, length, ℤ, pos, neg_ℤ, ◌≤ℤ◌, ◌<ℤ◌};
ghost use Rattle.integers.specs.inner.Limited.{Limited};
ghost use Rattle.flows.specs.Highest.{Highest};
ghost use Rattle.flows.specs.inner.Sides.{AtSource};
ghost use Rattle.arrays.specs.Filled.{filled};
ghost use Rattle.arrays.specs.At.{at, atℤ};
ghost use Rattle.cuts.specs.inner.Cut.{cut_of};
ghost use Rattle.node_flags.specs.inner.Flags.{Sided};
ghost use Rattle.arrays.specs.inner.Flags.{flagged};
ghost use Rattle.node_flags.specs.declared.Side.{Side};
ghost use Rattle.solver.specs.inner.Lent.{Lent};
ghost use Rattle.arrays.specs.Maps.{map_of};
ghost use Rattle.maximum.specs.inner.Bracket.{Closer};
ghost use Rattle.maximum.specs.inner.Narrowing.{Narrows, Lowers, Joins};
ghost use Rattle.maximum.specs.inner.Maximum.{Maximized};
ghost use Rattle.maximum.specs.inner.Probing.{Probes};
ghost use Rattle.maximum.specs.inner.Underway.{Underway, LentPivots};

use arrays::{Demand, Sizes, Terminals};
use node_flags::Side;

// Which value is probed next: the high bound, the one nearest to zero, the high bound again, or the middle of the two bounds.
#[derive(Clone, Copy, PartialEq, Eq)]
enum Next {
    High,
    Zero,
    Again,
    Middle,
}

// What is known between two probes: the two bounds, whether the low one is found, which means that it is carried, and which value is probed next. Found is a
// flag, as the low bound is a value either way.
#[derive(Clone, Copy)]
struct Bounds {
    low: i32,
    high: i32,
    found: bool,
    next: Next,
}

// A question that is not answered yet: its nodes, and the bounds of its answer.
#[derive(Clone, Copy)]
struct Pending {
    terminals: Terminals,
    bounds: Bounds,
}

// The two bounds after a proving set.
#[derive(Clone, Copy)]
struct Narrowed {
    low: i32,
    high: i32,
}

// The negative of a total of capacities.
pub fn negate(x: i32) -> i32
    requires { Limited 2048000000 x }
    ensures { result ≡ neg_ℤ x }
{
    -x
}

// The value nearest to zero between the bounds.
fn nearest_zero(low: i32, high: i32) -> i32
    requires { low ≤ℤ high }
    ensures { (low ≤ℤ result) × (result ≤ℤ high) }
{
    0i32.clamp(low, high)
}

// The middle of the two bounds, rounded up.
fn middle(low: i32, high: i32) -> i32
    requires { (low ≤ℤ high) × Limited 600000000 low × Limited 600000000 high }
    ensures { (low ≤ℤ result) × (result ≤ℤ high) × (low <ℤ high → low <ℤ result) }
{
    high - signed::halve(high - low)
}

// The value to probe next. The high bound is the answer if it is carried; the value nearest to zero is the likeliest to be carried, and no use once one is
// found; the middle halves what is left.
fn next_value(low: i32, high: i32, found: bool, next: Next) -> i32
    requires { (low ≤ℤ high) × Limited 600000000 low × Limited 600000000 high }
    ensures { (low ≤ℤ result) × (result ≤ℤ high) × (found ≡ true → low <ℤ high → low <ℤ result) }
{
    if next == Next::Middle {
        return middle(low, high);
    }
    if next == Next::Zero && !found {
        return nearest_zero(low, high);
    }
    high
}

// What is probed after a value that cannot be carried: the middle and the high bound in turn; before one is found, the value nearest to zero comes after the
// first of these.
fn next_after(next: Next, found: bool) -> Next {
    if found {
        return match next {
            Next::High => Next::Middle,
            Next::Zero => Next::High,
            Next::Again => Next::Middle,
            Next::Middle => Next::High,
        };
    }
    match next {
        Next::High => Next::Zero,
        Next::Zero => Next::Again,
        Next::Again => Next::Middle,
        Next::Middle => Next::Again,
    }
}

// Whether the bounds have met at a value that is carried.
fn finished(low: i32, high: i32, found: bool) -> bool
    ensures { (result ≡ true → (found ≡ true) × (low ≡ high)) × (result ≡ false → found ≡ true → low ≡ high → ⊥) }
{
    found && low == high
}

// Flags a set around the source to begin with, and answers whether its cut is likely to be the answer.
fn begin(
    tails: &[u16; 1024],
    rotations: &[u16; 1024],
    capacities: &[i32; 1024],
    edges: usize,
    source: usize,
    sink: usize,
    a: &mut [u8; 1024],
) -> bool
    requires { (length a.old ≡ 1024) × (edges ≤ 512) × (source < 1024) × (sink < 1024) × (source ≡ sink → ⊥)
        × ((d : ℕ) × (d < 2 * edges) × (at tails.now d ≡ source)) }
    ensures { (length a.new ≡ 1024) × AtSource source sink (flagged a.new) }
{
    let start = traversal::dart_at(tails, 2 * edges, source);
    let likely = pivots::spread(tails, rotations, capacities, sink, start, &mut *a);
    let side = node_flags::side_of(&*a, source, sink);
    if let Side::Source = side {
        return likely;
    }
    node_flags::flag_one(source, a);
    false
}

// The least that the negative of a cut can be: 512 edges at most, of a capacity of at most 1,000,000.
const LOWEST: i32 = -512000000;

// The bounds to begin with, where no value is known: the cut of the set a around the source, and the negative of the cut of the set b around the sink. Where
// the high bound is likely to be the answer it is probed first, and any low bound does.
fn first_bounds(
    tails: &[u16; 1024],
    capacities: &[i32; 1024],
    darts: usize,
    likely: bool,
    a: &[u8; 1024],
    b: &[u8; 1024],
) -> Bounds
    requires { (darts ≤ 1024) × (darts % 2 ≡ 0) × ((d : ℕ) → d < darts → at tails.now d < 1024)
        × ((d : ℕ) → d < darts → Limited 2000000 (atℤ capacities.now d)) }
    ensures { (result.found ≡ false)
        × (result.high ≡ cut_of darts (at tails.now) (atℤ capacities.now) (flagged a.now))
        × ((result.low ≡ neg_ℤ (pos 512000000))
        ⊎ (result.low ≡ neg_ℤ (cut_of darts (at tails.now) (atℤ capacities.now) (flagged b.now)))) }
{
    let high = cuts::capacity(tails, capacities, a, darts);
    if likely {
        return Bounds {
            low: LOWEST,
            high,
            found: false,
            next: Next::High,
        };
    }
    Bounds {
        low: negate(cuts::capacity(tails, capacities, b, darts)),
        high,
        found: false,
        next: Next::Zero,
    }
}

// What the flagged nodes, which prove a value impossible, do to the bounds: a set beside both ends shows that there is nothing between any. A set at the source
// is kept in a, one at the sink in b, and one beside both in a.
fn narrow_by(
    tails: &[u16; 1024],
    capacities: &[i32; 1024],
    inside: &[u8; 1024],
    darts: usize,
    source: usize,
    sink: usize,
    low: i32,
    high: i32,
    a: &mut [u8; 1024],
    b: &mut [u8; 1024],
) -> Option<Narrowed>
    requires { (length a.old ≡ 1024) × (length b.old ≡ 1024) × (source < 1024) × (sink < 1024) × (darts ≤ 1024) × (darts % 2 ≡ 0)
        × ((d : ℕ) → d < darts → at tails.now d < 1024) × ((d : ℕ) → d < darts → Limited 2000000 (atℤ capacities.now d)) }
    ensures { (length a.new ≡ 1024) × (length b.new ≡ 1024)
        × ((side : Side) × Sided source sink (flagged inside.now) side
        × Narrows (cut_of darts (at tails.now) (atℤ capacities.now) (flagged inside.now))
        low high inside.now a.old a.new b.old b.new result side) }
{
    let total = cuts::capacity(tails, capacities, inside, darts);
    match node_flags::side_of(inside, source, sink) {
        Side::Source => {
            node_flags::copy_flags(inside, a);
            Some(Narrowed { low, high: total })
        }
        Side::Sink => {
            node_flags::copy_flags(inside, b);
            Some(Narrowed {
                low: negate(total),
                high,
            })
        }
        Side::Beside => {
            node_flags::copy_flags(inside, a);
            None
        }
    }
}

// The high bound, lowered to the cut of the flagged nodes where they lie at the source and it is less: then they are kept in a.
fn lower(
    tails: &[u16; 1024],
    capacities: &[i32; 1024],
    inside: &[u8; 1024],
    darts: usize,
    source: usize,
    sink: usize,
    high: i32,
    a: &mut [u8; 1024],
) -> i32
    requires { (length a.old ≡ 1024) × (source < 1024) × (sink < 1024) × (darts ≤ 1024) × (darts % 2 ≡ 0)
        × ((d : ℕ) → d < darts → at tails.now d < 1024) × ((d : ℕ) → d < darts → Limited 2000000 (atℤ capacities.now d)) }
    ensures { (length a.new ≡ 1024)
        × Lowers source sink (cut_of darts (at tails.now) (atℤ capacities.now) (flagged inside.now))
        high result inside.now a.old a.new }
{
    let total = cuts::capacity(tails, capacities, inside, darts);
    let less = total < high;
    if less {
        if let Side::Source = node_flags::side_of(inside, source, sink) {
            node_flags::copy_flags(inside, a);
            return total;
        }
    }
    high
}

// Where no value is left between the cuts of a and b, the union or the intersection has a cut below zero: it is kept in a, and b is used up.
fn join(
    tails: &[u16; 1024],
    capacities: &[i32; 1024],
    darts: usize,
    a: &mut [u8; 1024],
    b: &mut [u8; 1024],
)
    requires { (length a.old ≡ 1024) × (length b.old ≡ 1024) × (darts ≤ 1024) × (darts % 2 ≡ 0)
        × ((d : ℕ) → d < darts → at tails.now d < 1024) × ((d : ℕ) → d < darts → Limited 2000000 (atℤ capacities.now d)) }
    ensures { (length a.new ≡ 1024)
        × Joins darts (at tails.now) (atℤ capacities.now) a.old a.new b.old }
{
    node_flags::either_and_both(&mut *a, &mut *b);
    let total = cuts::capacity(tails, capacities, &*a, darts);
    let below = total < 0;
    if !below {
        node_flags::copy_flags(&*b, a);
    }
}

// The high bound, lowered by a set that the pivots propose from the flows of the low one and from the tree of the faces that its search left; they leave
// their own tree there. It is called from two places, so that the compiler makes a function of it: its arrays then lie beside those of a decision on the stack,
// and not above them.
fn propose<'a>(
    tails: &'a [u16; 1024],
    lefts: &'a [u16; 1024],
    capacities: &'a [i32; 1024],
    sizes: Sizes,
    terminals: Terminals,
    low: i32,
    high: i32,
    flows: &[i32],
    parents: &mut [u16; 1024],
    a: &mut [u8; 1024],
) -> i32
    requires { LentPivots sizes terminals tails.now capacities.now flows.now parents.old a.old }
    ensures { (length parents.new ≡ 1024) × (length a.new ≡ 1024)
        × ((inside : List ℕ) × Lowers terminals.source terminals.sink
        (cut_of (2 * sizes.edges) (at tails.now) (atℤ capacities.now) (flagged inside))
        high result inside a.old a.new) }
{
    if low == high {
        return high;
    }
    let mut inside = [0u8; 1024];
    pivots::propose(
        tails,
        lefts,
        capacities,
        sizes.nodes,
        sizes.edges,
        sizes.faces,
        terminals.source,
        terminals.sink,
        flows,
        parents,
        &mut inside,
    );
    lower(
        tails,
        capacities,
        &inside,
        2 * sizes.edges,
        terminals.source,
        terminals.sink,
        high,
        a,
    )
}

// Probes the next value: decides it by the search, from the tree of the faces as it stands. If it is carried it is the low bound, and the pivots may lower the
// high one. If not, its proving set moves a bound or shows that there is nothing.
fn probe<'a>(
    tails: &'a [u16; 1024],
    rotations: &'a [u16; 1024],
    lefts: &'a [u16; 1024],
    capacities: &'a [i32; 1024],
    order: &'a [u16; 1024],
    from: &'a [u16; 1024],
    grouped: &'a [u16; 1024],
    starts: &'a [u16; 1024],
    sizes: Sizes,
    pending: Pending,
    flows: &mut [i32],
    parents: &mut [u16; 1024],
    a: &mut [u8; 1024],
    b: &mut [u8; 1024],
) -> Option<Bounds>
    requires { ((before : List ℤ)
        × Underway sizes pending tails.now rotations.now lefts.now capacities.now order.now from.now grouped.now starts.now
        before flows.old a.old b.old)
        × (length parents.old ≡ 1024) × (pending.bounds.low ≤ℤ pending.bounds.high)
        × (pending.bounds.found ≡ true → pending.bounds.low <ℤ pending.bounds.high) }
    ensures { (length parents.new ≡ 1024) × (length a.new ≡ 1024) × (length b.new ≡ 1024)
        × IfSome result (λ r. Closer pending.bounds.low pending.bounds.high pending.bounds.found r.low r.high r.found)
        × Probes (map_of sizes.nodes sizes.edges tails.now rotations.now) sizes.outer (atℤ capacities.now)
        pending.terminals.source pending.terminals.sink flows.old flows.new a.old a.new
        b.old b.new pending.bounds result }
{
    let terminals = pending.terminals;
    let Bounds {
        low,
        high,
        found,
        next,
    } = pending.bounds;
    let value = next_value(low, high, found, next);
    let mut inside = [0u8; 1024];
    let settled = solver::decide(
        tails,
        rotations,
        lefts,
        capacities,
        order,
        from,
        grouped,
        starts,
        sizes,
        Demand {
            source: terminals.source,
            sink: terminals.sink,
            value,
        },
        &mut *parents,
        &mut *flows,
        &mut inside,
    );
    let impossible = !settled;
    if impossible {
        let n = narrow_by(
            tails,
            capacities,
            &inside,
            2 * sizes.edges,
            terminals.source,
            terminals.sink,
            low,
            high,
            a,
            b,
        )?;
        return Some(Bounds {
            low: n.low,
            high: n.high,
            found,
            next: next_after(next, found),
        });
    }
    Some(Bounds {
        low: value,
        high: propose(
            tails, lefts, capacities, sizes, terminals, value, high, &*flows, parents, a,
        ),
        found: true,
        next: Next::High,
    })
}

// Probes values until the bounds meet or pass each other. The set that bounds the answer, or shows that there is none, is left in a.
fn close_in<'a>(
    tails: &'a [u16; 1024],
    rotations: &'a [u16; 1024],
    lefts: &'a [u16; 1024],
    capacities: &'a [i32; 1024],
    order: &'a [u16; 1024],
    from: &'a [u16; 1024],
    grouped: &'a [u16; 1024],
    starts: &'a [u16; 1024],
    sizes: Sizes,
    begun: Pending,
    flows: &mut [i32],
    parents: &mut [u16; 1024],
    a: &mut [u8; 1024],
    b: &mut [u8; 1024],
) -> Option<i32>
    requires { Underway sizes begun tails.now rotations.now lefts.now capacities.now order.now from.now grouped.now starts.now
        flows.old flows.old a.old b.old × (length parents.old ≡ 1024) }
    ensures { (length parents.new ≡ 1024) × (length a.new ≡ 1024)
        × Maximized (map_of sizes.nodes sizes.edges tails.now rotations.now) sizes.outer (atℤ capacities.now)
        begun.terminals.source begun.terminals.sink flows.old flows.new a.new result }
{
    let terminals = begun.terminals;
    let mut bounds = begun.bounds;
    // A loop: how many probes are made is not known before.
    loop {
        let Bounds {
            low,
            high,
            found,
            ..
        } = bounds;
        let passed = high < low;
        if passed {
            join(tails, capacities, 2 * sizes.edges, a, b);
            return None;
        }
        if finished(low, high, found) {
            return Some(high);
        }
        bounds = probe(
            tails,
            rotations,
            lefts,
            capacities,
            order,
            from,
            grouped,
            starts,
            sizes,
            Pending { terminals, bounds },
            &mut *flows,
            &mut *parents,
            &mut *a,
            &mut *b,
        )?;
    }
}

// The largest value, where none is known. The parents are the tree of the faces that the first decision begins from.
pub fn maximize_from<'a>(
    tails: &'a [u16; 1024],
    rotations: &'a [u16; 1024],
    lefts: &'a [u16; 1024],
    capacities: &'a [i32; 1024],
    order: &'a [u16; 1024],
    from: &'a [u16; 1024],
    grouped: &'a [u16; 1024],
    starts: &'a [u16; 1024],
    sizes: Sizes,
    terminals: Terminals,
    flows: &mut [i32],
    parents: &mut [u16; 1024],
    a: &mut [u8; 1024],
) -> Option<i32>
    requires { Lent sizes terminals.source terminals.sink tails.now rotations.now lefts.now capacities.now order.now from.now grouped.now
        starts.now flows.old
        × ((d : ℕ) → d < 2 * sizes.edges → Limited 1000000 (atℤ capacities.now d)) × (length a.old ≡ 1024) × (length parents.old ≡ 1024) }
    ensures { (length a.new ≡ 1024) × (length parents.new ≡ 1024)
        × Maximized (map_of sizes.nodes sizes.edges tails.now rotations.now) sizes.outer (atℤ capacities.now)
        terminals.source terminals.sink flows.old flows.new a.new result }
{
    let likely = begin(
        tails,
        rotations,
        capacities,
        sizes.edges,
        terminals.source,
        terminals.sink,
        &mut *a,
    );
    let mut b = [0u8; 1024];
    node_flags::flag_one(terminals.sink, &mut b);
    let bounds = first_bounds(tails, capacities, 2 * sizes.edges, likely, &*a, &b);
    close_in(
        tails,
        rotations,
        lefts,
        capacities,
        order,
        from,
        grouped,
        starts,
        sizes,
        Pending { terminals, bounds },
        flows,
        parents,
        a,
        &mut b,
    )
}

// The same with parents of its own: the first decision begins from no tree.
pub fn maximize<'a>(
    tails: &'a [u16; 1024],
    rotations: &'a [u16; 1024],
    lefts: &'a [u16; 1024],
    capacities: &'a [i32; 1024],
    order: &'a [u16; 1024],
    from: &'a [u16; 1024],
    grouped: &'a [u16; 1024],
    starts: &'a [u16; 1024],
    sizes: Sizes,
    terminals: Terminals,
    flows: &mut [i32],
    a: &mut [u8; 1024],
) -> Option<i32>
    requires { Lent sizes terminals.source terminals.sink tails.now rotations.now lefts.now capacities.now order.now from.now grouped.now
        starts.now flows.old
        × ((d : ℕ) → d < 2 * sizes.edges → Limited 1000000 (atℤ capacities.now d)) × (length a.old ≡ 1024) }
    ensures { (length a.new ≡ 1024)
        × Maximized (map_of sizes.nodes sizes.edges tails.now rotations.now) sizes.outer (atℤ capacities.now)
        terminals.source terminals.sink flows.old flows.new a.new result }
{
    let mut parents = [1024u16; 1024];
    maximize_from(
        tails,
        rotations,
        lefts,
        capacities,
        order,
        from,
        grouped,
        starts,
        sizes,
        terminals,
        flows,
        &mut parents,
        a,
    )
}

// Where a value is known and the first high bound is likely to be the answer, that bound is probed: from no tree, since the parents are kept for the pivots
// beside the flow of the value that is known.
fn try_likely<'a>(
    tails: &'a [u16; 1024],
    rotations: &'a [u16; 1024],
    lefts: &'a [u16; 1024],
    capacities: &'a [i32; 1024],
    order: &'a [u16; 1024],
    from: &'a [u16; 1024],
    grouped: &'a [u16; 1024],
    starts: &'a [u16; 1024],
    sizes: Sizes,
    likely: bool,
    given: Pending,
    flows: &mut [i32],
    a: &mut [u8; 1024],
    b: &mut [u8; 1024],
) -> Option<Bounds>
    requires { (before : List ℤ)
        × Underway sizes given tails.now rotations.now lefts.now capacities.now order.now from.now grouped.now starts.now
        before flows.old a.old b.old }
    ensures { (length a.new ≡ 1024) × (length b.new ≡ 1024)
        × Probes (map_of sizes.nodes sizes.edges tails.now rotations.now) sizes.outer (atℤ capacities.now)
        given.terminals.source given.terminals.sink flows.old flows.new a.old a.new
        b.old b.new given.bounds result }
{
    let bounds = given.bounds;
    if !likely || bounds.high <= bounds.low {
        return Some(bounds);
    }
    let mut parents = [1024u16; 1024];
    probe(
        tails,
        rotations,
        lefts,
        capacities,
        order,
        from,
        grouped,
        starts,
        sizes,
        given,
        flows,
        &mut parents,
        a,
        b,
    )
}

// The largest value where one is known that is carried, that of the demand: its highest flow stands in `known`, and the parents are those that its search left.
pub fn maximize_on<'a>(
    tails: &'a [u16; 1024],
    rotations: &'a [u16; 1024],
    lefts: &'a [u16; 1024],
    capacities: &'a [i32; 1024],
    order: &'a [u16; 1024],
    from: &'a [u16; 1024],
    grouped: &'a [u16; 1024],
    starts: &'a [u16; 1024],
    sizes: Sizes,
    demand: Demand,
    known: &[i32],
    flows: &mut [i32],
    parents: &mut [u16; 1024],
    a: &mut [u8; 1024],
) -> Option<i32>
    requires { Lent sizes demand.source demand.sink tails.now rotations.now lefts.now capacities.now order.now from.now grouped.now
        starts.now flows.old
        × ((d : ℕ) → d < 2 * sizes.edges → Limited 1000000 (atℤ capacities.now d)) × (length a.old ≡ 1024) × (length parents.old ≡ 1024)
        × ((x : ℕ → ℤ) × (old : List ℤ) × Highest (map_of sizes.nodes sizes.edges tails.now rotations.now) sizes.outer (atℤ capacities.now)
        demand.source demand.sink demand.value x × (known.now ≡ filled sizes.edges x old) × (length old ≡ sizes.edges)) }
    ensures { (length a.new ≡ 1024)
        × Maximized (map_of sizes.nodes sizes.edges tails.now rotations.now) sizes.outer (atℤ capacities.now)
        demand.source demand.sink flows.old flows.new a.new result }
{
    let carried = demand.value;
    arrays::copy(known, &mut *flows);
    let likely = begin(
        tails,
        rotations,
        capacities,
        sizes.edges,
        demand.source,
        demand.sink,
        &mut *a,
    );
    let terminals = Terminals {
        source: demand.source,
        sink: demand.sink,
    };
    let mut b = [0u8; 1024];
    let given = Bounds {
        low: carried,
        high: cuts::capacity(tails, capacities, &*a, 2 * sizes.edges),
        found: true,
        next: Next::High,
    };
    let tried = try_likely(
        tails,
        rotations,
        lefts,
        capacities,
        order,
        from,
        grouped,
        starts,
        sizes,
        likely,
        Pending {
            terminals,
            bounds: given,
        },
        &mut *flows,
        &mut *a,
        &mut b,
    )?;
    let high = propose(
        tails,
        lefts,
        capacities,
        sizes,
        terminals,
        tried.low,
        tried.high,
        &*flows,
        &mut *parents,
        &mut *a,
    );
    let bounds = Bounds {
        low: tried.low,
        high,
        found: tried.found,
        next: Next::High,
    };
    close_in(
        tails,
        rotations,
        lefts,
        capacities,
        order,
        from,
        grouped,
        starts,
        sizes,
        Pending { terminals, bounds },
        flows,
        parents,
        a,
        &mut b,
    )
}
