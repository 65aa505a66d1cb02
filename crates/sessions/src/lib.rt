// The limits left in a session (document 02, Jobs 11 and 12): what must be so of them, Solve's answer on them, an offer kept, and the limits lowered by it. The
// calls are made of these in crate `parties`. Any value is taken: what a question or an offer needs of it is checked before anything is written.
#![tactic(auto)]

ghost use Rattle.std.specs.Prelude.{◌≡◌, cond, ℕ, ◌*◌, ◌%◌, ◌<◌, ◌≤◌, eqb, length, neg_ℤ, ◌-ℤ◌};
ghost use Rattle.std.specs.Int.{w32};
ghost use Rattle.std.proofs.Common.{SFits};
ghost use Rattle.refusals.specs.Order.{Decides};
ghost use Rattle.maps.specs.Check.{InRange};
ghost use Rattle.flows.specs.Settings.{on_darts};
ghost use Rattle.arrays.specs.At.{atℤ};
ghost use Rattle.arrays.specs.Maps.{map_of, drawing_of};
ghost use Rattle.arrays.specs.Filled.{filled};
ghost use Rattle.questions.specs.Solve.{Solved};
ghost use Rattle.questions.specs.inner.Named.{SetNamed};
ghost use Rattle.sessions.specs.Fit.{PairFits, LimitsFit, InBounds, OnFit, Lowerable};
ghost use Rattle.sessions.specs.Ask.{ask_checks};

use arrays::{Demand, Sizes, wide};
use questions::Solution;
use refusals::{Refusal, refused};

// Whether every tail is a node and every rotation a dart.
fn in_range<'a>(
    tails: &'a [u16; 1024],
    rotations: &'a [u16; 1024],
    nodes: usize,
    edges: usize,
) -> bool
    requires { edges ≤ 512 }
    ensures { Decides (InRange (map_of nodes edges tails.now rotations.now)) result }
{
    let darts = 2 * edges;
    for d in 0..darts {
        if nodes <= wide(tails[d]) {
            return false;
        }
        if darts <= wide(rotations[d]) {
            return false;
        }
    }
    true
}

// Whether an edge's two limits left fit.
fn pair_fits(forward: i32, back: i32) -> bool
    ensures { Decides (PairFits forward back) result }
{
    back <= 2000000 && !balance::exceeds(2000000, back, forward)
}

fn limits_fit(left: &[i32; 1024], edges: usize) -> bool
    requires { edges ≤ 512 }
    ensures { Decides (LimitsFit edges (atℤ left.now)) result }
{
    for e in 0..edges {
        if !pair_fits(left[2 * e], left[2 * e + 1]) {
            return false;
        }
    }
    true
}

// Whether the counts, the outer dart, the tails, the rotations and the limits left are in range: all that a question needs but the checks on the map.
fn in_bounds<'a>(
    tails: &'a [u16; 1024],
    rotations: &'a [u16; 1024],
    left: &[i32; 1024],
    nodes: usize,
    edges: usize,
    outer: usize,
) -> bool
    ensures { Decides (InBounds (drawing_of nodes edges outer tails.now rotations.now left.now)) result }
{
    nodes <= 1024
        && edges <= 512
        && outer < 2 * edges
        && in_range(tails, rotations, nodes, edges)
        && limits_fit(left, edges)
}

// Solve's answer on the limits left. A value that is no session is answered 13.
pub fn answer_left<'a>(
    nodes: u16,
    edges: u16,
    outer: u16,
    tails: &'a [u16; 1024],
    rotations: &'a [u16; 1024],
    left: &'a [i32; 1024],
    source: u16,
    sink: u16,
    value: i32,
    flows: &mut [i32],
    set: &mut [u64],
) -> Result<Solution, Refusal>
    ensures { Solved (drawing_of nodes edges outer tails.now rotations.now left.now)
        (ask_checks (drawing_of nodes edges outer tails.now rotations.now left.now) source sink value
        flows.old set.old)
        source sink value flows.old flows.new set.old set.new result
        × SetNamed (drawing_of nodes edges outer tails.now rotations.now left.now) source sink value set.new result
        × OnFit (drawing_of nodes edges outer tails.now rotations.now left.now) result }
{
    let n = wide(nodes);
    let m = wide(edges);
    let o = wide(outer);
    if !in_bounds(tails, rotations, left, n, m, o) {
        return refused(13);
    }
    let mut lefts = [0u16; 1024];
    let mut order = [0u16; 1024];
    let mut from = [0u16; 1024];
    let mut grouped = [0u16; 1024];
    let mut starts = [0u16; 1024];
    let Ok(counted) = rotations::check_map(
        tails,
        rotations,
        n,
        m,
        o,
        &mut lefts,
        &mut order,
        &mut from,
        &mut grouped,
        &mut starts,
    ) else {
        return refused(13);
    };
    let sizes = Sizes {
        nodes: n,
        edges: m,
        faces: counted.faces,
        parts: counted.parts,
        outer: o,
    };
    let demand = Demand {
        source: wide(source),
        sink: wide(sink),
        value: value,
    };
    questions::solve(
        tails, rotations, &lefts, left, &order, &from, &grouped, &starts, sizes, demand, flows, set,
    )
}

// The first elements of a slice of flows, into the offer.
pub fn keep(flows: &[i32], edges: usize, offer: &mut [i32])
    requires { (edges ≤ length flows.now) × (edges ≤ length offer.old) }
    ensures { offer.new ≡ filled edges (atℤ flows.now) offer.old }
{
    arrays::copy(&flows[..edges], &mut offer[..edges]);
}

// Whether the limits left can be lowered by the offer: it keeps within them.
pub fn lowerable(left: &[i32; 1024], offer: &[i32], edges: usize) -> bool
    requires { 512 ≤ length offer.now }
    ensures { Decides (Lowerable edges (atℤ left.now) (atℤ offer.now)) result }
{
    edges <= 512 && limits_fit(left, edges) && balance::check_within(left, edges, offer).is_ok()
}

// What is left of the limit of a dart, where the flow of its edge is let in: less by the dart's own flow.
fn lowered_by(limit: i32, flow: i32, dart: usize) -> i32
    requires { SFits w32 (limit -ℤ cond (eqb (dart % 2) 0) flow (neg_ℤ flow)) }
    ensures { result ≡ limit -ℤ cond (eqb (dart % 2) 0) flow (neg_ℤ flow) }
{
    if dart % 2 == 0 {
        return signed::minus(limit, flow);
    }
    signed::plus(limit, flow)
}

// Lowers each dart's limit left once, by its own flow.
pub fn lower(left: &mut [i32], offer: &[i32; 512], edges: usize)
    requires { (length left.old ≡ 1024) × (edges ≤ 512)
        × ((d : ℕ) → d < 2 * edges → SFits w32 (atℤ left.old d -ℤ on_darts (atℤ offer.now) d)) }
    ensures { (length left.new ≡ 1024)
        × (left.new ≡ filled (2 * edges) (λ d. atℤ left.old d -ℤ on_darts (atℤ offer.now) d) left.old) }
{
    let darts = 2 * edges;
    for d in 0..darts {
        left[d] = lowered_by(left[d], offer[d / 2], d);
    }
}
