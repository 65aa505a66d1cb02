// Judges given flows of the edges: 17, each edge's flow within its capacities; 18, the flows balanced at the nodes.
// Of a slice of flows only the first `edges` elements are read.
#![tactic(auto)]

ghost use Rattle.std.specs.Prelude.{◌≡◌, ◌⊎◌, ◌≢◌, ℕ, ◌+◌, ◌*◌, ◌<◌, ◌≤◌, eqb, length, pos, neg_ℤ, ◌+ℤ◌, ◌-ℤ◌, ◌<ℤ◌};
ghost use Rattle.std.specs.Int.{w32};
ghost use Rattle.std.proofs.Common.{SFits};
ghost use Rattle.integers.specs.Sum.{when};
ghost use Rattle.refusals.specs.Order.{Decides, Judged};
ghost use Rattle.flows.specs.Check.{within_checks, EndOf};
ghost use Rattle.arrays.specs.At.{at, atℤ};
ghost use Rattle.balance.specs.inner.SmallFlows.{SmallFlows};
ghost use Rattle.balance.specs.inner.NetUpTo.{net_up_to};
ghost use Rattle.balance.specs.inner.Check.{off_checks, JudgedAll};

use refusals::{Refusal, refused_at};

// Whether a flow is more than its edge's forward capacity, or against the edge more than its backward capacity.
// -x > backward is tested as x + backward < 0 at 64 bits, since -x does not fit 32 bits where x is the least i32.
pub fn exceeds(forward: i32, backward: i32, x: i32) -> bool
    ensures { Decides ((forward <ℤ x) ⊎ (backward <ℤ neg_ℤ x)) result }
{
    if forward < x {
        return true;
    }
    signed::add32(x, backward) < 0
}

// Refusal 17: "a setting outside its channel's limits", at the lowest such edge.
pub fn check_within(capacities: &[i32; 1024], edges: usize, flows: &[i32]) -> Result<(), Refusal>
    requires { (edges ≤ 512) × (edges ≤ length flows.now) }
    ensures { Judged (within_checks edges (atℤ capacities.now) (atℤ flows.now)) result }
{
    for e in 0..edges {
        if exceeds(capacities[2 * e], capacities[2 * e + 1], flows[e]) {
            return refused_at(17, arrays::narrow(e));
        }
    }
    Ok(())
}

// Adds x at node v.
fn add_at(nets: &mut [i32; 1024], v: usize, x: i32)
    requires { (length nets.old ≡ 1024) × (v < 1024) × SFits w32 (atℤ nets.old v +ℤ x) }
    ensures { (length nets.new ≡ 1024) × ((u : ℕ) → atℤ nets.new u ≡ atℤ nets.old u +ℤ when (eqb u v) x) }
{
    nets[v] = signed::plus(nets[v], x);
}

// Subtracts x at node v.
fn sub_at(nets: &mut [i32; 1024], v: usize, x: i32)
    requires { (length nets.old ≡ 1024) × (v < 1024) × SFits w32 (atℤ nets.old v -ℤ x) }
    ensures { (length nets.new ≡ 1024) × ((u : ℕ) → atℤ nets.new u ≡ atℤ nets.old u +ℤ when (eqb u v) (neg_ℤ x)) }
{
    nets[v] = signed::minus(nets[v], x);
}

// The net flow out of every node, added into an array of zeros: an edge's flow leaves its tail and comes to its head; an edge from a node to itself cancels.
pub fn fill_nets(tails: &[u16; 1024], edges: usize, flows: &[i32], nets: &mut [i32; 1024])
    requires { (edges ≤ 512) × (edges ≤ length flows.now) × (length nets.old ≡ 1024)
        × ((d : ℕ) → d < 2 * edges → at tails.now d < 1024) × SmallFlows edges (atℤ flows.now) × ((v : ℕ) → atℤ nets.old v ≡ pos 0) }
    ensures { (length nets.new ≡ 1024)
        × ((v : ℕ) → v < 1024 → atℤ nets.new v ≡ net_up_to (at tails.now) (atℤ flows.now) (2 * edges) v) }
{
    for e in 0..edges {
        add_at(nets, arrays::wide(tails[2 * e]), flows[e]);
        sub_at(nets, arrays::wide(tails[2 * e + 1]), flows[e]);
    }
}

// Whether the node v, with this sum, is off balance and not one of the ends a and b.
fn off_balance(v: usize, a: usize, b: usize, sum: i32) -> bool
    ensures { Decides ((EndOf a b v → ⊥) × (sum ≢ pos 0)) result }
{
    if v == a {
        return false;
    }
    if v == b {
        return false;
    }
    sum != 0
}

// Refusal 18: "a node other than those two off balance", at the lowest such node. Where a and b are no nodes, none is excused.
pub fn check_balance(nets: &[i32; 1024], nodes: usize, a: usize, b: usize) -> Result<(), Refusal>
    requires { nodes ≤ 1024 }
    ensures { Judged (off_checks nodes a b (atℤ nets.now)) result }
{
    for v in 0..nodes {
        if off_balance(v, a, b, nets[v]) {
            return refused_at(18, arrays::narrow(v));
        }
    }
    Ok(())
}

// Refusal 18 with no node excused: "18 for any node". The sums have their array here, so that the caller's later arrays can lie where it was.
pub fn check_all_balanced(
    tails: &[u16; 1024],
    nodes: usize,
    edges: usize,
    flows: &[i32],
) -> Result<(), Refusal>
    requires { (nodes ≤ 1024) × (edges ≤ 512) × (edges ≤ length flows.now)
        × ((d : ℕ) → d < 2 * edges → at tails.now d < 1024) × SmallFlows edges (atℤ flows.now) }
    ensures { JudgedAll nodes edges (at tails.now) (atℤ flows.now) result }
{
    let mut nets = [0i32; 1024];
    fill_nets(tails, edges, flows, &mut nets);
    check_balance(&nets, nodes, nodes, nodes)
}
