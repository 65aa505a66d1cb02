// What the forward capacity of an edge must be raised to: the least length of one dart without a cycle of negative length is minus the distance back, so one
// search with the greatest capacity, from the face left of the dart, tells the least; at most three searches a call. Shortest paths: Ford 1956, Bellman 1958;
// flows of a plane drawing as shortest paths of its dual: Miller and Naor 1995.
//
// The drawing is open and sound, and held in lent arrays. Document 02, Job 7.
#![tactic(auto)]

ghost use Rattle.std.specs.Prelude.{◌≡◌, ◌*◌, length};
ghost use Rattle.arrays.specs.At.{atℤ};
ghost use Rattle.arrays.specs.Maps.{drawing_of};
ghost use Rattle.questions.specs.inner.Lent.{OpenSheet};
ghost use Rattle.raising.specs.Raise.{limit_checks, Fails, RaiseFound};
ghost use Rattle.raising.specs.inner.Sought.{Sought};
ghost use Rattle.raising.specs.inner.Lifted.{Liftable};

use arrays::{Demand, Sizes};
use refusals::{Refusal, refused};

// The least capacity of the edge's forward dart, where its present one fails: the flow on it that is highest from the face left of it, with 1,000,000 as its
// capacity. The highest flow with that is written. Where 1,000,000 fails too, the nodes of a set that proves it are flagged.
fn least_limit<'a>(
    tails: &'a [u16; 1024],
    rotations: &'a [u16; 1024],
    lefts: &'a [u16; 1024],
    capacities: &mut [i32; 1024],
    order: &'a [u16; 1024],
    from: &'a [u16; 1024],
    grouped: &'a [u16; 1024],
    starts: &'a [u16; 1024],
    sizes: Sizes,
    demand: Demand,
    edge: usize,
    flows: &mut [i32],
    inside: &mut [u8; 1024],
) -> Option<i32>
    requires { Liftable sizes demand.source demand.sink demand.value edge tails.now rotations.now lefts.now capacities.old
        order.now from.now grouped.now starts.now flows.old inside.old
        × Fails (drawing_of sizes.nodes sizes.edges sizes.outer tails.now rotations.now capacities.old) demand.source demand.sink
        demand.value edge (atℤ capacities.old (2 * edge)) }
    ensures { (length inside.new ≡ 1024)
        × Sought (drawing_of sizes.nodes sizes.edges sizes.outer tails.now rotations.now capacities.old)
        demand.source demand.sink demand.value edge flows.old flows.new inside.new result }
{
    let dart = 2 * edge;
    capacities[dart] = 1000000;
    if solver::decide_from(
        tails,
        rotations,
        lefts,
        &*capacities,
        order,
        from,
        grouped,
        starts,
        sizes,
        dart,
        demand,
        &mut *flows,
        &mut *inside,
    ) {
        let limit = flows[edge];
        capacities[dart] = limit;
        solver::decide_from(
            tails,
            rotations,
            lefts,
            &*capacities,
            order,
            from,
            grouped,
            starts,
            sizes,
            sizes.outer,
            demand,
            flows,
            inside,
        );
        return Some(limit);
    }
    None
}

// The present capacity of the edge's forward dart where it serves, with its highest flow; else the least greater one that does.
fn find_limit<'a>(
    tails: &'a [u16; 1024],
    rotations: &'a [u16; 1024],
    lefts: &'a [u16; 1024],
    capacities: &mut [i32; 1024],
    order: &'a [u16; 1024],
    from: &'a [u16; 1024],
    grouped: &'a [u16; 1024],
    starts: &'a [u16; 1024],
    sizes: Sizes,
    demand: Demand,
    edge: usize,
    flows: &mut [i32],
    inside: &mut [u8; 1024],
) -> Option<i32>
    requires { Liftable sizes demand.source demand.sink demand.value edge tails.now rotations.now lefts.now capacities.old
        order.now from.now grouped.now starts.now flows.old inside.old }
    ensures { (length inside.new ≡ 1024)
        × Sought (drawing_of sizes.nodes sizes.edges sizes.outer tails.now rotations.now capacities.old)
        demand.source demand.sink demand.value edge flows.old flows.new inside.new result }
{
    if solver::decide_from(
        tails,
        rotations,
        lefts,
        &*capacities,
        order,
        from,
        grouped,
        starts,
        sizes,
        sizes.outer,
        demand,
        &mut *flows,
        &mut *inside,
    ) {
        return Some(capacities[2 * edge]);
    }
    least_limit(
        tails, rotations, lefts, capacities, order, from, grouped, starts, sizes, demand, edge,
        flows, inside,
    )
}

// The least forward capacity of an edge, from its present one to 1,000,000, with which the value can be carried from source to sink, and the highest flow under
// it; or a set of nodes that proves that it cannot be with 1,000,000. The flows are written if there is one, the set if there is none.
#[tactic(auto, using(crate::proofs::Raising::raise_steps))]
pub fn raise_limit<'a>(
    tails: &'a [u16; 1024],
    rotations: &'a [u16; 1024],
    lefts: &'a [u16; 1024],
    capacities: &mut [i32; 1024],
    order: &'a [u16; 1024],
    from: &'a [u16; 1024],
    grouped: &'a [u16; 1024],
    starts: &'a [u16; 1024],
    sizes: Sizes,
    demand: Demand,
    edge: usize,
    flows: &mut [i32],
    set: &mut [u64],
) -> Result<Option<i32>, Refusal>
    requires { (length capacities.old ≡ 1024)
        × OpenSheet sizes tails.now rotations.now lefts.now capacities.old order.now from.now grouped.now starts.now }
    ensures { RaiseFound (drawing_of sizes.nodes sizes.edges sizes.outer tails.now rotations.now capacities.old)
        (limit_checks sizes.nodes sizes.edges demand.source demand.sink demand.value edge flows.old set.old)
        demand.source demand.sink demand.value edge flows.old flows.new set.old set.new result }
{
    questions::check_ends(sizes.nodes, demand.source, demand.sink)?;
    if questions::value_outside(demand.value) {
        return refused(15);
    }
    if sizes.edges <= edge {
        return refused(25);
    }
    questions::check_room(sizes.nodes, sizes.edges, flows.len(), set.len())?;
    let mut inside = [0u8; 1024];
    let edges = sizes.edges;
    let least = find_limit(
        tails,
        rotations,
        lefts,
        capacities,
        order,
        from,
        grouped,
        starts,
        sizes,
        demand,
        edge,
        &mut flows[0..edges],
        &mut inside,
    );
    if let Some(v) = least {
        return Ok(Some(v));
    }
    let words = node_sets::words_for(sizes.nodes);
    node_sets::write_set(&inside, sizes.nodes, &mut set[0..words]);
    Ok(None)
}
