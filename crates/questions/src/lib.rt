// Questions on a drawing that is open and sound, held in lent arrays: Solve, Largest and Mark with the refusals 13 to 18. They know no bytes.
#![tactic(auto)]

ghost use Rattle.std.specs.Prelude.{◌≤◌};
ghost use Rattle.refusals.specs.Order.{Decides, Judged};
ghost use Rattle.grouping.specs.inner.OpenDrawing.{OpenDrawing};
ghost use Rattle.arrays.specs.Maps.{drawing_of};
ghost use Rattle.questions.specs.Question.{end_checks, ValueOutside, room_checks};
ghost use Rattle.questions.specs.Solve.{question_checks, Solved};
ghost use Rattle.questions.specs.inner.Named.{SetNamed};
ghost use Rattle.questions.specs.inner.Lent.{OpenSheet, OpenPaper};
ghost use Rattle.questions.specs.Largest.{search_checks, LargestFound};
ghost use Rattle.questions.specs.Mark.{paper_checks, Marked};

use arrays::{Demand, Sizes, Terminals};
use refusals::{Refusal, refused};

// Checks 13 and 14: source and sink are nodes, and two.
#[tactic(auto, unfolding(refusals::specs::Order::NoneOf, refusals::specs::Order::FirstOf, crate::specs::Question::end_checks))]
pub fn check_ends(nodes: usize, source: usize, sink: usize) -> Result<(), Refusal>
    ensures { Judged (end_checks nodes source sink) result }
{
    if nodes <= source || nodes <= sink {
        return refused(13);
    }
    if source == sink {
        return refused(14);
    }
    Ok(())
}

// Check 15: whether a value is not from -600,000,000 to 600,000,000.
pub fn value_outside(value: i32) -> bool
    ensures { Decides (ValueOutside value) result }
{
    value < -600000000 || 600000000 < value
}

// Check 16 of a question: room for the flows of the edges, and for the words of a set of nodes.
#[tactic(auto, unfolding(refusals::specs::Order::NoneOf, refusals::specs::Order::FirstOf, crate::specs::Question::room_checks))]
pub fn check_room(nodes: usize, edges: usize, flows: usize, set: usize) -> Result<(), Refusal>
    requires { nodes ≤ 1024 }
    ensures { Judged (room_checks nodes edges flows set) result }
{
    if flows < edges || set < node_sets::words_for(nodes) {
        return refused(16);
    }
    Ok(())
}

// What Solve finds: it can, and the flows are written; or it cannot, and a proving set of this size is written.
#[derive(Clone, Copy, Debug, PartialEq, Eq)]
pub enum Solution {
    Can,
    Cannot(u16),
}

// Solve: the highest flow of a value from source to sink, or a set of nodes that proves that there is none.
// The flows are written if it can, the set if it cannot.
#[tactic(auto, using(crate::proofs::Solving::solve_steps))]
pub fn solve<'a>(
    tails: &'a [u16; 1024],
    rotations: &'a [u16; 1024],
    lefts: &'a [u16; 1024],
    capacities: &'a [i32; 1024],
    order: &'a [u16; 1024],
    from: &'a [u16; 1024],
    grouped: &'a [u16; 1024],
    starts: &'a [u16; 1024],
    sizes: Sizes,
    demand: Demand,
    flows: &mut [i32],
    set: &mut [u64],
) -> Result<Solution, Refusal>
    requires { OpenDrawing sizes tails.now rotations.now lefts.now capacities.now order.now from.now grouped.now starts.now }
    ensures { Solved (drawing_of sizes.nodes sizes.edges sizes.outer tails.now rotations.now capacities.now)
        (question_checks sizes.nodes sizes.edges demand.source demand.sink demand.value flows.old set.old)
        demand.source demand.sink demand.value flows.old flows.new set.old set.new result
        × SetNamed (drawing_of sizes.nodes sizes.edges sizes.outer tails.now rotations.now capacities.now)
        demand.source demand.sink demand.value set.new result }
{
    check_ends(sizes.nodes, demand.source, demand.sink)?;
    if value_outside(demand.value) {
        return refused(15);
    }
    check_room(sizes.nodes, sizes.edges, flows.len(), set.len())?;
    let mut inside = [0u8; 1024];
    let mut parents = [1024u16; 1024];
    let edges = sizes.edges;
    if solver::decide(
        tails,
        rotations,
        lefts,
        capacities,
        order,
        from,
        grouped,
        starts,
        sizes,
        demand,
        &mut parents,
        &mut flows[0..edges],
        &mut inside,
    ) {
        return Ok(Solution::Can);
    }
    let words = node_sets::words_for(sizes.nodes);
    node_sets::write_set(&inside, sizes.nodes, &mut set[0..words]);
    let size = node_sets::count_set(&set[0..words], sizes.nodes);
    Ok(Solution::Cannot(arrays::narrow(size)))
}

// Largest: the largest value that can be carried from source to sink, its highest flow, and a set that proves the next greater one impossible; or none, and a
// set that proves that nothing can be carried, with the flows left as they were.
#[tactic(auto, using(crate::proofs::Finding::largest_steps))]
pub fn largest<'a>(
    tails: &'a [u16; 1024],
    rotations: &'a [u16; 1024],
    lefts: &'a [u16; 1024],
    capacities: &'a [i32; 1024],
    order: &'a [u16; 1024],
    from: &'a [u16; 1024],
    grouped: &'a [u16; 1024],
    starts: &'a [u16; 1024],
    sizes: Sizes,
    terminals: Terminals,
    flows: &mut [i32],
    set: &mut [u64],
) -> Result<Option<i32>, Refusal>
    requires { OpenSheet sizes tails.now rotations.now lefts.now capacities.now order.now from.now grouped.now starts.now }
    ensures { LargestFound
        (drawing_of sizes.nodes sizes.edges sizes.outer tails.now rotations.now capacities.now)
        (search_checks sizes.nodes sizes.edges terminals.source terminals.sink flows.old set.old)
        terminals.source terminals.sink flows.old flows.new set.old set.new result }
{
    check_ends(sizes.nodes, terminals.source, terminals.sink)?;
    check_room(sizes.nodes, sizes.edges, flows.len(), set.len())?;
    let mut inside = [0u8; 1024];
    let places = sizes.edges;
    let most = maximum::maximize(
        tails,
        rotations,
        lefts,
        capacities,
        order,
        from,
        grouped,
        starts,
        sizes,
        terminals,
        &mut flows[0..places],
        &mut inside,
    );
    let words = node_sets::words_for(sizes.nodes);
    node_sets::write_set(&inside, sizes.nodes, &mut set[0..words]);
    Ok(most)
}

// Mark: the value that given flows of the edges carry, if they carry any.
// The rotations and the outer dart are named by the contract only: they are part of its drawing.
#[tactic(auto, using(crate::proofs::Marking::mark_steps))]
pub fn mark<'a>(
    tails: &'a [u16; 1024],
    rotations: &'a [u16; 1024],
    capacities: &'a [i32; 1024],
    sizes: Sizes,
    terminals: Terminals,
    flows: &[i32],
) -> Result<i32, Refusal>
    requires { OpenPaper sizes tails.now capacities.now }
    ensures { Marked (drawing_of sizes.nodes sizes.edges sizes.outer tails.now rotations.now capacities.now)
        (paper_checks (drawing_of sizes.nodes sizes.edges sizes.outer tails.now rotations.now capacities.now)
        terminals.source terminals.sink flows.now)
        terminals.source terminals.sink flows.now result }
{
    check_ends(sizes.nodes, terminals.source, terminals.sink)?;
    let many = sizes.edges;
    if flows.len() < many {
        return refused(16);
    }
    let given = &flows[0..many];
    balance::check_within(capacities, many, given)?;
    let mut nets = [0i32; 1024];
    balance::fill_nets(tails, many, given, &mut nets);
    let source = terminals.source;
    balance::check_balance(&nets, sizes.nodes, source, terminals.sink)?;
    Ok(nets[source])
}
