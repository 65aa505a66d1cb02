// The least and the largest value on a drawing that is open and sound, held in lent arrays. Document 02, Job 4. What carries a value from source to sink
// carries its negative from sink to source: the least value is the negative of the largest with the ends exchanged, with the same flows and the same sets. So
// the way back begins with what the way there found.
#![tactic(auto)]

ghost use Rattle.arrays.specs.Maps.{drawing_of};
ghost use Rattle.questions.specs.inner.Lent.{OpenSheet};
ghost use Rattle.ranges.specs.Range.{span_checks, RangeFound};

use arrays::{Demand, Sizes, Terminals};
use refusals::Refusal;

// The least and the largest value that can be carried.
#[derive(Clone, Copy, Debug, PartialEq, Eq)]
pub struct Range {
    pub least: i32,
    pub largest: i32,
}

// The least and the largest value from source to sink: the highest flow of the least in `low`, a set that proves the next lower value impossible in `below`,
// the highest flow of the largest in `high`, a set that proves the next greater one impossible in `above`. Or one set, in `below` and `above`, that proves that
// nothing can be carried, with both slices of flows left as they were.
#[tactic(auto, using(crate::proofs::Ranging::range_steps))]
pub fn least_and_largest<'a>(
    tails: &'a [u16; 1024],
    rotations: &'a [u16; 1024],
    lefts: &'a [u16; 1024],
    capacities: &'a [i32; 1024],
    order: &'a [u16; 1024],
    from: &'a [u16; 1024],
    grouped: &'a [u16; 1024],
    starts: &'a [u16; 1024],
    sizes: Sizes,
    terminals: Terminals,
    low: &mut [i32],
    below: &mut [u64],
    high: &mut [i32],
    above: &mut [u64],
) -> Result<Option<Range>, Refusal>
    requires { OpenSheet sizes tails.now rotations.now lefts.now capacities.now order.now from.now grouped.now starts.now }
    ensures { RangeFound (drawing_of sizes.nodes sizes.edges sizes.outer tails.now rotations.now capacities.now)
        (span_checks sizes.nodes sizes.edges terminals.source terminals.sink
        low.old below.old high.old above.old)
        terminals.source terminals.sink low.old low.new below.old below.new
        high.old high.new above.old above.new result }
{
    questions::check_ends(sizes.nodes, terminals.source, terminals.sink)?;
    questions::check_room(sizes.nodes, sizes.edges, low.len(), below.len())?;
    questions::check_room(sizes.nodes, sizes.edges, high.len(), above.len())?;
    let edges = sizes.edges;
    let words = node_sets::words_for(sizes.nodes);
    let mut inside = [0u8; 1024];
    let mut parents = [1024u16; 1024];
    let most = maximum::maximize_from(
        tails,
        rotations,
        lefts,
        capacities,
        order,
        from,
        grouped,
        starts,
        sizes,
        terminals,
        &mut high[0..edges],
        &mut parents,
        &mut inside,
    );
    node_sets::write_set(&inside, sizes.nodes, &mut above[0..words]);
    let Some(largest) = most else {
        node_sets::write_set(&inside, sizes.nodes, &mut below[0..words]);
        return Ok(None);
    };
    let exchanged = Demand {
        source: terminals.sink,
        sink: terminals.source,
        value: maximum::negate(largest),
    };
    let back = maximum::maximize_on(
        tails,
        rotations,
        lefts,
        capacities,
        order,
        from,
        grouped,
        starts,
        sizes,
        exchanged,
        &high[0..edges],
        &mut low[0..edges],
        &mut parents,
        &mut inside,
    );
    node_sets::write_set(&inside, sizes.nodes, &mut below[0..words]);
    if let Some(v) = back {
        return Ok(Some(Range {
            least: maximum::negate(v),
            largest,
        }));
    }
    Ok(None)
}
