// The analyser's operations on sheets. Document 01, "Operations": Solve, Largest, Mark, Levels from settings, Settings from levels. Document 02: the least
// delivery beside the largest (Job 4), what a forward limit must be raised to (Job 7), totals by node (Job 9), limits from a capture (Job 10), DIMACS text (Job
// 2), questions by the page (Job 1). Each opens its sheet in one way: it holds the network record in its own frame and lends its arrays to the operation on
// drawings. Operations that decide also hold the walk over the darts and their groups, which opening makes.
#![tactic(auto)]

ghost use Rattle.std.specs.Prelude.{length};
ghost use Rattle.records.specs.Sheet.{sheet_drawing};
ghost use Rattle.questions.specs.inner.Named.{SetNamed};
ghost use Rattle.analyser.specs.inner.Named.{PageNamed};
ghost use Rattle.analyser.specs.Solve.{Solves};
ghost use Rattle.analyser.specs.Largest.{FindsLargest};
ghost use Rattle.analyser.specs.Range.{FindsRange};
ghost use Rattle.analyser.specs.Raise.{RaisesLimit};
ghost use Rattle.analyser.specs.After.{FindsAfter};
ghost use Rattle.analyser.specs.Page.{AnswersPage};
ghost use Rattle.pages.specs.Question.{question_at};
ghost use Rattle.analyser.specs.Mark.{Marks};
ghost use Rattle.analyser.specs.LevelsOf.{GivesLevels};
ghost use Rattle.analyser.specs.SettingsOf.{GivesSettings};
ghost use Rattle.analyser.specs.Totals.{GivesTotals};
ghost use Rattle.analyser.specs.Dimacs.{WritesDimacs};
ghost use Rattle.analyser.specs.Counts.{GivesCounts};

use arrays::{Demand, Terminals};
use capture::After;
use pages::{Listed, Page, Question};
use questions::Solution;
use ranges::Range;
use refusals::Refusal;
use sheets::Counts;

// Solve: the highest flow of a value from source to sink, or a set of nodes that proves that there is none.
// The flows are written if it can, the set if it cannot.
pub fn solve(
    sheet: &[u8],
    source: u16,
    sink: u16,
    value: i32,
    flows: &mut [i32],
    set: &mut [u64],
) -> Result<Solution, Refusal>
    ensures { Solves sheet.now source sink value flows.old flows.new set.old set.new result
        × SetNamed (sheet_drawing sheet.now) source sink value set.new result }
{
    let mut order = [0u16; 1024];
    let mut from = [0u16; 1024];
    let mut grouped = [0u16; 1024];
    let mut starts = [0u16; 1024];
    let net = sheets::open_walked(sheet, &mut order, &mut from, &mut grouped, &mut starts);
    let sizes = net.opened?;
    let demand = Demand {
        source: arrays::wide(source),
        sink: arrays::wide(sink),
        value: value,
    };
    questions::solve(
        &net.tails,
        &net.rotations,
        &net.lefts,
        &net.capacities,
        &order,
        &from,
        &grouped,
        &starts,
        sizes,
        demand,
        flows,
        set,
    )
}

// Largest: the largest value that can be carried from source to sink, its highest flow, and a set that proves the next greater one impossible; or a set that
// proves that nothing can be carried, with the flows left as they were.
pub fn largest(
    sheet: &[u8],
    source: u16,
    sink: u16,
    flows: &mut [i32],
    set: &mut [u64],
) -> Result<Option<i32>, Refusal>
    ensures { FindsLargest sheet.now source sink flows.old flows.new set.old set.new result }
{
    let mut order = [0u16; 1024];
    let mut from = [0u16; 1024];
    let mut grouped = [0u16; 1024];
    let mut starts = [0u16; 1024];
    let net = sheets::open_walked(sheet, &mut order, &mut from, &mut grouped, &mut starts);
    let sizes = net.opened?;
    let terminals = Terminals {
        source: arrays::wide(source),
        sink: arrays::wide(sink),
    };
    questions::largest(
        &net.tails,
        &net.rotations,
        &net.lefts,
        &net.capacities,
        &order,
        &from,
        &grouped,
        &starts,
        sizes,
        terminals,
        flows,
        set,
    )
}

// The least and the largest value that can be carried from source to sink: the highest flow of the least in `low`, a set that proves the next lower one
// impossible in `below`, the highest flow of the largest in `high`, a set that proves the next greater one impossible in `above`; or one set, in `below` and
// `above`, that proves that nothing can be carried, with `low` and `high` left as they were.
pub fn least_and_largest(
    sheet: &[u8],
    source: u16,
    sink: u16,
    low: &mut [i32],
    below: &mut [u64],
    high: &mut [i32],
    above: &mut [u64],
) -> Result<Option<Range>, Refusal>
    ensures { FindsRange sheet.now source sink
        low.old low.new below.old below.new
        high.old high.new above.old above.new result }
{
    let mut order = [0u16; 1024];
    let mut from = [0u16; 1024];
    let mut grouped = [0u16; 1024];
    let mut starts = [0u16; 1024];
    let net = sheets::open_walked(sheet, &mut order, &mut from, &mut grouped, &mut starts);
    let sizes = net.opened?;
    let terminals = Terminals {
        source: arrays::wide(source),
        sink: arrays::wide(sink),
    };
    ranges::least_and_largest(
        &net.tails,
        &net.rotations,
        &net.lefts,
        &net.capacities,
        &order,
        &from,
        &grouped,
        &starts,
        sizes,
        terminals,
        low,
        below,
        high,
        above,
    )
}

// What the forward limit of an edge must be raised to: the smallest, from its present one to 1,000,000, with which the value can be carried from source to
// sink, and the highest flow under it; or a set of nodes that proves that it cannot be with 1,000,000. The flows are written if there is one, the set if not.
pub fn raise_limit(
    sheet: &[u8],
    source: u16,
    sink: u16,
    value: i32,
    edge: u16,
    flows: &mut [i32],
    set: &mut [u64],
) -> Result<Option<i32>, Refusal>
    ensures { RaisesLimit sheet.now source sink value edge flows.old flows.new set.old set.new result }
{
    let mut order = [0u16; 1024];
    let mut from = [0u16; 1024];
    let mut grouped = [0u16; 1024];
    let mut starts = [0u16; 1024];
    let net = sheets::open_walked(sheet, &mut order, &mut from, &mut grouped, &mut starts);
    let sizes = net.opened?;
    let demand = Demand {
        source: arrays::wide(source),
        sink: arrays::wide(sink),
        value: value,
    };
    let mut capacities = net.capacities;
    raising::raise_limit(
        &net.tails,
        &net.rotations,
        &net.lefts,
        &mut capacities,
        &order,
        &from,
        &grouped,
        &starts,
        sizes,
        demand,
        arrays::wide(edge),
        flows,
        set,
    )
}

// Limits from a capture: the forward limits after a named record, the least of the window's records for each edge and the sheet's where there is none, in a
// slice of their own; and Largest on them. The capture is read where it stands. The limits are written where nothing can be carried as well.
pub fn largest_after(
    sheet: &[u8],
    capture: &[u8],
    window: u16,
    named: u64,
    source: u16,
    sink: u16,
    limits: &mut [i32],
    flows: &mut [i32],
    set: &mut [u64],
) -> Result<Option<i32>, Refusal>
    ensures { FindsAfter sheet.now capture.now window named source sink
        limits.old limits.new flows.old flows.new set.old set.new result }
{
    let mut order = [0u16; 1024];
    let mut from = [0u16; 1024];
    let mut grouped = [0u16; 1024];
    let mut starts = [0u16; 1024];
    let net = sheets::open_walked(sheet, &mut order, &mut from, &mut grouped, &mut starts);
    let sizes = net.opened?;
    let after = After {
        window: window,
        named: named,
        source: arrays::wide(source),
        sink: arrays::wide(sink),
    };
    let mut capacities = net.capacities;
    capture::largest_after(
        &net.tails,
        &net.rotations,
        &net.lefts,
        &mut capacities,
        &order,
        &from,
        &grouped,
        &starts,
        sizes,
        capture,
        after,
        limits,
        flows,
        set,
    )
}

// A list of questions on one sheet, which is opened once: each is answered as Solve answers it alone, with its own stretch of each buffer.
pub fn page_of(
    sheet: &[u8],
    list: Listed,
    flows: &mut [i32],
    sets: &mut [u64],
) -> Result<Page, Refusal>
    ensures { AnswersPage sheet.now list.count (question_at list.questions)
        flows.old flows.new sets.old sets.new result
        × PageNamed sheet.now list.count (question_at list.questions) sets.new result }
{
    let mut order = [0u16; 1024];
    let mut from = [0u16; 1024];
    let mut grouped = [0u16; 1024];
    let mut starts = [0u16; 1024];
    let net = sheets::open_walked(sheet, &mut order, &mut from, &mut grouped, &mut starts);
    let sizes = net.opened?;
    pages::answer_list(
        &net.tails,
        &net.rotations,
        &net.lefts,
        &net.capacities,
        &order,
        &from,
        &grouped,
        &starts,
        sizes,
        list,
        flows,
        sets,
    )
}

// Questions by the page: a lent slice of questions on one sheet, the settings of question i from i times the edges on, its set from i times the words on.
pub fn page(
    sheet: &[u8],
    questions: &[Question],
    flows: &mut [i32],
    sets: &mut [u64],
) -> Result<Page, Refusal>
    ensures { AnswersPage sheet.now (length questions.now) (question_at questions.now)
        flows.old flows.new sets.old sets.new result
        × PageNamed sheet.now (length questions.now) (question_at questions.now) sets.new result }
{
    let list = pages::list_of(questions);
    page_of(sheet, list, flows, sets)
}

// Mark: the value that given flows of the edges carry, if they carry any.
pub fn mark(sheet: &[u8], source: u16, sink: u16, flows: &[i32]) -> Result<i32, Refusal>
    ensures { Marks sheet.now source sink flows.now result }
{
    let net = sheets::open(sheet);
    let sizes = net.opened?;
    let terminals = Terminals {
        source: arrays::wide(source),
        sink: arrays::wide(sink),
    };
    questions::mark(
        &net.tails,
        &net.rotations,
        &net.capacities,
        sizes,
        terminals,
        flows,
    )
}

// Levels from settings: the potentials of the faces that balanced flows of the edges have, with the face of the outer dart at 0.
// Nothing is written before the last check.
pub fn levels_from_settings(sheet: &[u8], flows: &[i32], levels: &mut [i32]) -> Result<(), Refusal>
    ensures { GivesLevels sheet.now flows.now levels.old levels.new result }
{
    let net = sheets::open(sheet);
    let sizes = net.opened?;
    levels::levels_of(
        &net.tails,
        &net.rotations,
        &net.lefts,
        &net.capacities,
        sizes.nodes,
        sizes.edges,
        sizes.faces,
        sizes.outer,
        flows,
        levels,
    )
}

// Settings from levels: the flows that face levels give, if no level is refused and every flow keeps within its capacities.
// Flows are written only after every check.
pub fn settings_from_levels(sheet: &[u8], levels: &[i32], flows: &mut [i32]) -> Result<(), Refusal>
    ensures { GivesSettings sheet.now levels.now flows.old flows.new result }
{
    let net = sheets::open(sheet);
    let sizes = net.opened?;
    levels::settings_of(
        &net.tails,
        &net.rotations,
        &net.lefts,
        &net.capacities,
        sizes.nodes,
        sizes.edges,
        sizes.faces,
        sizes.outer,
        levels,
        flows,
    )
}

// Totals by node: the outward total of a set of nodes, with the subtotal of each node of the set, nodes rising, in front of `subtotals`.
// Nothing is written before the last check.
pub fn totals(sheet: &[u8], set: &[u64], subtotals: &mut [i32]) -> Result<i32, Refusal>
    ensures { GivesTotals sheet.now set.now subtotals.old subtotals.new result }
{
    let net = sheets::open(sheet);
    let sizes = net.opened?;
    totals::totals_of(
        &net.tails,
        &net.rotations,
        &net.capacities,
        sizes.nodes,
        sizes.edges,
        set,
        subtotals,
    )
}

// The sheet as a DIMACS maximum flow problem from source to sink, written in front of the output; the number of its bytes.
// Nothing is written before the last check.
pub fn write_dimacs(sheet: &[u8], source: u16, sink: u16, out: &mut [u8]) -> Result<usize, Refusal>
    ensures { WritesDimacs sheet.now source sink out.old out.new result }
{
    let net = sheets::open(sheet);
    let sizes = net.opened?;
    dimacs::write(
        &net.tails,
        &net.rotations,
        &net.capacities,
        sizes.nodes,
        sizes.edges,
        sizes.outer,
        source,
        sink,
        out,
    )
}

// Counts: both counts of a sheet, for a caller that lends slices of these lengths and has no use for Read's. Totals by node of no node makes the sheet checks:
// with room for any set it refuses nothing else, and the record that it holds lies in its own frame, not in the caller's.
pub fn counts(sheet: &[u8]) -> Result<Counts, Refusal>
    ensures { GivesCounts sheet.now result }
{
    let set = [0u64; 9];
    let mut subtotals = [0i32; 513];
    totals(sheet, &set, &mut subtotals)?;
    Ok(Counts {
        nodes: arrays::narrow(records::nodes_of(sheet)),
        edges: arrays::narrow(records::edges_of(sheet)),
        outer: arrays::narrow(records::outer_of(sheet)),
    })
}
