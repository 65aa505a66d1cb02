// The C interface: each operation of the analyser under a plain name. A slice is passed as a pointer and a length. The result is the number of
// the refusal, or 0. Answers and the place of a refusal come through pointers: a refusal writes the place alone, and an answer leaves it as it was.
#![tactic(auto)]

ghost use Rattle.std.specs.Prelude.{◌≡◌};
ghost use Rattle.abi.specs.Read.{TellsRead};
ghost use Rattle.abi.specs.Write.{TellsWrite};
ghost use Rattle.abi.specs.Solve.{TellsSolve};
ghost use Rattle.abi.specs.Largest.{TellsLargest};
ghost use Rattle.abi.specs.Range.{TellsRange};
ghost use Rattle.abi.specs.Raise.{TellsRaise};
ghost use Rattle.abi.specs.After.{TellsAfter};
ghost use Rattle.abi.specs.Page.{TellsPage};
ghost use Rattle.abi.specs.Mark.{TellsMark};
ghost use Rattle.abi.specs.Levels.{TellsLevels, TellsSettings};
ghost use Rattle.abi.specs.Totals.{TellsTotals};
ghost use Rattle.abi.specs.Examine.{TellsExamine};
ghost use Rattle.abi.specs.Key.{TellsKey};
ghost use Rattle.abi.specs.Practice.{TellsPractice};
ghost use Rattle.abi.specs.Dimacs.{TellsDimacs};
ghost use Rattle.parties.specs.Shared.{shared_of, cleared};
ghost use Rattle.abi.specs.Sessions.{TellsStart, TellsAsk, TellsCommit};

use parties::SessionSizes;
use questions::Solution;
use refusals::Refusal;

// A refusal as a C program is told it: its place is written, and its number is the result.
fn refuse(refusal: Refusal, place: &mut u16) -> u8
    ensures number { result ≡ refusal.number }
    ensures place { place.new ≡ refusal.place }
{
    *place = refusal.place;
    refusal.number
}

// Read. The counts of nodes and edges, the outer dart, and the three slices, two elements to an edge.
#[unsafe(no_mangle)]
pub extern "C" fn analyser_read(
    sheet: &[u8],
    tails: &mut [u16],
    rotations: &mut [u16],
    capacities: &mut [i32],
    nodes: &mut u16,
    edges: &mut u16,
    outer: &mut u16,
    place: &mut u16,
) -> u8
    ensures { TellsRead sheet.now tails.old rotations.old capacities.old
        tails.new rotations.new capacities.new nodes.old nodes.new
        edges.old edges.new outer.old outer.new place.old place.new result }
{
    let answer = sheets::read(sheet, tails, rotations, capacities);
    match answer {
        Ok(counts) => {
            *nodes = counts.nodes;
            *edges = counts.edges;
            *outer = counts.outer;
            0
        }
        Err(refusal) => refuse(refusal, place),
    }
}

// Write. The bytes of the sheet, and in length their number.
#[unsafe(no_mangle)]
pub extern "C" fn analyser_write(
    nodes: u16,
    outer: u16,
    tails: &[u16],
    rotations: &[u16],
    capacities: &[i32],
    sheet: &mut [u8],
    length: &mut usize,
    place: &mut u16,
) -> u8
    ensures { TellsWrite nodes outer tails.now rotations.now capacities.now sheet.old
        sheet.new length.old length.new place.old place.new result }
{
    let answer = sheets::write(nodes, outer, tails, rotations, capacities, sheet);
    match answer {
        Ok(n) => {
            *length = n;
            0
        }
        Err(refusal) => refuse(refusal, place),
    }
}

// Solve. It can: can is 1 and the flows are written. It cannot: can is 0, the set is written and size is its number of nodes.
#[unsafe(no_mangle)]
pub extern "C" fn analyser_solve(
    sheet: &[u8],
    source: u16,
    sink: u16,
    value: i32,
    flows: &mut [i32],
    set: &mut [u64],
    can: &mut u8,
    size: &mut u16,
    place: &mut u16,
) -> u8
    ensures { TellsSolve sheet.now source sink value flows.old flows.new set.old set.new
        can.old can.new size.old size.new place.old place.new result }
{
    let answer = analyser::solve(sheet, source, sink, value, flows, set);
    match answer {
        Ok(Solution::Can) => {
            *can = 1;
            0
        }
        Ok(Solution::Cannot(n)) => {
            *can = 0;
            *size = n;
            0
        }
        Err(refusal) => refuse(refusal, place),
    }
}

// Largest. There is a value: found is 1, value is the largest, and its flows are written. None: found is 0. The set is written in both cases.
#[unsafe(no_mangle)]
pub extern "C" fn analyser_largest(
    sheet: &[u8],
    source: u16,
    sink: u16,
    flows: &mut [i32],
    set: &mut [u64],
    found: &mut u8,
    value: &mut i32,
    place: &mut u16,
) -> u8
    ensures { TellsLargest sheet.now source sink flows.old flows.new set.old set.new
        found.old found.new value.old value.new place.old place.new result }
{
    let answer = analyser::largest(sheet, source, sink, flows, set);
    match answer {
        Ok(Some(v)) => {
            *found = 1;
            *value = v;
            0
        }
        Ok(None) => {
            *found = 0;
            0
        }
        Err(refusal) => refuse(refusal, place),
    }
}

// The least and the largest value. There are values: found is 1, least and largest are they, low has the flows of the least and high those of the largest, with
// a set in below for the value under the least and one in above for the value over the largest. None: found is 0, and the same set is in below and above.
#[unsafe(no_mangle)]
pub extern "C" fn analyser_least_and_largest(
    sheet: &[u8],
    source: u16,
    sink: u16,
    low: &mut [i32],
    below: &mut [u64],
    high: &mut [i32],
    above: &mut [u64],
    found: &mut u8,
    least: &mut i32,
    largest: &mut i32,
    place: &mut u16,
) -> u8
    ensures { TellsRange sheet.now source sink low.old low.new below.old below.new
        high.old high.new above.old above.new found.old found.new
        least.old least.new largest.old largest.new place.old place.new result }
{
    let answer = analyser::least_and_largest(sheet, source, sink, low, below, high, above);
    match answer {
        Ok(Some(range)) => {
            *found = 1;
            *least = range.least;
            *largest = range.largest;
            0
        }
        Ok(None) => {
            *found = 0;
            0
        }
        Err(refusal) => refuse(refusal, place),
    }
}

// What the forward limit of an edge must be raised to. There is one: found is 1, limit is it, and the flows are written. None: found is 0, and the set is
// written.
#[unsafe(no_mangle)]
pub extern "C" fn analyser_raise_limit(
    sheet: &[u8],
    source: u16,
    sink: u16,
    value: i32,
    edge: u16,
    flows: &mut [i32],
    set: &mut [u64],
    found: &mut u8,
    limit: &mut i32,
    place: &mut u16,
) -> u8
    ensures { TellsRaise sheet.now source sink value edge flows.old flows.new set.old set.new
        found.old found.new limit.old limit.new place.old place.new result }
{
    let answer = analyser::raise_limit(sheet, source, sink, value, edge, flows, set);
    match answer {
        Ok(Some(v)) => {
            *found = 1;
            *limit = v;
            0
        }
        Ok(None) => {
            *found = 0;
            0
        }
        Err(refusal) => refuse(refusal, place),
    }
}

// Limits from a capture. The limits after the named record are written, and Largest on them: there is a value: found is 1, value is the largest, and its flows
// are written. None: found is 0. The limits and the set are written in both cases.
#[unsafe(no_mangle)]
pub extern "C" fn analyser_largest_after(
    sheet: &[u8],
    capture: &[u8],
    window: u16,
    named: u64,
    source: u16,
    sink: u16,
    limits: &mut [i32],
    flows: &mut [i32],
    set: &mut [u64],
    found: &mut u8,
    value: &mut i32,
    place: &mut u16,
) -> u8
    ensures { TellsAfter sheet.now capture.now window named source sink
        limits.old limits.new flows.old flows.new set.old set.new
        found.old found.new value.old value.new place.old place.new result }
{
    let answer = analyser::largest_after(
        sheet, capture, window, named, source, sink, limits, flows, set,
    );
    match answer {
        Ok(Some(v)) => {
            *found = 1;
            *value = v;
            0
        }
        Ok(None) => {
            *found = 0;
            0
        }
        Err(refusal) => refuse(refusal, place),
    }
}

// A page: question i is sources[i], sinks[i], values[i], its flows are written from i times the edges on, its set from i times the words on. Of question i
// answers[i] is 1 if it can, 0 if it cannot, else the number of its refusal, 13 to 15, and sizes[i] the number of nodes in its set, or 0. The arrays have 64
// places, of which the first `count` count.
#[unsafe(no_mangle)]
pub extern "C" fn analyser_page(
    sheet: &[u8],
    count: usize,
    sources: &[u16; 64],
    sinks: &[u16; 64],
    values: &[i32; 64],
    flows: &mut [i32],
    sets: &mut [u64],
    answers: &mut [u8; 64],
    sizes: &mut [u16; 64],
    place: &mut u16,
) -> u8
    ensures { TellsPage sheet.now count sources.now sinks.now values.now
        flows.old flows.new sets.old sets.new answers.old answers.new
        sizes.old sizes.new place.old place.new result }
{
    let list = pages::list_from(count, sources, sinks, values);
    let answer = analyser::page_of(sheet, list, flows, sets);
    match answer {
        Ok(page) => {
            answer_arrays::tell_numbers(page, answers);
            answer_arrays::tell_sizes(page, sizes);
            0
        }
        Err(refusal) => refuse(refusal, place),
    }
}

// Mark. The value of given flows.
#[unsafe(no_mangle)]
pub extern "C" fn analyser_mark(
    sheet: &[u8],
    source: u16,
    sink: u16,
    flows: &[i32],
    value: &mut i32,
    place: &mut u16,
) -> u8
    ensures { TellsMark sheet.now source sink flows.now
        value.old value.new place.old place.new result }
{
    let answer = analyser::mark(sheet, source, sink, flows);
    match answer {
        Ok(carried) => {
            *value = carried;
            0
        }
        Err(refusal) => refuse(refusal, place),
    }
}

// Levels from settings: the levels of the faces are written.
#[unsafe(no_mangle)]
pub extern "C" fn analyser_levels_from_settings(
    sheet: &[u8],
    flows: &[i32],
    levels: &mut [i32],
    place: &mut u16,
) -> u8
    ensures { TellsLevels sheet.now flows.now levels.old
        levels.new place.old place.new result }
{
    let answer = analyser::levels_from_settings(sheet, flows, levels);
    match answer {
        Ok(()) => 0,
        Err(refusal) => refuse(refusal, place),
    }
}

// Settings from levels: the flows are written.
#[unsafe(no_mangle)]
pub extern "C" fn analyser_settings_from_levels(
    sheet: &[u8],
    levels: &[i32],
    flows: &mut [i32],
    place: &mut u16,
) -> u8
    ensures { TellsSettings sheet.now levels.now
        flows.old flows.new place.old place.new result }
{
    let answer = analyser::settings_from_levels(sheet, levels, flows);
    match answer {
        Ok(()) => 0,
        Err(refusal) => refuse(refusal, place),
    }
}

// Totals by node. The subtotal of each node of the set, nodes rising, and in total their sum.
#[unsafe(no_mangle)]
pub extern "C" fn analyser_totals(
    sheet: &[u8],
    set: &[u64],
    subtotals: &mut [i32],
    total: &mut i32,
    place: &mut u16,
) -> u8
    ensures { TellsTotals sheet.now set.now subtotals.old subtotals.new
        total.old total.new place.old place.new result }
{
    let answer = analyser::totals(sheet, set, subtotals);
    match answer {
        Ok(t) => {
            *total = t;
            0
        }
        Err(refusal) => refuse(refusal, place),
    }
}

// The key's text. There is one: it is in front of text, and length is the number of its bytes. 16: text is too short for some key.
#[unsafe(no_mangle)]
pub extern "C" fn analyser_key_text(
    input: &[u8],
    text: &mut [u8],
    length: &mut usize,
    place: &mut u16,
) -> u8
    ensures { TellsKey input.now text.old text.new
        length.old length.new place.old place.new result }
{
    let answer = key_text::write_key(input, text);
    match answer {
        Ok(bytes) => {
            *length = bytes;
            0
        }
        Err(refusal) => refuse(refusal, place),
    }
}

// A practice sheet. The bytes of the sheet, and in length their number.
#[unsafe(no_mangle)]
pub extern "C" fn analyser_practice_sheet(
    rows: u16,
    columns: u16,
    seed: u32,
    sheet: &mut [u8],
    length: &mut usize,
    place: &mut u16,
) -> u8
    ensures { TellsPractice rows columns seed sheet.old sheet.new length.old length.new
        place.old place.new result }
{
    let answer = practice::practice_sheet(rows, columns, seed, sheet);
    match answer {
        Ok(count) => {
            *length = count;
            0
        }
        Err(refusal) => refuse(refusal, place),
    }
}

// The DIMACS text. The bytes of the text, and in length their number.
#[unsafe(no_mangle)]
pub extern "C" fn analyser_write_dimacs(
    sheet: &[u8],
    source: u16,
    sink: u16,
    text: &mut [u8],
    length: &mut usize,
    place: &mut u16,
) -> u8
    ensures { TellsDimacs sheet.now source sink text.old text.new
        length.old length.new place.old place.new result }
{
    let answer = analyser::write_dimacs(sheet, source, sink, text);
    match answer {
        Ok(printed) => {
            *length = printed;
            0
        }
        Err(refusal) => refuse(refusal, place),
    }
}

// The exam desk. The points of each paper, paper q at place q, and the class's figures; an empty class has no least and no greatest.
#[unsafe(no_mangle)]
pub extern "C" fn analyser_examine(
    sheet: &[u8],
    source: u16,
    sink: u16,
    value: i32,
    claims: &[i32],
    kinds: &[u8],
    settings: &[i32],
    sets: &[u64],
    points: &mut [u8],
    number: &mut u16,
    sum: &mut u16,
    least: &mut u8,
    greatest: &mut u8,
    place: &mut u16,
) -> u8
    ensures { TellsExamine sheet.now source sink value claims.now kinds.now settings.now
        sets.now points.old points.new number.old number.new sum.old sum.new
        least.old least.new greatest.old greatest.new place.old place.new result }
{
    let answer = desk::examine(
        sheet, source, sink, value, claims, kinds, settings, sets, points,
    );
    match answer {
        Ok(None) => {
            *number = 0;
            *sum = 0;
            0
        }
        Ok(Some(marks)) => {
            *number = marks.number;
            *sum = marks.sum;
            *least = marks.least;
            *greatest = marks.greatest;
            0
        }
        Err(refusal) => refuse(refusal, place),
    }
}

// Start of a session of two parties. The fields of the session are lent one by one, and each place of them is written.
#[unsafe(no_mangle)]
pub extern "C" fn analyser_session_start(
    sheet: &[u8],
    nodes: &mut u16,
    edges: &mut u16,
    outer: &mut u16,
    tails: &mut [u16; 1024],
    rotations: &mut [u16; 1024],
    limits: &mut [i32; 1024],
    left: &mut [i32; 1024],
    standing: &mut [u8; 2],
    first: &mut [i32; 512],
    second: &mut [i32; 512],
    place: &mut u16,
) -> u8
    ensures { TellsStart sheet.now
        (shared_of nodes.new edges.new outer.new tails.new rotations.new limits.new
        left.new standing.new first.new second.new)
        place.old place.new result }
{
    let answer = parties::start(
        sheet, nodes, edges, outer, tails, rotations, limits, left, standing, first, second,
    );
    match answer {
        Ok(()) => 0,
        Err(refusal) => refuse(refusal, place),
    }
}

// Ask. It can: can is 1, the flows are written and kept as the party's offer. It cannot: can is 0, the set is written, size is its number of nodes, the party
// has no offer.
#[unsafe(no_mangle)]
pub extern "C" fn analyser_session_ask<'a>(
    party: u16,
    nodes: u16,
    edges: u16,
    outer: u16,
    tails: &'a [u16; 1024],
    rotations: &'a [u16; 1024],
    limits: &[i32; 1024],
    left: &'a [i32; 1024],
    standing: &mut [u8; 2],
    first: &mut [i32; 512],
    second: &mut [i32; 512],
    source: u16,
    sink: u16,
    value: i32,
    flows: &mut [i32],
    set: &mut [u64],
    can: &mut u8,
    size: &mut u16,
    place: &mut u16,
) -> u8
    ensures { TellsAsk
        (shared_of nodes edges outer tails.now rotations.now limits.now left.now
        standing.old first.old second.old)
        party source sink value flows.old flows.new set.old set.new
        (shared_of nodes edges outer tails.now rotations.now limits.now left.now
        standing.new first.new second.new)
        can.old can.new size.old size.new place.old place.new result }
{
    let sizes = SessionSizes {
        nodes,
        edges,
        outer,
    };
    let answer = parties::ask(
        party, sizes, tails, rotations, limits, left, standing, first, second, source, sink, value,
        flows, set,
    );
    match answer {
        Ok(Solution::Can) => {
            *can = 1;
            0
        }
        Ok(Solution::Cannot(n)) => {
            *can = 0;
            *size = n;
            0
        }
        Err(refusal) => refuse(refusal, place),
    }
}

// Commit.
#[unsafe(no_mangle)]
pub extern "C" fn analyser_session_commit<'a>(
    party: u16,
    nodes: u16,
    edges: u16,
    outer: u16,
    tails: &'a [u16; 1024],
    rotations: &'a [u16; 1024],
    limits: &[i32; 1024],
    left: &mut [i32; 1024],
    standing: &mut [u8; 2],
    first: &[i32; 512],
    second: &[i32; 512],
    place: &mut u16,
) -> u8
    ensures { TellsCommit
        (shared_of nodes edges outer tails.now rotations.now limits.now left.old
        standing.old first.now second.now)
        party
        (shared_of nodes edges outer tails.now rotations.now limits.now left.new
        standing.new first.now second.now)
        place.old place.new result }
{
    let answer = parties::commit(
        party, nodes, edges, outer, tails, rotations, limits, left, standing, first, second,
    );
    match answer {
        Ok(()) => 0,
        Err(refusal) => refuse(refusal, place),
    }
}

// Clear: nothing refuses it, and it has no result.
#[unsafe(no_mangle)]
pub extern "C" fn analyser_session_clear<'a>(
    nodes: u16,
    edges: u16,
    outer: u16,
    tails: &'a [u16; 1024],
    rotations: &'a [u16; 1024],
    limits: &[i32; 1024],
    left: &mut [i32; 1024],
    standing: &mut [u8; 2],
    first: &[i32; 512],
    second: &[i32; 512],
)
    ensures { shared_of nodes edges outer tails.now rotations.now limits.now left.new
        standing.new first.now second.now
        ≡ cleared (shared_of nodes edges outer tails.now rotations.now limits.now left.old
        standing.old first.now second.now) }
{
    parties::clear(
        nodes, edges, outer, tails, rotations, limits, left, standing, first, second,
    );
}
