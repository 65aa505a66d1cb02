// Limits from a capture: the recorder's bytes, read forward record by record, and Largest on a drawing with the forward limits found. Document 02, Job 10. The
// capture is never copied, whatever its length: what is kept of it is the tick of the record before, and for each edge the least limit of the window.
#![tactic(auto)]

ghost use Rattle.std.specs.Prelude.{◌≡◌, ℕ, ◌+◌, ◌*◌, ◌<◌, ◌≤◌, length, set};
ghost use Rattle.refusals.specs.Order.{Judged, NoneOf};
ghost use Rattle.grouping.specs.inner.OpenDrawing.{OpenDrawing};
ghost use Rattle.arrays.specs.At.{at, atℤ};
ghost use Rattle.arrays.specs.Filled.{filled};
ghost use Rattle.arrays.specs.Maps.{drawing_of};
ghost use Rattle.capture.specs.Entry.{entry_place, entry_checks};
ghost use Rattle.capture.specs.Window.{laid};
ghost use Rattle.capture.specs.Capture.{window_checks, records_checks, limits_checks, last_checks, capture_checks, FoundAfter};
ghost use Rattle.capture.specs.inner.Read.{entry_at};
ghost use Rattle.capture.specs.inner.Taken.{place_behind, Passing, Stands, lowered, LimitsTaken};

use arrays::{Sizes, Terminals};
use refusals::{Refusal, refused};

// The capture and a place in it.
#[derive(Clone, Copy)]
pub struct Reader<'a> {
    pub capture: &'a [u8],
    pub at: usize,
}

// A whole record: its tick, its edge and its limit.
#[derive(Clone, Copy)]
pub struct Entry {
    pub tick: u32,
    pub edge: u16,
    pub limit: i32,
}

// The whole record at a place, on slice and number: 2 for no record of kind 5, 1 for one that is cut short. What is left is compared with a record's length, so
// that no sum can wrap.
pub fn entry_at(capture: &[u8], at: usize) -> Result<Entry, Refusal>
    ensures { result ≡ entry_at capture.now at }
{
    if capture.len() <= at {
        return refused(2);
    }
    if capture[at] != 5 {
        return refused(2);
    }
    if capture.len() - at < records::record_length(5) {
        return refused(1);
    }
    let tick = fields::read_u32(capture, at + 1);
    let edge = fields::read_u16(capture, at + 5);
    let limit = fields::read_i32(capture, at + 7);
    Ok(Entry { tick, edge, limit })
}

// Check 26: a window of 1 to 256 records, and a named record that is one of the whole ones.
fn check_window(capture: &[u8], window: usize, named: usize) -> Result<(), Refusal>
    ensures { Judged (window_checks capture.now window named) result }
{
    if window < 1 || window > 256 || capture.len() / 11 <= named {
        return refused(26);
    }
    Ok(())
}

// The place behind the record at a place: a record's length farther, or the end of the capture where that is nearer.
fn behind(capture: &[u8], at: usize) -> usize
    ensures { result ≡ place_behind capture.now at }
{
    at.saturating_add(records::record_length(5))
        .min(capture.len())
}

// One record, after those before it have passed, with the tick of the last of them: 2, 1, 25 and 27. The answer is its own tick.
fn check_entry(capture: &[u8], at: usize, edges: usize, last: u32) -> Result<u32, Refusal>
    requires { (at < length capture.now) × Passing edges capture.now at last }
    ensures { Stands edges capture.now (place_behind capture.now at) result }
{
    let entry = entry_at(capture, at)?;
    if edges <= usize::from(entry.edge) {
        return refused(25);
    }
    if entry.tick < last {
        return refused(27);
    }
    Ok(entry.tick)
}

// Every record of the capture in turn, to the end: 2, 1, 25 and 27. The reader holds the capture and its place, which goes forward from record to record; what
// is kept beside it is the tick of the record before.
fn check_capture(capture: &[u8], edges: usize) -> Result<(), Refusal>
    ensures { Judged (records_checks edges capture.now) result }
{
    let mut reader = Reader { capture, at: 0 };
    let mut last: u32 = 0;
    // A while loop: the reader goes forward by a record, to the end of the bytes or to the first refusal.
    while reader.at < reader.capture.len() {
        last = check_entry(reader.capture, reader.at, edges, last)?;
        reader.at = behind(reader.capture, reader.at);
    }
    Ok(())
}

// The capacity of an edge's forward dart once a record of it is taken: the first one's limit, then the lesser of the two.
fn lowered_by(mark: u8, present: i32, limit: i32) -> i32
    ensures { result ≡ lowered mark present limit }
{
    if mark == 0 {
        return limit;
    }
    limit.min(present)
}

// One record of the window is taken: its edge is marked, and the capacity of its forward dart is the least so far.
fn take_limit(seen: &mut [u8; 512], capacities: &mut [i32; 1024], edge: usize, limit: i32)
    requires { (length seen.old ≡ 512) × (length capacities.old ≡ 1024) × (edge < 512) }
    ensures { (seen.new ≡ set seen.old edge 1)
        × (capacities.new ≡ set capacities.old (2 * edge)
        (lowered (at seen.old edge) (atℤ capacities.old (2 * edge)) limit)) }
{
    let dart = 2 * edge;
    let mark = seen[edge];
    let present = capacities[dart];
    let least = lowered_by(mark, present, limit);
    seen[edge] = 1;
    capacities[dart] = least;
}

// The records of the window, at most 256, taken into the capacities: first sight of an edge stores its limit, a later one takes the less.
fn take_window(
    capture: &[u8],
    first: usize,
    count: usize,
    edges: usize,
    capacities: &mut [i32; 1024],
)
    requires { (length capacities.old ≡ 1024) × (edges ≤ 512) × (entry_place (first + count) ≤ length capture.now)
        × ((i : ℕ) → i < first + count → NoneOf (entry_checks edges capture.now i)) }
    ensures { (length capacities.new ≡ 1024)
        × ((d : ℕ) → atℤ capacities.new d ≡ laid (atℤ capacities.old) capture.now first count d) }
{
    let mut seen = [0u8; 512];
    for i in 0..count {
        if let Ok(entry) = entry_at(capture, records::record_length(5) * (first + i)) {
            take_limit(
                &mut seen,
                &mut *capacities,
                usize::from(entry.edge),
                entry.limit,
            );
        }
    }
}

// Checks 6 and 7 on the limits found, channel by channel.
fn check_found(capacities: &[i32; 1024], edges: usize) -> Result<(), Refusal>
    requires { edges ≤ 512 }
    ensures { Judged (limits_checks edges (atℤ capacities.now)) result }
{
    for e in 0..edges {
        records::check_capacities(capacities[2 * e], capacities[2 * e + 1])?;
    }
    Ok(())
}

// Checks 13, 14 and 16, which stand last; 16 covers all three slices.
fn check_last(
    nodes: usize,
    edges: usize,
    source: usize,
    sink: usize,
    limits: &[i32],
    flows: &[i32],
    set: &[u64],
) -> Result<(), Refusal>
    requires { nodes ≤ 1024 }
    ensures { Judged (last_checks nodes edges source sink limits.now flows.now set.now) result }
{
    questions::check_ends(nodes, source, sink)?;
    if limits.len() < edges {
        return refused(16);
    }
    questions::check_room(nodes, edges, flows.len(), set.len())
}

// The forward limits found, into a slice with a place for each edge.
fn write_limits(capacities: &[i32; 1024], edges: usize, limits: &mut [i32])
    requires { (edges ≤ 512) × (length limits.old ≡ edges) }
    ensures { limits.new ≡ filled edges (λ e. atℤ capacities.now (2 * e)) limits.old }
{
    for e in 0..edges {
        limits[e] = capacities[2 * e];
    }
}

// The limits after the named record, in place of the forward capacities: 26, every record of the capture, the window taken, then 6 and 7 on what is found.
fn take_limits(
    capture: &[u8],
    window: usize,
    named: usize,
    edges: usize,
    capacities: &mut [i32; 1024],
) -> Result<(), Refusal>
    requires { (length capacities.old ≡ 1024) × (edges ≤ 512) }
    ensures { (length capacities.new ≡ 1024)
        × LimitsTaken edges (atℤ capacities.old) (atℤ capacities.new) capture.now window named result }
{
    check_window(capture, window, named)?;
    check_capture(capture, edges)?;
    let end = named + 1;
    let first = end.saturating_sub(window);
    take_window(capture, first, end - first, edges, &mut *capacities);
    check_found(&*capacities, edges)
}

// What is asked of a capture: how many records the window has, the record that it ends with, and the nodes that a flow goes from and to.
#[derive(Clone, Copy)]
pub struct After {
    pub window: u16,
    pub named: u64,
    pub source: usize,
    pub sink: usize,
}

// Largest on a drawing with the forward limits that a capture leaves after a named record. The capacities become those found; the limits are written for each
// answer but a refusal, and a refusal leaves all three slices.
pub fn largest_after<'a>(
    tails: &'a [u16; 1024],
    rotations: &'a [u16; 1024],
    lefts: &'a [u16; 1024],
    capacities: &mut [i32; 1024],
    order: &'a [u16; 1024],
    from: &'a [u16; 1024],
    grouped: &'a [u16; 1024],
    starts: &'a [u16; 1024],
    sizes: Sizes,
    capture: &[u8],
    after: After,
    limits: &mut [i32],
    flows: &mut [i32],
    set: &mut [u64],
) -> Result<Option<i32>, Refusal>
    requires { (length capacities.old ≡ 1024)
        × OpenDrawing sizes tails.now rotations.now lefts.now capacities.old order.now from.now grouped.now starts.now }
    ensures { FoundAfter (drawing_of sizes.nodes sizes.edges sizes.outer tails.now rotations.now capacities.old)
        (capture_checks (drawing_of sizes.nodes sizes.edges sizes.outer tails.now rotations.now capacities.old)
        capture.now after.window after.named after.source after.sink
        limits.old flows.old set.old)
        capture.now after.window after.named after.source after.sink
        limits.old limits.new flows.old flows.new set.old set.new result }
{
    take_limits(
        capture,
        usize::from(after.window),
        after.named as usize,
        sizes.edges,
        &mut *capacities,
    )?;
    check_last(
        sizes.nodes,
        sizes.edges,
        after.source,
        after.sink,
        &*limits,
        &*flows,
        &*set,
    )?;
    let edges = sizes.edges;
    let words = node_sets::words_for(sizes.nodes);
    let terminals = Terminals {
        source: after.source,
        sink: after.sink,
    };
    write_limits(&*capacities, edges, &mut limits[0..edges]);
    questions::largest(
        tails,
        rotations,
        lefts,
        &*capacities,
        order,
        from,
        grouped,
        starts,
        sizes,
        terminals,
        &mut flows[0..edges],
        &mut set[0..words],
    )
}
