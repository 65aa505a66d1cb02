// Practice sheets: a grid of 2 to 16 rows and columns with capacities from a seed, written as a sheet. Document 02, Job 5. A node is told by its row r and
// column c, from 0 at the top left.
#![tactic(auto)]

ghost use Rattle.std.specs.Prelude.{◌≡◌, true, ◌⊎◌, List, ◌++◌, ℕ, ◌+◌, ◌*◌, ◌-◌, ◌<◌, ◌≤◌, length, drop, pos};
ghost use Rattle.refusals.specs.Order.{Decides};
ghost use Rattle.fields.specs.Fields.{put};
ghost use Rattle.records.specs.Record.{record_length};
ghost use Rattle.records.specs.Check.{Outside};
ghost use Rattle.records.specs.Encode.{headBytes, edge_bytes, plain_head, encode_plain};
ghost use Rattle.practice.specs.Side.{turn, next};
ghost use Rattle.practice.specs.Grid.{placed, across, grid_edges, beginning, ending, present, dart_at, node_at, rotation_at};
ghost use Rattle.practice.specs.Seed.{next_state, capacity_from};
ghost use Rattle.practice.specs.Practice.{grid_drawing, practice_length, Practises};

use refusals::{Refusal, refused};

// A product of numbers that are at most 16.
fn times(a: usize, b: usize) -> usize
    requires { (a ≤ 16) × (b ≤ 16) }
    ensures { (result ≡ a * b) × (result ≤ 256) }
{
    a * b
}

// The edge east of a node, and the one south of it.
fn edge_east(columns: usize, r: usize, c: usize) -> usize
    requires { (1 ≤ columns) × (columns ≤ 16) × (r ≤ 16) × (c ≤ 16) }
    ensures { (result ≡ r * (columns - 1) + c) × (result ≤ 512) }
{
    times(r, columns - 1) + c
}

fn edge_south(rows: usize, columns: usize, r: usize, c: usize) -> usize
    requires { (rows ≤ 16) × (1 ≤ columns) × (columns ≤ 16) × (r ≤ 16) × (c ≤ 16) }
    ensures { (result ≡ across rows columns + (r * columns + c)) × (result ≤ 1024) }
{
    times(rows, columns - 1) + (times(r, columns) + c)
}

// A side of a node, where an edge may be.
#[derive(Clone, Copy, Debug, PartialEq, Eq)]
enum Side {
    North,
    East,
    South,
    West,
}

// The next side clockwise.
#[tactic(auto, unfolding(crate::specs::Side::turn))]
fn turn(s: Side) -> Side
    ensures { result ≡ turn s }
{
    match s {
        Side::North => Side::East,
        Side::East => Side::South,
        Side::South => Side::West,
        Side::West => Side::North,
    }
}

// Whether a node has an edge on a side.
#[tactic(auto, unfolding(crate::specs::Grid::present))]
fn has_side(rows: usize, columns: usize, r: usize, c: usize, s: Side) -> bool
    requires { (r ≤ 16) × (c ≤ 16) }
    ensures { result ≡ present rows columns r c s }
{
    match s {
        Side::North => 0 < r,
        Side::East => c + 1 < columns,
        Side::South => r + 1 < rows,
        Side::West => 0 < c,
    }
}

// The dart that leaves a node on a side where there is an edge.
#[tactic(auto, unfolding(crate::specs::Grid::present, crate::specs::Grid::dart_at))]
fn dart_at(rows: usize, columns: usize, r: usize, c: usize, s: Side) -> usize
    requires { (rows ≤ 16) × (columns ≤ 16) × (r < rows) × (c < columns) × (present rows columns r c s ≡ true) }
    ensures { result ≡ dart_at rows columns r c s }
{
    match s {
        Side::North => 2 * edge_south(rows, columns, r - 1, c) + 1,
        Side::East => 2 * edge_east(columns, r, c),
        Side::South => 2 * edge_south(rows, columns, r, c),
        Side::West => 2 * edge_east(columns, r, c - 1) + 1,
    }
}

// The next side clockwise that has an edge.
#[tactic(auto, unfolding(crate::specs::Side::next))]
fn next_side(rows: usize, columns: usize, r: usize, c: usize, s: Side) -> Side
    requires { (r ≤ 16) × (c ≤ 16) }
    ensures { result ≡ next (present rows columns r c) s }
{
    let one = turn(s);
    if has_side(rows, columns, r, c, one) {
        return one;
    }
    let two = turn(one);
    if has_side(rows, columns, r, c, two) {
        return two;
    }
    let three = turn(two);
    if has_side(rows, columns, r, c, three) {
        return three;
    }
    s
}

// The dart next clockwise to the one that leaves a node on a side.
fn rotation_at(rows: usize, columns: usize, r: usize, c: usize, s: Side) -> u16
    requires { (rows ≤ 16) × (columns ≤ 16) × (r < rows) × (c < columns) × (present rows columns r c s ≡ true) }
    ensures { result ≡ rotation_at rows columns (placed r c s) }
{
    let t = next_side(rows, columns, r, c, s);
    arrays::narrow(dart_at(rows, columns, r, c, t))
}

fn node_at(columns: usize, r: usize, c: usize) -> u16
    requires { (columns ≤ 16) × (r ≤ 16) × (c ≤ 16) }
    ensures { result ≡ r * columns + c }
{
    arrays::narrow(times(r, columns) + c)
}

// The record of an edge whose backward capacity is 0.
fn write_record(
    out: &mut [u8],
    place: usize,
    tail: u16,
    head: u16,
    rotation: u16,
    turned: u16,
    forward: i32,
)
    requires { (place ≤ 100000) × (place + record_length 2 ≤ length out.old) }
    ensures { out.new ≡ put place (edge_bytes tail head rotation turned forward (pos 0)) out.old }
{
    fields::write_u8(out, place, 2);
    fields::write_u16(out, place + 1, tail);
    fields::write_u16(out, place + 3, head);
    fields::write_u16(out, place + 5, rotation);
    fields::write_u16(out, place + 7, turned);
    fields::write_i32(out, place + 9, forward);
    fields::write_i32(out, place + 13, 0);
}

// The record of the edge that leaves a node on side s and comes to another on side t.
fn write_between(
    out: &mut [u8],
    place: usize,
    rows: usize,
    columns: usize,
    r: usize,
    c: usize,
    s: Side,
    row: usize,
    column: usize,
    t: Side,
    forward: i32,
)
    requires { (place ≤ 100000) × (place + record_length 2 ≤ length out.old) × (rows ≤ 16) × (columns ≤ 16)
        × (r < rows) × (c < columns) × (present rows columns r c s ≡ true)
        × (row < rows) × (column < columns) × (present rows columns row column t ≡ true) }
    ensures { out.new ≡ put place (edge_bytes (node_at rows columns (placed r c s)) (node_at rows columns (placed row column t))
        (rotation_at rows columns (placed r c s)) (rotation_at rows columns (placed row column t)) forward (pos 0)) out.old }
{
    let tail = node_at(columns, r, c);
    let head = node_at(columns, row, column);
    let rotation = rotation_at(rows, columns, r, c, s);
    let turned = rotation_at(rows, columns, row, column, t);
    write_record(out, place, tail, head, rotation, turned, forward);
}

// The record of edge e: the first edges run east, the others south.
fn write_edge(out: &mut [u8], place: usize, rows: usize, columns: usize, e: usize, forward: i32)
    requires { (place ≤ 100000) × (place + record_length 2 ≤ length out.old) × (rows ≤ 16) × (2 ≤ columns) × (columns ≤ 16)
        × (e < grid_edges rows columns) }
    ensures { out.new ≡ put place (edge_bytes (node_at rows columns (beginning rows columns e)) (node_at rows columns (ending rows columns e))
        (rotation_at rows columns (beginning rows columns e)) (rotation_at rows columns (ending rows columns e)) forward (pos 0)) out.old }
{
    let gaps = columns - 1;
    let first = times(rows, gaps);
    if e < first {
        let r = e / gaps;
        let c = e % gaps;
        write_between(
            out,
            place,
            rows,
            columns,
            r,
            c,
            Side::East,
            r,
            c + 1,
            Side::West,
            forward,
        );
        return;
    }
    let k = e - first;
    let r = k / columns;
    let c = k % columns;
    write_between(
        out,
        place,
        rows,
        columns,
        r,
        c,
        Side::South,
        r + 1,
        c,
        Side::North,
        forward,
    );
}

// The next state of the seed's sequence: the product is below 2 ^ 62.
#[tactic(auto, unfolding(crate::specs::Seed::next_state))]
fn next_state(state: u64) -> u64
    requires { state < 2147483648 }
    ensures { (result ≡ next_state state) × (result < 2147483648) }
{
    (1103515245 * state + 12345) % 2147483648
}

// The capacity that a state gives, 0 to 99.
fn capacity_from(state: u64) -> i32
    ensures { result ≡ pos (capacity_from state) }
{
    let capacity = state / 65536 % 100;
    signed::of_bits(capacity as u32)
}

// How many edges a grid has.
fn edge_count(rows: usize, columns: usize) -> usize
    requires { (1 ≤ rows) × (rows ≤ 16) × (1 ≤ columns) × (columns ≤ 16) }
    ensures { (result ≡ grid_edges rows columns) × (result ≤ 512) }
{
    times(rows, columns - 1) + times(rows - 1, columns)
}

// The records of all edges, after the head. The first edge takes the state after the seed.
fn write_edges(out: &mut [u8], rows: usize, columns: usize, seed: u64)
    requires { (2 ≤ rows) × (rows ≤ 16) × (2 ≤ columns) × (columns ≤ 16) × (seed < 2147483648) × (practice_length rows columns ≤ length out.old) }
    ensures { (old : List ℕ)
        → out.old ≡ plain_head (grid_drawing rows columns seed) ++ drop (record_length 1) old
        → out.new ≡ encode_plain (grid_drawing rows columns seed) ++ drop (practice_length rows columns) old }
{
    let head = records::record_length(1);
    let edges = edge_count(rows, columns);
    let mut state = seed;
    for e in 0..edges {
        state = next_state(state);
        let forward = capacity_from(state);
        let place = records::edge_at(head, e);
        write_edge(out, place, rows, columns, e, forward);
    }
}

// The head of a sheet, of kind 1.
fn write_head(out: &mut [u8], nodes: u16, edges: u16)
    requires { record_length 1 ≤ length out.old }
    ensures { out.new ≡ put 0 (headBytes nodes edges) out.old }
{
    fields::write_u8(out, 0, 1);
    fields::write_u16(out, 1, nodes);
    fields::write_u16(out, 3, edges);
}

// Refusal 23: rows or columns outside 2 to 16, or a seed too large.
fn out_of_range(rows: usize, columns: usize, seed: u64) -> bool
    ensures { Decides (Outside 2 16 rows ⊎ (Outside 2 16 columns ⊎ (2147483648 ≤ seed))) result }
{
    rows < 2 || 16 < rows || columns < 2 || 16 < columns || 2147483648 <= seed
}

// A practice sheet: a grid with capacities from a seed, as a sheet with a head of kind 1; it tells the number of bytes.
#[tactic(auto, using(crate::proofs::Writing::practice_steps))]
pub fn practice_sheet(rows: u16, columns: u16, seed: u32, out: &mut [u8]) -> Result<usize, Refusal>
    ensures { Practises rows columns seed out.old out.new result }
{
    let height = arrays::wide(rows);
    let width = arrays::wide(columns);
    let start = seed as u64;
    if out_of_range(height, width, start) {
        return refused(23);
    }
    let edges = edge_count(height, width);
    let end = records::edge_at(records::record_length(1), edges);
    if out.len() < end {
        return refused(16);
    }
    write_head(
        out,
        arrays::narrow(times(height, width)),
        arrays::narrow(edges),
    );
    write_edges(out, height, width, start);
    Ok(end)
}
