// Sheets: bytes to the network record and back. Document 01, "Operations": the sheet checks, Read and Write.
#![tactic(auto)]

ghost use Rattle.std.specs.Prelude.{◌≡◌, Ok, IfOk, ℕ, ◌*◌, ◌%◌, ◌+◌, ◌<◌, ◌≤◌, length, get_or, drop, List, ◌++◌, pos};
ghost use Rattle.refusals.specs.Order.{NoneOf, Judged, in_turn};
ghost use Rattle.fields.specs.Fields.{put};
ghost use Rattle.arrays.specs.At.{at, atℤ};
ghost use Rattle.arrays.specs.Filled.{tabulate};
ghost use Rattle.arrays.specs.declared.Sizes.{Sizes};
ghost use Rattle.grouping.specs.inner.Walked.{Walked};
ghost use Rattle.records.specs.Record.{record_length};
ghost use Rattle.records.specs.Sheet.{headLength, nodes_of, edges_of, head_checks};
ghost use Rattle.records.specs.Check.{edge_checks};
ghost use Rattle.records.specs.Encode.{outer_head_bytes, edge_bytes, encode_head, encode, encode_length};
ghost use Rattle.sheets.specs.Open.{Opens};
ghost use Rattle.sheets.specs.inner.Reading.{EdgesRead, network_of};
ghost use Rattle.sheets.specs.Read.{Reads};
ghost use Rattle.sheets.specs.Write.{edges_in, slices_drawing, drawing_checks, Writes};

use arrays::Sizes;
use refusals::{Refusal, refused};

// The network record: what the checks of a sheet found, the sizes of the drawing or a refusal, and of an accepted sheet all 1,024 darts with their tails,
// rotations ("turns"), capacities ("limits") and left faces. An operation holds it in its own frame and lends its arrays to what works on them.
// No Result of the record: a frame would hold the arrays twice.
#[derive(Drop)]
pub struct Network {
    pub opened: Result<Sizes, Refusal>,
    pub tails: [u16; 1024],
    pub rotations: [u16; 1024],
    pub capacities: [i32; 1024],
    pub lefts: [u16; 1024],
}

// Reads the records of the edges, behind a head that passed, each once: checks them in turn, then that nothing is left over, and stores their fields. The
// arrays are all zeros before.
fn read_edges(
    s: &[u8],
    head: usize,
    nodes: usize,
    edges: usize,
    tails: &mut [u16; 1024],
    rotations: &mut [u16; 1024],
    capacities: &mut [i32; 1024],
) -> Result<(), Refusal>
    requires { NoneOf (head_checks s.now) × (head ≡ headLength s.now) × (nodes ≡ nodes_of s.now) × (edges ≡ edges_of s.now)
        × (length tails.old ≡ 1024) × ((d : ℕ) → at tails.old d ≡ 0) × (length rotations.old ≡ 1024) × ((d : ℕ) → at rotations.old d ≡ 0)
        × (length capacities.old ≡ 1024) × ((d : ℕ) → atℤ capacities.old d ≡ pos 0) }
    ensures { (length tails.new ≡ 1024) × (length rotations.new ≡ 1024) × (length capacities.new ≡ 1024)
        × EdgesRead s.now tails.new rotations.new capacities.new result }
{
    for e in 0..edges {
        let edge = records::read_edge(s, head, nodes, edges, e)?;
        tails[2 * e] = edge.tail;
        tails[2 * e + 1] = edge.head;
        rotations[2 * e] = edge.rotation;
        rotations[2 * e + 1] = edge.back_rotation;
        capacities[2 * e] = edge.forward;
        capacities[2 * e + 1] = edge.backward;
    }
    if records::edge_at(head, edges) < s.len() {
        return refused(8);
    }
    Ok(())
}

// The sheet checks on any bytes, in one pass over them. Of an accepted sheet the arrays are filled: with its fields, its left faces, a walk over all darts from
// the outer dart on, and the darts in groups by their right faces. The first four are all zeros before.
fn read_sheet(
    s: &[u8],
    tails: &mut [u16; 1024],
    rotations: &mut [u16; 1024],
    capacities: &mut [i32; 1024],
    lefts: &mut [u16; 1024],
    order: &mut [u16; 1024],
    from: &mut [u16; 1024],
    grouped: &mut [u16; 1024],
    starts: &mut [u16; 1024],
) -> Result<Sizes, Refusal>
    requires { (length tails.old ≡ 1024) × ((d : ℕ) → at tails.old d ≡ 0) × (length rotations.old ≡ 1024) × ((d : ℕ) → at rotations.old d ≡ 0)
        × (length capacities.old ≡ 1024) × ((d : ℕ) → atℤ capacities.old d ≡ pos 0) × (length lefts.old ≡ 1024) × ((d : ℕ) → at lefts.old d ≡ 0)
        × (length order.old ≡ 1024) × (length from.old ≡ 1024) × (length grouped.old ≡ 1024) × (length starts.old ≡ 1024) }
    ensures { (length tails.new ≡ 1024) × (length rotations.new ≡ 1024)
        × (length capacities.new ≡ 1024) × (length lefts.new ≡ 1024)
        × (length order.new ≡ 1024) × (length from.new ≡ 1024)
        × (length grouped.new ≡ 1024) × (length starts.new ≡ 1024)
        × Opens s.now (network_of result tails.new rotations.new capacities.new lefts.new) result
        × IfOk result (λ sizes. Walked (2 * sizes.edges) sizes.faces sizes.outer sizes.parts
        (at rotations.new) lefts.new order.new from.new grouped.new starts.new) }
{
    let head = records::read_head(s)?;
    read_edges(
        s,
        head.length,
        head.nodes,
        head.edges,
        &mut *tails,
        &mut *rotations,
        &mut *capacities,
    )?;
    let counted = rotations::check_map(
        &*tails,
        &*rotations,
        head.nodes,
        head.edges,
        head.outer,
        lefts,
        order,
        from,
        grouped,
        starts,
    )?;
    Ok(Sizes {
        nodes: head.nodes,
        edges: head.edges,
        faces: counted.faces,
        parts: counted.parts,
        outer: head.outer,
    })
}

// Opens a sheet: makes the sheet checks, and gives the network record, which is made at the end and nowhere else, so that no frame holds it twice. Of an
// accepted sheet it also gives what decisions need, the walk and the groups: both are by-products of the checks on the map.
pub fn open_walked(
    s: &[u8],
    order: &mut [u16; 1024],
    from: &mut [u16; 1024],
    grouped: &mut [u16; 1024],
    starts: &mut [u16; 1024],
) -> Network
    requires { (length order.old ≡ 1024) × (length from.old ≡ 1024) × (length grouped.old ≡ 1024) × (length starts.old ≡ 1024) }
    ensures { (length order.new ≡ 1024) × (length from.new ≡ 1024)
        × (length grouped.new ≡ 1024) × (length starts.new ≡ 1024)
        × Opens s.now result result.opened
        × ((sizes : Sizes) → result.opened ≡ Ok sizes → (length result.capacities ≡ 1024)
        × Walked (2 * sizes.edges) sizes.faces sizes.outer sizes.parts (at result.rotations) result.lefts
        order.new from.new grouped.new starts.new) }
{
    let mut tails = [0u16; 1024];
    let mut rotations = [0u16; 1024];
    let mut capacities = [0i32; 1024];
    let mut lefts = [0u16; 1024];
    let opened = read_sheet(
        s,
        &mut tails,
        &mut rotations,
        &mut capacities,
        &mut lefts,
        order,
        from,
        grouped,
        starts,
    );
    Network {
        opened,
        tails,
        rotations,
        capacities,
        lefts,
    }
}

// Opens a sheet for an operation that decides nothing: the walk and the groups are the checks' own.
pub fn open(s: &[u8]) -> Network
    ensures { Opens s.now result result.opened }
{
    let mut order = [0u16; 1024];
    let mut from = [0u16; 1024];
    let mut grouped = [0u16; 1024];
    let mut starts = [0u16; 1024];
    open_walked(s, &mut order, &mut from, &mut grouped, &mut starts)
}

// Copies the front of an array into a slice, all of it.
pub fn copy_front<T: Copy>(from: &[T; 1024], to: &mut [T])
    requires { length to.old ≤ 1024 }
    ensures { (past : T) → to.new ≡ tabulate (length to.old) (λ d. get_or from.now d past) }
{
    let n = to.len();
    arrays::copy(&from[..n], to);
}

// What Read tells: both counts and a dart on the outer face.
#[derive(Clone, Copy, Debug, PartialEq, Eq)]
pub struct Counts {
    pub nodes: u16,
    pub edges: u16,
    pub outer: u16,
}

// Read: a sheet's counts and outer dart and, one element to a dart, its tails, rotations and capacities.
#[tactic(auto, using(crate::proofs::Reading::read_steps))]
pub fn read(
    sheet: &[u8],
    tails: &mut [u16],
    rotations: &mut [u16],
    capacities: &mut [i32],
) -> Result<Counts, Refusal>
    ensures { Reads sheet.now tails.old rotations.old
        capacities.old tails.new rotations.new capacities.new result }
{
    let mut order = [0u16; 1024];
    let mut from = [0u16; 1024];
    let mut grouped = [0u16; 1024];
    let mut starts = [0u16; 1024];
    let net = open_walked(sheet, &mut order, &mut from, &mut grouped, &mut starts);
    let sizes = net.opened?;
    let darts = 2 * sizes.edges;
    if tails.len() < darts || rotations.len() < darts || capacities.len() < darts {
        return refused(16);
    }
    copy_front(&net.tails, &mut tails[..darts]);
    copy_front(&net.rotations, &mut rotations[..darts]);
    copy_front(&net.capacities, &mut capacities[..darts]);
    Ok(Counts {
        nodes: arrays::narrow(sizes.nodes),
        edges: arrays::narrow(sizes.edges),
        outer: arrays::narrow(sizes.outer),
    })
}

// Checks 4 to 7 of one edge of the slices. The outer dart is named by the contract only: it is part of its drawing.
#[tactic(auto, unfolding(records::specs::Check::edge_checks))]
fn check_edge(
    nodes: usize,
    outer: usize,
    tails: &[u16],
    rotations: &[u16],
    capacities: &[i32],
    e: usize,
) -> Result<(), Refusal>
    requires { (length rotations.now ≡ length tails.now) × (length capacities.now ≡ length tails.now)
        × (length tails.now ≤ 1024) × (e < edges_in tails.now) }
    ensures { Judged (edge_checks (slices_drawing nodes outer tails.now rotations.now capacities.now) e) result }
{
    let edges = tails.len() / 2;
    records::check_fields(
        nodes,
        edges,
        usize::from(tails[2 * e]),
        usize::from(tails[2 * e + 1]),
        usize::from(rotations[2 * e]),
        usize::from(rotations[2 * e + 1]),
        capacities[2 * e],
        capacities[2 * e + 1],
    )
}

// Checks 4 to 7, edge by edge.
#[tactic(auto, using(crate::proofs::Opening::in_turn_steps))]
fn check_edges(
    nodes: usize,
    outer: usize,
    tails: &[u16],
    rotations: &[u16],
    capacities: &[i32],
) -> Result<(), Refusal>
    requires { (length rotations.now ≡ length tails.now) × (length capacities.now ≡ length tails.now) × (length tails.now ≤ 1024) }
    ensures { Judged (in_turn (edges_in tails.now)
        (edge_checks (slices_drawing nodes outer tails.now rotations.now capacities.now))) result }
{
    for e in 0..tails.len() / 2 {
        check_edge(nodes, outer, tails, rotations, capacities, e)?;
    }
    Ok(())
}

// Checks 3, 24, 4 to 7 and 9 to 12 on slices of one even length.
#[tactic(auto, unfolding(crate::specs::Write::drawing_checks), using(crate::proofs::Opening::sheet_steps))]
fn check_slices(
    nodes: usize,
    outer: usize,
    tails: &[u16],
    rotations: &[u16],
    capacities: &[i32],
) -> Result<(), Refusal>
    requires { (length rotations.now ≡ length tails.now) × (length capacities.now ≡ length tails.now) × (length tails.now % 2 ≡ 0) }
    ensures { Judged (drawing_checks (slices_drawing nodes outer tails.now rotations.now capacities.now)) result }
{
    let edges = tails.len() / 2;
    records::check_numbers(nodes, edges, outer)?;
    check_edges(nodes, outer, tails, rotations, capacities)?;
    let mut all_tails = [0u16; 1024];
    let mut all_rotations = [0u16; 1024];
    let mut lefts = [0u16; 1024];
    let mut order = [0u16; 1024];
    let mut from = [0u16; 1024];
    let mut grouped = [0u16; 1024];
    let mut starts = [0u16; 1024];
    arrays::copy(tails, &mut all_tails[..tails.len()]);
    arrays::copy(rotations, &mut all_rotations[..tails.len()]);
    rotations::check_map(
        &all_tails,
        &all_rotations,
        nodes,
        edges,
        outer,
        &mut lefts,
        &mut order,
        &mut from,
        &mut grouped,
        &mut starts,
    )?;
    Ok(())
}

// The head of a sheet, of kind 4.
fn write_head(out: &mut [u8], nodes: u16, edges: u16, outer: u16)
    requires { record_length 4 ≤ length out.old }
    ensures { out.new ≡ put 0 (outer_head_bytes nodes edges outer) out.old }
{
    fields::write_u8(out, 0, 4);
    fields::write_u16(out, 1, nodes);
    fields::write_u16(out, 3, edges);
    fields::write_u16(out, 5, outer);
}

// The record of an edge.
fn write_edge(
    out: &mut [u8],
    place: usize,
    tail: u16,
    head: u16,
    rotation: u16,
    back_rotation: u16,
    forward: i32,
    backward: i32,
)
    requires { (place ≤ 100000) × (place + record_length 2 ≤ length out.old) }
    ensures { out.new ≡ put place (edge_bytes tail head rotation back_rotation forward backward) out.old }
{
    fields::write_u8(out, place, 2);
    fields::write_u16(out, place + 1, tail);
    fields::write_u16(out, place + 3, head);
    fields::write_u16(out, place + 5, rotation);
    fields::write_u16(out, place + 7, back_rotation);
    fields::write_i32(out, place + 9, forward);
    fields::write_i32(out, place + 13, backward);
}

// The records of all edges, after the head.
fn write_edges(out: &mut [u8], tails: &[u16], rotations: &[u16], capacities: &[i32])
    requires { (length rotations.now ≡ length tails.now) × (length capacities.now ≡ length tails.now)
        × (length tails.now ≤ 1024) × (encode_length (edges_in tails.now) ≤ length out.old) }
    ensures { (nodes outer : ℕ) (old : List ℕ)
        → out.old ≡ encode_head (slices_drawing nodes outer tails.now rotations.now capacities.now)
        ++ drop (record_length 4) old
        → out.new ≡ encode (slices_drawing nodes outer tails.now rotations.now capacities.now)
        ++ drop (encode_length (edges_in tails.now)) old }
{
    let head = records::record_length(4);
    for e in 0..tails.len() / 2 {
        let place = records::edge_at(head, e);
        write_edge(
            out,
            place,
            tails[2 * e],
            tails[2 * e + 1],
            rotations[2 * e],
            rotations[2 * e + 1],
            capacities[2 * e],
            capacities[2 * e + 1],
        );
    }
}

// Write: the bytes of the sheet that a node count, a dart on the outer face and three slices, one element to a dart, describe; it tells how many they are. Its
// head is of kind 4.
#[tactic(auto, using(crate::proofs::Writing::write_steps))]
pub fn write(
    nodes: u16,
    outer: u16,
    tails: &[u16],
    rotations: &[u16],
    capacities: &[i32],
    out: &mut [u8],
) -> Result<usize, Refusal>
    ensures { Writes nodes outer tails.now rotations.now capacities.now out.old out.new result }
{
    let length = tails.len();
    if rotations.len() != length || capacities.len() != length || length % 2 != 0 {
        return refused(16);
    }
    check_slices(
        arrays::wide(nodes),
        arrays::wide(outer),
        tails,
        rotations,
        capacities,
    )?;
    let edges = length / 2;
    let end = records::edge_at(records::record_length(4), edges);
    if out.len() < end {
        return refused(16);
    }
    write_head(out, nodes, arrays::narrow(edges), outer);
    write_edges(out, tails, rotations, capacities);
    Ok(end)
}
