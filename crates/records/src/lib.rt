// Records of a sheet: the table of body lengths, and the checks 1 to 8 on bytes, in the order of document 01, "Operations".
#![tactic(auto)]

ghost use Rattle.std.specs.Prelude.{◌≡◌, ◌+◌, ◌*◌, ◌<◌, ◌≤◌, length};
ghost use Rattle.refusals.specs.Order.{Judged, Decides};
ghost use Rattle.fields.specs.Fields.{u16_at};
ghost use Rattle.records.specs.Record.{body_length, record_length, record_checks};
ghost use Rattle.records.specs.Check.{CapacityOutside, number_checks, capacity_checks, field_checks};
ghost use Rattle.records.specs.Sheet.{nodes_of, edges_of, outer_of, headLength, edge_after, head_record_checks};
ghost use Rattle.records.specs.inner.Reading.{HeadRead, EdgeRead};

use refusals::{Refusal, refused};

// The body length of each kind of record: kind 0 is none, 1 a head, 2 an edge, 3 a question, 4 a head that names the outer dart, 5 an entry of a capture.
const BODY: [u8; 6] = [0, 4, 16, 8, 6, 10];

// A field of 16 bits, widened.
fn read_wide(s: &[u8], at: usize) -> usize
    requires { at + 1 < length s.now }
    ensures { result ≡ u16_at s.now at }
{
    usize::from(fields::read_u16(s, at))
}

// The two counts of a head.
pub fn nodes_of(s: &[u8]) -> usize
    requires { record_length 1 ≤ length s.now }
    ensures { result ≡ nodes_of s.now }
{
    read_wide(s, 1)
}

pub fn edges_of(s: &[u8]) -> usize
    requires { record_length 1 ≤ length s.now }
    ensures { result ≡ edges_of s.now }
{
    read_wide(s, 3)
}

// Every reader of records takes a body's length from the table; 0 for a kind that there is not.
pub fn body_length(kind: u8) -> u8
    ensures { result ≡ body_length kind }
{
    let k = usize::from(kind);
    if k < 6 { BODY[k] } else { 0 }
}

// A record: the byte of kind, and the body.
pub fn record_length(kind: u8) -> usize
    ensures { (result ≡ record_length kind) × (result ≤ 256) }
{
    1 + usize::from(body_length(kind))
}

// The head of a sheet is as long as its kind says.
#[tactic(auto, unfolding(crate::specs::Sheet::headLength))]
pub fn head_length(s: &[u8]) -> usize
    requires { 1 ≤ length s.now }
    ensures { (result ≡ headLength s.now) × (result ≤ 256) }
{
    record_length(s[0])
}

// The dart on the outer face that the head names after its counts: a head of kind 1 names none, and it is dart 0. Only a head of kind 4 is read there.
#[tactic(auto, unfolding(crate::specs::Sheet::outer_of, crate::specs::Sheet::headLength))]
pub fn outer_of(s: &[u8]) -> usize
    requires { headLength s.now ≤ length s.now }
    ensures { result ≡ outer_of s.now }
{
    if s[0] == 4 { read_wide(s, 5) } else { 0 }
}

// Where the record of edge e begins, after a head of so many bytes; after the last one the sheet ends.
pub fn edge_at(head: usize, e: usize) -> usize
    requires { (head ≤ 256) × (e ≤ 512) }
    ensures { result ≡ edge_after head e }
{
    head + record_length(2) * e
}

// A record of this kind, whole, at `at`. A wrong kind is 2 even where the body is cut short. Of a record that is whole only the kind is left to look at.
#[tactic(auto, unfolding(refusals::specs::Order::NoneOf, refusals::specs::Order::FirstOf, crate::specs::Record::record_checks))]
pub fn check_record(s: &[u8], kind: u8, at: usize) -> Result<(), Refusal>
    requires { at ≤ 100000 }
    ensures { Judged (record_checks s.now kind at) result }
{
    let end = at + record_length(kind);
    if end <= s.len() {
        if s[at] == kind {
            return Ok(());
        }
        return refused(2);
    }
    if s.len() <= at {
        return refused(1);
    }
    if s[at] != kind {
        return refused(2);
    }
    refused(1)
}

// Checks 3 and 24: 2 to 513 nodes, 1 to 512 edges, then an outer dart that is a dart. Twice the edges is taken only once they are known to be few.
#[tactic(auto, unfolding(refusals::specs::Order::NoneOf, refusals::specs::Order::FirstOf, crate::specs::Check::number_checks))]
pub fn check_numbers(nodes: usize, edges: usize, outer: usize) -> Result<(), Refusal>
    ensures { Judged (number_checks nodes edges outer) result }
{
    if nodes < 2 || 513 < nodes || edges < 1 || 512 < edges {
        return refused(3);
    }
    if 2 * edges <= outer {
        return refused(24);
    }
    Ok(())
}

// The record of a head, of either kind, whole. As for every record the kind is looked at before the length, which depends on it.
#[tactic(auto, unfolding(refusals::specs::Order::NoneOf, refusals::specs::Order::FirstOf, crate::specs::Sheet::head_record_checks))]
fn check_head_record(s: &[u8]) -> Result<(), Refusal>
    ensures { Judged (head_record_checks s.now) result }
{
    if s.is_empty() {
        return refused(1);
    }
    if s[0] != 1 && s[0] != 4 {
        return refused(2);
    }
    if s.len() < head_length(s) {
        return refused(1);
    }
    Ok(())
}

// The head of a sheet: its length and its numbers.
#[derive(Clone, Copy, Debug, PartialEq, Eq)]
pub struct Head {
    pub length: usize,
    pub nodes: usize,
    pub edges: usize,
    pub outer: usize,
}

// Reads the head of a sheet and checks it: its record, then its numbers. A body of 4 bytes and one of 6 have the counts at the same places; the outer dart is
// read only of a head that is whole and names one.
#[tactic(auto, unfolding(crate::specs::Sheet::head_checks), using(crate::proofs::Heads::head_steps))]
pub fn read_head(s: &[u8]) -> Result<Head, Refusal>
    ensures { HeadRead s.now result }
{
    check_head_record(s)?;
    let head = Head {
        length: head_length(s),
        nodes: nodes_of(s),
        edges: edges_of(s),
        outer: outer_of(s),
    };
    check_numbers(head.nodes, head.edges, head.outer)?;
    Ok(head)
}

// A capacity is −1,000,000 to 1,000,000.
fn capacity_outside(c: i32) -> bool
    ensures { Decides (CapacityOutside c) result }
{
    c < -1000000 || c > 1000000
}

// Checks 6 and 7 on the two capacities of an edge. The first that holds is named: a capacity out of range is 6 even where the two add to less than zero.
// The sum is taken at 64 bits, where it cannot wrap: before check 6 the two may be any 32 bits.
#[tactic(auto, unfolding(refusals::specs::Order::NoneOf, refusals::specs::Order::FirstOf))]
pub fn check_capacities(forward: i32, backward: i32) -> Result<(), Refusal>
    ensures { Judged (capacity_checks forward backward) result }
{
    if capacity_outside(forward) || capacity_outside(backward) {
        return refused(6);
    }
    if signed::add32(forward, backward) < 0 {
        return refused(7);
    }
    Ok(())
}

// Checks 4 to 7 on the six fields of an edge. The first that holds is named. A rotation must be a dart of this drawing, so it is compared with twice its edges.
#[tactic(auto, unfolding(refusals::specs::Order::NoneOf, refusals::specs::Order::FirstOf, crate::specs::Check::field_checks))]
pub fn check_fields(
    nodes: usize,
    edges: usize,
    tail: usize,
    head: usize,
    rotation: usize,
    back_rotation: usize,
    forward: i32,
    backward: i32,
) -> Result<(), Refusal>
    requires { edges ≤ 512 }
    ensures { Judged (field_checks nodes edges tail head rotation back_rotation forward backward) result }
{
    let darts = 2 * edges;
    if nodes <= tail || nodes <= head {
        return refused(4);
    }
    if darts <= rotation || darts <= back_rotation {
        return refused(5);
    }
    check_capacities(forward, backward)
}

// The record of an edge: its fields.
#[derive(Clone, Copy, Debug, PartialEq, Eq)]
pub struct Edge {
    pub tail: u16,
    pub head: u16,
    pub rotation: u16,
    pub back_rotation: u16,
    pub forward: i32,
    pub backward: i32,
}

// Reads the record of edge e and checks it against the head's counts: the record, whole, then its fields. They are read once, and only of a record that is
// known to be whole.
#[tactic(auto, unfolding(crate::specs::Sheet::edge_record_checks), using(crate::proofs::EdgeRead::edge_steps))]
pub fn read_edge(
    s: &[u8],
    head: usize,
    nodes: usize,
    edges: usize,
    e: usize,
) -> Result<Edge, Refusal>
    requires { (edges ≤ 512) × (e < edges) × (head ≤ 256) × (head ≡ headLength s.now) × (nodes ≡ nodes_of s.now) × (edges ≡ edges_of s.now) }
    ensures { EdgeRead s.now e result }
{
    let at = edge_at(head, e);
    check_record(s, 2, at)?;
    let edge = Edge {
        tail: fields::read_u16(s, at + 1),
        head: fields::read_u16(s, at + 3),
        rotation: fields::read_u16(s, at + 5),
        back_rotation: fields::read_u16(s, at + 7),
        forward: fields::read_i32(s, at + 9),
        backward: fields::read_i32(s, at + 13),
    };
    check_fields(
        nodes,
        edges,
        usize::from(edge.tail),
        usize::from(edge.head),
        usize::from(edge.rotation),
        usize::from(edge.back_rotation),
        edge.forward,
        edge.backward,
    )?;
    Ok(edge)
}
