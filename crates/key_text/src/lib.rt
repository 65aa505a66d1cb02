// The text of the program key, made in memory. Document 01, "The program key": "The text is made in memory by a proved function of the bytes read".
#![tactic(auto)]

ghost use Rattle.std.specs.Prelude.{◌≡◌, List, ℕ, ◌+◌, ◌*◌, ◌≤◌, ◌<◌, length};
ghost use Rattle.integers.specs.inner.Limited.{Limited};
ghost use Rattle.refusals.specs.Order.{NoneOf};
ghost use Rattle.records.specs.Record.{record_checks};
ghost use Rattle.arrays.specs.At.{atℤ};
ghost use Rattle.texts.specs.inner.Placed.{Placed};
ghost use Rattle.texts.specs.Lines.{lines};
ghost use Rattle.key_text.specs.Question.{source_of, sink_of, value_of, sheet_of};
ghost use Rattle.key_text.specs.Text.{edge_line, can_line, can_text, node_line, cannot_line, cannot_text, refused_text};
ghost use Rattle.key_text.specs.Key.{Prints, text_room, Writes};
ghost use Rattle.key_text.specs.Input.{input_room, Begins};
ghost use Rattle.key_text.specs.inner.Named.{KeyNamed, WriteNamed};

use questions::Solution;
use refusals::{Refusal, refused};

// "refused" and the number of the refusal.
pub fn put_refused(text: &mut [u8], k: u8) -> usize
    requires { 12 ≤ length text.old }
    ensures { Placed 0 (refused_text k) text.old text.new result }
{
    let at = texts::put_bytes(text, 0, b"refused ");
    let end = texts::put_decimal(text, at, u32::from(k));
    texts::put_bytes(text, end, b"\n")
}

// The line of an edge: its number and its flow.
fn put_edge(text: &mut [u8], at: usize, e: usize, flow: i32) -> usize
    requires { (at + 13 ≤ length text.old) × (e < 1000) × Limited 1000000 flow }
    ensures { Placed at (edge_line e flow) text.old text.new result }
{
    let first = texts::put_decimal(text, at, e as u32);
    let second = texts::put_bytes(text, first, b" ");
    let end = texts::put_number(text, second, flow);
    texts::put_bytes(text, end, b"\n")
}

// The lines of the edges, in their order.
fn put_edges(text: &mut [u8], at: usize, edges: usize, flows: &[i32; 512]) -> usize
    requires { (at + 13 * edges ≤ length text.old) × (edges ≤ 512) × ((e : ℕ) → e < edges → Limited 1000000 (atℤ flows.now e)) }
    ensures { Placed at (lines edges (λ e. edge_line e (atℤ flows.now e))) text.old text.new result }
{
    let mut end = at;
    for e in 0..edges {
        end = put_edge(text, end, e, flows[e]);
    }
    end
}

// "can" and the value.
fn put_can_line(text: &mut [u8], value: i32) -> usize
    requires { (15 ≤ length text.old) × Limited 600000000 value }
    ensures { Placed 0 (can_line value) text.old text.new result }
{
    let at = texts::put_bytes(text, 0, b"can ");
    let end = texts::put_number(text, at, value);
    texts::put_bytes(text, end, b"\n")
}

// "can" and the value, then the lines of the edges.
fn put_can(text: &mut [u8], value: i32, edges: usize, flows: &[i32; 512]) -> usize
    requires { (15 + 13 * edges ≤ length text.old) × Limited 600000000 value
        × (edges ≤ 512) × ((e : ℕ) → e < edges → Limited 1000000 (atℤ flows.now e)) }
    ensures { Placed 0 (can_text value edges (atℤ flows.now)) text.old text.new result }
{
    let at = put_can_line(text, value);
    put_edges(text, at, edges, flows)
}

// The line of a node, if it is in the set.
fn put_node(text: &mut [u8], at: usize, set: &[u64; 9], v: usize) -> usize
    requires { (at + 4 ≤ length text.old) × (v < 513) }
    ensures { Placed at (node_line set.now v) text.old text.new result }
{
    if node_sets::contains(set, v) {
        let end = texts::put_decimal(text, at, v as u32);
        return texts::put_bytes(text, end, b"\n");
    }
    at
}

// The lines of the nodes in the set, rising.
fn put_nodes(text: &mut [u8], at: usize, nodes: usize, set: &[u64; 9]) -> usize
    requires { (at + 4 * nodes ≤ length text.old) × (nodes ≤ 513) }
    ensures { Placed at (lines nodes (node_line set.now)) text.old text.new result }
{
    let mut end = at;
    for v in 0..nodes {
        end = put_node(text, end, set, v);
    }
    end
}

// "cannot", the value and the size of the set.
fn put_cannot_line(text: &mut [u8], value: i32, size: u16) -> usize
    requires { (24 ≤ length text.old) × Limited 600000000 value }
    ensures { Placed 0 (cannot_line value size) text.old text.new result }
{
    let first = texts::put_bytes(text, 0, b"cannot ");
    let second = texts::put_number(text, first, value);
    let third = texts::put_bytes(text, second, b" ");
    let end = texts::put_decimal(text, third, u32::from(size));
    texts::put_bytes(text, end, b"\n")
}

// "cannot", the value and the size, then the lines of the nodes in the set.
fn put_cannot(text: &mut [u8], value: i32, size: u16, nodes: usize, set: &[u64; 9]) -> usize
    requires { (24 + 4 * nodes ≤ length text.old) × Limited 600000000 value × (nodes ≤ 513) }
    ensures { Placed 0 (cannot_text value size nodes set.now) text.old text.new result }
{
    let at = put_cannot_line(text, value, size);
    put_nodes(text, at, nodes, set)
}

// The key of a question on a sheet, whichever bytes they were read from.
fn put_answer(sheet: &[u8], source: u16, sink: u16, value: i32, text: &mut [u8]) -> usize
    requires { text_room ≤ length text.old }
    ensures { (b : List ℕ) → NoneOf (record_checks b 3 0) → sheet_of b ≡ sheet.now → source_of b ≡ source → sink_of b ≡ sink → value_of b ≡ value
        → Prints b text.old text.new result × KeyNamed b text.new result }
{
    let mut flows = [0i32; 512];
    let mut set = [0u64; 9];
    match analyser::solve(sheet, source, sink, value, &mut flows, &mut set) {
        Ok(Solution::Can) => put_can(text, value, records::edges_of(sheet), &flows),
        Ok(Solution::Cannot(n)) => put_cannot(text, value, n, records::nodes_of(sheet), &set),
        Err(refusal) => put_refused(text, refusal.number),
    }
}

// The key of the bytes that were read: a question, then a sheet. The question's own refusals, 1 and 2, come first.
fn put_key(input: &[u8], text: &mut [u8]) -> usize
    requires { text_room ≤ length text.old }
    ensures { Prints input.now text.old text.new result × KeyNamed input.now text.new result }
{
    if let Err(refusal) = records::check_record(input, 3, 0) {
        return put_refused(text, refusal.number);
    }
    let source = fields::read_u16(input, 1);
    let sink = fields::read_u16(input, 3);
    let value = fields::read_i32(input, 5);
    let after = records::record_length(3);
    put_answer(&input[after..], source, sink, value, text)
}

// The key in an array that is long enough for every key: this is what the program prints.
pub fn key_text(input: &[u8], text: &mut [u8; 6671]) -> usize
    ensures { Prints input.now text.old text.new result × KeyNamed input.now text.new result }
{
    put_key(input, text)
}

// The key of an input whose first n bytes stand in the buffer, whether it ends there or the buffer is full and more may follow: the program's own call. What is
// left unread decides nothing, since the buffer is longer than every input that can be accepted; a shorter one would not see a byte left over.
pub fn key_of_input(buffer: &[u8], n: usize, text: &mut [u8; 6671]) -> usize
    requires { (input_room ≤ length buffer.now) × (n ≤ length buffer.now) }
    ensures { (whole : List ℕ) → Begins buffer.now n whole
        → Prints whole text.old text.new result × KeyNamed whole text.new result }
{
    key_text(&buffer[0..n], text)
}

// The key in a slice of any length, and how many bytes of it are the key: 16 where it is shorter than some key.
pub fn write_key(input: &[u8], text: &mut [u8]) -> Result<usize, Refusal>
    ensures { Writes input.now text.old text.new result × WriteNamed input.now text.new result }
{
    if text.len() < 6671 {
        return refused(16);
    }
    Ok(put_key(input, text))
}
