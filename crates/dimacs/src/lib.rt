// The DIMACS maximum flow text of a drawing that is open and sound, held in lent arrays. Document 02, Job 2. How long the text is, is found before its first
// byte is written, straight into the lent output.
#![tactic(auto)]

ghost use Rattle.std.specs.Prelude.{◌≡◌, ◌∷◌, ◌++◌, ◌+◌, ◌≤◌, length};
ghost use Rattle.refusals.specs.Order.{Decides};
ghost use Rattle.arrays.specs.At.{atℤ};
ghost use Rattle.arrays.specs.Maps.{drawing_of};
ghost use Rattle.texts.specs.Decimal.{decimal};
ghost use Rattle.texts.specs.inner.Placed.{Placed};
ghost use Rattle.dimacs.specs.Text.{natural, problem_line, arc_line};
ghost use Rattle.dimacs.specs.Write.{BelowZero, text_of, text_checks, TextWritten};
ghost use Rattle.dimacs.specs.inner.ArcLines.{arc_lines};

use refusals::{Refusal, refused};

// The number of a node in the text, where nodes count from 1.
fn node_number(v: u16) -> u32
    ensures { result ≡ v + 1 }
{
    u32::from(v) + 1
}

// A capacity that is not below zero, at the width in which digits are taken.
fn capacity_number(c: i32) -> u32
    ensures { result ≡ natural c }
{
    u32::try_from(c).unwrap_or(0)
}

// Whether some capacity is below zero, forward or back: refusal 22.
fn some_negative(capacities: &[i32; 1024], darts: usize) -> bool
    requires { darts ≤ 1024 }
    ensures { Decides (BelowZero darts (atℤ capacities.now)) result }
{
    // A for over places: an iterator over the slice hands out addresses, and the module's text would have to be changed for machines of 32 bits.
    for d in 0..darts {
        if capacities[d] < 0 {
            return true;
        }
    }
    false
}

// How long the line of an arc is: its three numbers, and "a", three spaces and the line feed.
fn arc_length(tail: u16, head: u16, capacity: i32) -> usize
    ensures { (result ≡ length (arc_line tail head capacity)) × (result ≤ 35) }
{
    let ends = texts::digit_count(node_number(tail)) + texts::digit_count(node_number(head));
    ends + texts::digit_count(capacity_number(capacity)) + 5
}

// How long the lines of all arcs are.
fn arcs_length(tails: &[u16; 1024], capacities: &[i32; 1024], darts: usize) -> usize
    requires { darts ≤ 1024 }
    ensures { (result ≡ length (arc_lines tails.now capacities.now darts)) × (result ≤ 35840) }
{
    let mut sum: usize = 0;
    for d in 0..darts {
        let back = arrays::reverse(d);
        sum += arc_length(tails[d], tails[back], capacities[d]);
    }
    sum
}

// How long the text is.
fn text_length<'a>(
    tails: &'a [u16; 1024],
    rotations: &'a [u16; 1024],
    capacities: &'a [i32; 1024],
    nodes: usize,
    edges: usize,
    outer: usize,
    source: u16,
    sink: u16,
) -> usize
    requires { (nodes ≤ 1024) × (edges ≤ 512) }
    ensures { result ≡ length (text_of (drawing_of nodes edges outer tails.now rotations.now capacities.now) source sink) }
{
    let counts = texts::digit_count(nodes as u32) + texts::digit_count((2 * edges) as u32) + 8;
    let ends = texts::digit_count(node_number(source)) + texts::digit_count(node_number(sink)) + 10;
    let arcs = arcs_length(tails, capacities, 2 * edges);
    counts + ends + arcs
}

// A number and the bytes behind it: a space, or the end of the line.
fn put_field(text: &mut [u8], at: usize, n: u32, after: &[u8]) -> usize
    requires { at + length (decimal n) + length after.now ≤ length text.old }
    ensures { Placed at (decimal n ++ after.now) text.old text.new result }
{
    let end = texts::put_decimal(text, at, n);
    texts::put_bytes(text, end, after)
}

// "p max", the number of nodes and the number of arcs.
fn put_problem(text: &mut [u8], nodes: usize, arcs: usize) -> usize
    requires { (nodes ≤ 1024) × (arcs ≤ 1024) × (length (problem_line nodes arcs) ≤ length text.old) }
    ensures { Placed 0 (problem_line nodes arcs) text.old text.new result }
{
    let first = texts::put_bytes(text, 0, b"p max ");
    let second = put_field(text, first, nodes as u32, b" ");
    put_field(text, second, arcs as u32, b"\n")
}

// "n", a node, and what it is: " s" or " t" and the line feed.
fn put_node(text: &mut [u8], at: usize, v: u16, role: &[u8]) -> usize
    requires { at + length (110 ∷ 32 ∷ (decimal (v + 1) ++ role.now)) ≤ length text.old }
    ensures { Placed at (110 ∷ 32 ∷ (decimal (v + 1) ++ role.now)) text.old text.new result }
{
    let first = texts::put_bytes(text, at, b"n ");
    put_field(text, first, node_number(v), role)
}

// "a", the two ends of an arc and its capacity.
fn put_arc(text: &mut [u8], at: usize, tail: u16, head: u16, capacity: i32) -> usize
    requires { at + length (arc_line tail head capacity) ≤ length text.old }
    ensures { Placed at (arc_line tail head capacity) text.old text.new result }
{
    let first = texts::put_bytes(text, at, b"a ");
    let second = put_field(text, first, node_number(tail), b" ");
    let third = put_field(text, second, node_number(head), b" ");
    put_field(text, third, capacity_number(capacity), b"\n")
}

// The lines of the arcs, dart by dart: of each edge the forward arc first.
fn put_arcs(
    text: &mut [u8],
    first: usize,
    tails: &[u16; 1024],
    capacities: &[i32; 1024],
    darts: usize,
) -> usize
    requires { (darts ≤ 1024)
        × (first + length (arc_lines tails.now capacities.now darts) ≤ length text.old) }
    ensures { Placed first (arc_lines tails.now capacities.now darts)
        text.old text.new result }
{
    let mut end = first;
    for d in 0..darts {
        let back = arrays::reverse(d);
        end = put_arc(text, end, tails[d], tails[back], capacities[d]);
    }
    end
}

// The text, into a slice that is as long as it is: the problem line, the source, the sink, the arcs.
fn put_text<'a>(
    tails: &'a [u16; 1024],
    rotations: &'a [u16; 1024],
    capacities: &'a [i32; 1024],
    nodes: usize,
    edges: usize,
    outer: usize,
    source: u16,
    sink: u16,
    text: &mut [u8],
) -> usize
    requires { (nodes ≤ 1024) × (edges ≤ 512)
        × (length text.old ≡ length (text_of (drawing_of nodes edges outer tails.now rotations.now capacities.now) source sink)) }
    ensures { Placed 0 (text_of (drawing_of nodes edges outer tails.now rotations.now capacities.now) source sink)
        text.old text.new result }
{
    let first = put_problem(text, nodes, 2 * edges);
    let second = put_node(text, first, source, b" s\n");
    let third = put_node(text, second, sink, b" t\n");
    put_arcs(text, third, tails, capacities, 2 * edges)
}

// The text in front of the lent output; the answer is how many bytes it has. The rotations and the outer dart are named by the contract only: they are part
// of its drawing.
pub fn write<'a>(
    tails: &'a [u16; 1024],
    rotations: &'a [u16; 1024],
    capacities: &'a [i32; 1024],
    nodes: usize,
    edges: usize,
    outer: usize,
    source: u16,
    sink: u16,
    out: &mut [u8],
) -> Result<usize, Refusal>
    requires { (nodes ≤ 1024) × (edges ≤ 512) }
    ensures { TextWritten (drawing_of nodes edges outer tails.now rotations.now capacities.now)
        (text_checks (drawing_of nodes edges outer tails.now rotations.now capacities.now) source sink out.old)
        source sink out.old out.new result }
{
    questions::check_ends(nodes, usize::from(source), usize::from(sink))?;
    if some_negative(capacities, 2 * edges) {
        return refused(22);
    }
    let length = text_length(
        tails, rotations, capacities, nodes, edges, outer, source, sink,
    );
    if out.len() < length {
        return refused(16);
    }
    Ok(put_text(
        tails,
        rotations,
        capacities,
        nodes,
        edges,
        outer,
        source,
        sink,
        &mut out[0..length],
    ))
}
