// A session of two parties: a start on the sheet of part 1, in memory that holds other numbers, then the calls of part 2 in turn. A call has 12 bytes: its
// kind, party, source and sink, 16 bits each, and its value in 32. Kind 0 asks, 1 commits, any other clears.
use super::{case, operations, say};
use parties::SessionSizes;
use refusals::Refusal;

fn say_verdict<R: Print>(rt: &R, answer: Result<(), Refusal>) {
    match answer {
        Ok(()) => say::say(rt, b": done"),
        Err(refusal) => say::refused(rt, refusal),
    }
}

// The limits left, two to an edge.
fn say_left<R: Print>(rt: &R, edges: u16, left: &[i32; 1024]) {
    say::say(rt, b": left");
    let darts = darts_of(edges);
    for (d, limit) in left.iter().enumerate() {
        if d < darts {
            say::number(rt, *limit);
        }
    }
}

fn darts_of(edges: u16) -> usize {
    2 * usize::from(edges)
}

// Of each array, what a start left as it was in memory: past the last dart, and in the offers, all is zero.
fn say_old<R: Print, T: Copy + PartialEq + Default>(rt: &R, from: usize, values: &[T]) {
    for (i, x) in values.iter().enumerate() {
        if from <= i && *x != T::default() {
            say::say(rt, b": old");
        }
    }
}

fn ask<'a, R: Print>(
    rt: &R,
    c: &[u8],
    nodes: u16,
    edges: u16,
    outer: u16,
    tails: &'a [u16; 1024],
    rotations: &'a [u16; 1024],
    limits: &[i32; 1024],
    left: &'a [i32; 1024],
    standing: &mut [u8; 2],
    first: &mut [i32; 512],
    second: &mut [i32; 512],
    flows: &mut [i32],
    set: &mut [u64],
) {
    let sizes = SessionSizes {
        nodes,
        edges,
        outer,
    };
    operations::say_solve(
        rt,
        parties::ask(
            case::half(c, 2),
            sizes,
            tails,
            rotations,
            limits,
            left,
            standing,
            first,
            second,
            case::half(c, 4),
            case::half(c, 6),
            case::word(c, 8),
            flows,
            set,
        ),
    );
}

// The call that the bytes begin with.
fn call<'a, R: Print>(
    rt: &R,
    c: &[u8],
    nodes: u16,
    edges: u16,
    outer: u16,
    tails: &'a [u16; 1024],
    rotations: &'a [u16; 1024],
    limits: &[i32; 1024],
    left: &mut [i32; 1024],
    standing: &mut [u8; 2],
    first: &mut [i32; 512],
    second: &mut [i32; 512],
    flows: &mut [i32],
    set: &mut [u64],
) {
    let kind = case::half(c, 0);
    if kind == 0 {
        ask(
            rt, c, nodes, edges, outer, tails, rotations, limits, &*left, standing, first, second,
            flows, set,
        );
    } else if kind == 1 {
        let party = case::half(c, 2);
        say_verdict(
            rt,
            parties::commit(
                party, nodes, edges, outer, tails, rotations, limits, left, standing, first, second,
            ),
        );
    } else {
        parties::clear(
            nodes, edges, outer, tails, rotations, limits, left, standing, first, second,
        );
        say::say(rt, b": cleared");
    }
}

pub fn session<R: Print>(rt: &R, s: &[u8], flows: &mut [i32], set: &mut [u64]) {
    let mut nodes: u16 = 9;
    let mut edges: u16 = 9;
    let mut outer: u16 = 9;
    let mut tails = [9u16; 1024];
    let mut rotations = [9u16; 1024];
    let mut limits = [9i32; 1024];
    let mut left = [9i32; 1024];
    let mut standing = [3u8; 2];
    let mut first = [9i32; 512];
    let mut second = [9i32; 512];
    say_verdict(
        rt,
        parties::start(
            case::part(s, 1),
            &mut nodes,
            &mut edges,
            &mut outer,
            &mut tails,
            &mut rotations,
            &mut limits,
            &mut left,
            &mut standing,
            &mut first,
            &mut second,
        ),
    );
    let darts = darts_of(edges);
    say_old(rt, darts, &tails);
    say_old(rt, darts, &rotations);
    say_old(rt, darts, &limits);
    say_old(rt, darts, &left);
    say_old(rt, 0, &first);
    say_old(rt, 0, &second);
    let calls = case::part(s, 2);
    for c in calls.chunks_exact(12) {
        call(
            rt,
            c,
            nodes,
            edges,
            outer,
            &tails,
            &rotations,
            &limits,
            &mut left,
            &mut standing,
            &mut first,
            &mut second,
            flows,
            set,
        );
    }
    say_left(rt, edges, &left);
}
