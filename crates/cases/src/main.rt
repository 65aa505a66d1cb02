// Every operation at the edges of document 01, case by case: the cases come as data from standard input, where
// `tools/cases` packs the texts of `tests/cases`, and each is printed as one line: the operation and the case's name,
// the answer, and every slice that the operation may write, as the call left it. `stdout` has what the texts expect.
#![tactic(auto)]

ghost use Rattle.std.specs.Prelude.{◌≡◌, ◌≤◌, length, take};

use std::io::Read;

mod case;
mod operations;
mod say;
mod session;

// The operation of a case on the slices that it is lent. A new one is an arm here, a function in `operations` and a row in `tools/cases`.
fn run<R: Print>(
    rt: &R,
    s: &[u8],
    tails: &mut [u16],
    rotations: &mut [u16],
    first: &mut [i32],
    second: &mut [i32],
    set: &mut [u64],
    second_set: &mut [u64],
    bytes: &mut [u8],
) {
    match case::half(s, 0) {
        1 => operations::read(rt, s, tails, rotations, first),
        2 => operations::write(rt, s, tails, rotations, first, bytes),
        3 => operations::solve(rt, s, first, set),
        4 => operations::largest(rt, s, first, set),
        5 => operations::mark(rt, s, first),
        6 => operations::levels(rt, s, first, second),
        7 => operations::settings(rt, s, first, second),
        8 => operations::key(rt, s),
        9 => operations::write_key(rt, s, bytes),
        10 => operations::least_and_largest(rt, s, first, second, set, second_set),
        19 => operations::totals(rt, s, first, set),
        15 => operations::practice(rt, s, bytes),
        11 => operations::raise_limit(rt, s, first, set),
        25 => operations::largest_after(rt, s, first, second, set),
        12 => operations::write_dimacs(rt, s, bytes),
        41 => operations::examine(rt, s, first, second, set, bytes),
        21 => operations::page(rt, s, tails, rotations, first, second, set),
        31 => session::session(rt, s, first, set),
        _ => say::say(rt, b": no such operation"),
    }
}

// The call, and the slices after it that have a name in the case.
fn show<R: Print>(
    rt: &R,
    s: &[u8],
    tails: &mut [u16],
    rotations: &mut [u16],
    first: &mut [i32],
    second: &mut [i32],
    set: &mut [u64],
    second_set: &mut [u64],
    bytes: &mut [u8],
) {
    run(
        rt, s, tails, rotations, first, second, set, second_set, bytes,
    );
    say::numbers(rt, s, 9, tails);
    say::numbers(rt, s, 10, rotations);
    say::numbers(rt, s, 11, first);
    say::numbers(rt, s, 12, second);
    say::numbers(rt, s, 13, set);
    say::numbers(rt, s, 14, second_set);
    say::bytes(rt, s, 15, bytes);
}

// The slices of a case, each as long as the case says.
fn lend_more<R: Print>(
    rt: &R,
    s: &[u8],
    tails: &mut [u16],
    rotations: &mut [u16],
    first: &mut [i32],
) {
    let mut second = [0i32; 4096];
    let mut set = [0u64; 4096];
    let mut second_set = [0u64; 4096];
    let mut bytes = [0u8; 16384];
    show(
        rt,
        s,
        tails,
        rotations,
        first,
        case::words(s, 5, &mut second),
        case::longs(s, 6, &mut set),
        case::longs(s, 7, &mut second_set),
        case::filled(s, 8, &mut bytes),
    );
}

fn lend<R: Print>(rt: &R, s: &[u8]) {
    let mut tails = [0u16; 4096];
    let mut rotations = [0u16; 4096];
    let mut first = [0i32; 4096];
    lend_more(
        rt,
        s,
        case::halves(s, 2, &mut tails),
        case::halves(s, 3, &mut rotations),
        case::words(s, 4, &mut first),
    );
}

fn cases<R: Print>(rt: &R, input: &[u8]) {
    // A while loop: each case is as long as it says.
    let mut at: usize = 0;
    while at < input.len() {
        let Some(n) = case::length(input, at) else {
            say::count(rt, b"malformed at", at);
            say::say(rt, b"\n");
            return;
        };
        let end = at + n;
        let s = &input[at..end];
        say::say(rt, case::part(s, 0));
        lend(rt, s);
        say::say(rt, b"\n");
        at = end;
    }
}

// Reads until the buffer is full, the input ends or a read fails: how many bytes stand in front of the buffer. Not `streams::read_input`, which has no bytes
// where a read fails: the cases before it are printed.
fn read_full<R: Read>(reader: &mut R, buffer: &mut [u8]) -> usize
    ensures within { result ≤ length buffer.new }
    ensures front { result ≡ length (take result buffer.new) }
{
    let mut at: usize = 0;
    while at < buffer.len() {
        let n = reader.read(&mut buffer[at..]).unwrap_or(0);
        if n == 0 {
            return at;
        }
        at += n;
    }
    at
}

fn main(rt: HostRuntime) {
    let mut input = [0u8; 1048576];
    let n = read_full(&mut rt.stdin(), &mut input);
    cases(&rt, &input[..n]);
}
