// The operations on a case: each makes the call and prints the answer.
ghost use Rattle.std.specs.Prelude.{◌<◌};

use super::{case, say};
use desk::ClassFigures;
use pages::{Listed, Page, Question};
use questions::Solution;
use ranges::Range;
use refusals::Refusal;
use sheets::Counts;

fn say_read<R: Print>(rt: &R, answer: Result<Counts, Refusal>) {
    match answer {
        Ok(counts) => {
            say::say(rt, b": counts");
            say::number(rt, counts.nodes);
            say::number(rt, counts.edges);
            say::number(rt, counts.outer);
        }
        Err(refusal) => say::refused(rt, refusal),
    }
}

pub fn read<R: Print>(
    rt: &R,
    s: &[u8],
    tails: &mut [u16],
    rotations: &mut [u16],
    capacities: &mut [i32],
) {
    say_read(
        rt,
        sheets::read(case::part(s, 1), tails, rotations, capacities),
    );
}

fn say_write<R: Print>(rt: &R, answer: Result<usize, Refusal>) {
    match answer {
        Ok(n) => say::count(rt, b": bytes", n),
        Err(refusal) => say::refused(rt, refusal),
    }
}

pub fn write<R: Print>(
    rt: &R,
    s: &[u8],
    tails: &mut [u16],
    rotations: &mut [u16],
    capacities: &mut [i32],
    out: &mut [u8],
) {
    let nodes = case::half(s, 2);
    let outer = case::half(s, 4);
    say_write(
        rt,
        sheets::write(nodes, outer, tails, rotations, capacities, out),
    );
}

pub fn say_solve<R: Print>(rt: &R, answer: Result<Solution, Refusal>) {
    match answer {
        Ok(Solution::Can) => say::say(rt, b": can"),
        Ok(Solution::Cannot(n)) => {
            say::say(rt, b": cannot");
            say::number(rt, n);
        }
        Err(refusal) => say::refused(rt, refusal),
    }
}

pub fn solve<R: Print>(rt: &R, s: &[u8], flows: &mut [i32], set: &mut [u64]) {
    let source = case::half(s, 2);
    let sink = case::half(s, 4);
    let value = case::word(s, 6);
    say_solve(
        rt,
        analyser::solve(case::part(s, 1), source, sink, value, flows, set),
    );
}

// The question at a place of three slices, put into the list where all have it.
fn with_next(list: Listed, i: usize, sources: &[u16], sinks: &[u16], values: &[i32]) -> Listed
    requires { i < 64 }
{
    if i < sources.len() {
        if i < sinks.len() {
            if i < values.len() {
                let q = Question {
                    source: sources[i],
                    sink: sinks[i],
                    value: values[i],
                };
                return pages::with_question(list, i, q);
            }
        }
    }
    list
}

// As many questions as there are sources: the first 64 of them.
fn list_of(sources: &[u16], sinks: &[u16], values: &[i32]) -> Listed {
    let mut next = pages::empty_list(sources.len());
    for i in 0..64usize {
        next = with_next(next, i, sources, sinks, values);
    }
    next
}

fn say_answers<R: Print>(rt: &R, page: Page) {
    for (i, answer) in page.answers.iter().enumerate() {
        if page.count <= i {
            return;
        }
        say_solve(rt, *answer);
    }
}

fn say_page<R: Print>(rt: &R, answer: Result<Page, Refusal>) {
    match answer {
        Ok(page) => {
            say::say(rt, b": answers");
            say_answers(rt, page);
        }
        Err(refusal) => say::refused(rt, refusal),
    }
}

pub fn page<R: Print>(
    rt: &R,
    s: &[u8],
    sources: &[u16],
    sinks: &[u16],
    values: &[i32],
    flows: &mut [i32],
    sets: &mut [u64],
) {
    let list = list_of(sources, sinks, values);
    say_page(rt, analyser::page_of(case::part(s, 1), list, flows, sets));
}

fn say_largest<R: Print>(rt: &R, answer: Result<Option<i32>, Refusal>) {
    match answer {
        Ok(Some(v)) => {
            say::say(rt, b": largest");
            say::number(rt, v);
        }
        Ok(None) => say::say(rt, b": none"),
        Err(refusal) => say::refused(rt, refusal),
    }
}

pub fn largest<R: Print>(rt: &R, s: &[u8], flows: &mut [i32], set: &mut [u64]) {
    let source = case::half(s, 2);
    let sink = case::half(s, 4);
    say_largest(
        rt,
        analyser::largest(case::part(s, 1), source, sink, flows, set),
    );
}

// The capture's bytes stand where other operations have their tails.
pub fn largest_after<R: Print>(
    rt: &R,
    s: &[u8],
    limits: &mut [i32],
    flows: &mut [i32],
    set: &mut [u64],
) {
    let source = case::half(s, 2);
    let sink = case::half(s, 4);
    let window = case::half(s, 6);
    let named = case::natural(s, 10);
    say_largest(
        rt,
        analyser::largest_after(
            case::part(s, 1),
            case::part(s, 2),
            window,
            named,
            source,
            sink,
            limits,
            flows,
            set,
        ),
    );
}

fn say_range<R: Print>(rt: &R, answer: Result<Option<Range>, Refusal>) {
    match answer {
        Ok(Some(range)) => {
            say::say(rt, b": values");
            say::number(rt, range.least);
            say::number(rt, range.largest);
        }
        Ok(None) => say::say(rt, b": none"),
        Err(refusal) => say::refused(rt, refusal),
    }
}

pub fn least_and_largest<R: Print>(
    rt: &R,
    s: &[u8],
    low: &mut [i32],
    high: &mut [i32],
    below: &mut [u64],
    above: &mut [u64],
) {
    let source = case::half(s, 2);
    let sink = case::half(s, 4);
    say_range(
        rt,
        analyser::least_and_largest(case::part(s, 1), source, sink, low, below, high, above),
    );
}

fn say_raise<R: Print>(rt: &R, answer: Result<Option<i32>, Refusal>) {
    match answer {
        Ok(Some(v)) => {
            say::say(rt, b": limit");
            say::number(rt, v);
        }
        Ok(None) => say::say(rt, b": none"),
        Err(refusal) => say::refused(rt, refusal),
    }
}

pub fn raise_limit<R: Print>(rt: &R, s: &[u8], flows: &mut [i32], set: &mut [u64]) {
    let source = case::half(s, 2);
    let sink = case::half(s, 4);
    let value = case::word(s, 6);
    let edge = case::half(s, 10);
    say_raise(
        rt,
        analyser::raise_limit(case::part(s, 1), source, sink, value, edge, flows, set),
    );
}

fn say_mark<R: Print>(rt: &R, answer: Result<i32, Refusal>) {
    match answer {
        Ok(x) => {
            say::say(rt, b": value");
            say::number(rt, x);
        }
        Err(refusal) => say::refused(rt, refusal),
    }
}

pub fn mark<R: Print>(rt: &R, s: &[u8], flows: &mut [i32]) {
    let source = case::half(s, 2);
    let sink = case::half(s, 4);
    say_mark(rt, analyser::mark(case::part(s, 1), source, sink, flows));
}

fn say_levels<R: Print>(rt: &R, answer: Result<(), Refusal>) {
    match answer {
        Ok(()) => say::say(rt, b": done"),
        Err(refusal) => say::refused(rt, refusal),
    }
}

pub fn levels<R: Print>(rt: &R, s: &[u8], flows: &mut [i32], levels: &mut [i32]) {
    say_levels(
        rt,
        analyser::levels_from_settings(case::part(s, 1), flows, levels),
    );
}

pub fn settings<R: Print>(rt: &R, s: &[u8], levels: &mut [i32], flows: &mut [i32]) {
    say_levels(
        rt,
        analyser::settings_from_levels(case::part(s, 1), levels, flows),
    );
}

fn say_totals<R: Print>(rt: &R, answer: Result<i32, Refusal>) {
    match answer {
        Ok(x) => {
            say::say(rt, b": total");
            say::number(rt, x);
        }
        Err(refusal) => say::refused(rt, refusal),
    }
}

pub fn totals<R: Print>(rt: &R, s: &[u8], subtotals: &mut [i32], set: &[u64]) {
    say_totals(rt, analyser::totals(case::part(s, 1), set, subtotals));
}

fn say_practice<R: Print>(rt: &R, answer: Result<usize, Refusal>) {
    match answer {
        Ok(n) => say::count(rt, b": bytes", n),
        Err(refusal) => say::refused(rt, refusal),
    }
}

pub fn practice<R: Print>(rt: &R, s: &[u8], out: &mut [u8]) {
    let rows = case::half(s, 2);
    let columns = case::half(s, 4);
    let seed = signed::to_bits(case::word(s, 6));
    say_practice(rt, practice::practice_sheet(rows, columns, seed, out));
}

fn say_text<R: Print>(rt: &R, text: &[u8; 6671], n: usize) {
    say::text(rt, text, n);
}

// The key's text in an array of zeros that is long enough for every key.
pub fn key<R: Print>(rt: &R, s: &[u8]) {
    let mut text = [0u8; 6671];
    let n = key_text::key_text(case::part(s, 1), &mut text);
    say_text(rt, &text, n);
}

pub fn write_key<R: Print>(rt: &R, s: &[u8], text: &mut [u8]) {
    let answer = key_text::write_key(case::part(s, 1), text);
    match answer {
        Ok(n) => say::text(rt, text, n),
        Err(refusal) => {
            say::refused(rt, refusal);
            say::bytes(rt, s, 16, text);
        }
    }
}

pub fn write_dimacs<R: Print>(rt: &R, s: &[u8], text: &mut [u8]) {
    let source = case::half(s, 2);
    let sink = case::half(s, 4);
    let answer = analyser::write_dimacs(case::part(s, 1), source, sink, text);
    match answer {
        Ok(n) => say::text(rt, text, n),
        Err(refusal) => {
            say::refused(rt, refusal);
            say::bytes(rt, s, 16, text);
        }
    }
}

fn say_class<R: Print>(rt: &R, answer: Result<Option<ClassFigures>, Refusal>) {
    match answer {
        Ok(None) => say::say(rt, b": empty"),
        Ok(Some(marks)) => {
            say::say(rt, b": class");
            say::number(rt, marks.number);
            say::number(rt, marks.sum);
            say::number(rt, marks.least);
            say::number(rt, marks.greatest);
        }
        Err(refusal) => say::refused(rt, refusal),
    }
}

// The kinds of the claims are the bytes of part 2.
pub fn examine<R: Print>(
    rt: &R,
    s: &[u8],
    claims: &[i32],
    settings: &[i32],
    sets: &[u64],
    points: &mut [u8],
) {
    let source = case::half(s, 2);
    let sink = case::half(s, 4);
    let value = case::word(s, 6);
    say_class(
        rt,
        desk::examine(
            case::part(s, 1),
            source,
            sink,
            value,
            claims,
            case::part(s, 2),
            settings,
            sets,
            points,
        ),
    );
}
