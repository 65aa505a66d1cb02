// What is printed: words, numbers, slices. What cannot be written is left out.
ghost use Rattle.std.specs.Prelude.{◌+◌, ◌<◌, ◌≤◌, length};

use super::case;
use refusals::Refusal;
use std::fmt::Display;

pub fn say<R: Print>(rt: &R, text: &[u8]) {
    let _said = rt.write_all(text);
}

// A number after a blank.
pub fn number<R: Print, T: Display + Copy>(rt: &R, x: T) {
    let _said = print!(rt; " {x}");
}

pub fn count<R: Print>(rt: &R, word: &[u8], n: usize) {
    say(rt, word);
    number(rt, n);
}

pub fn refused<R: Print>(rt: &R, refusal: Refusal) {
    say(rt, b": refused");
    number(rt, refusal.number);
    number(rt, refusal.place);
}

// The name of a slice, and whether it has one.
fn name<R: Print>(rt: &R, s: &[u8], k: usize) -> bool
    requires { k < 17 }
{
    let text = case::part(s, k);
    if text.len() == 0 {
        return false;
    }
    say(rt, b", ");
    say(rt, text);
    true
}

// The elements of a slice that has a name in the case.
pub fn numbers<R: Print, T: Display + Copy>(rt: &R, s: &[u8], k: usize, values: &[T])
    requires { k < 17 }
{
    if !name(rt, s, k) {
        return;
    }
    for x in values {
        number(rt, *x);
    }
}

// How many bytes from a place on are the same.
fn alike(s: &[u8], at: usize) -> usize
    requires { at < length s.now }
    ensures { (0 < result) × (at + result ≤ length s.now) }
{
    for end in at + 1..s.len() {
        if s[end] != s[at] {
            return end - at;
        }
    }
    s.len() - at
}

// A byte, and how often it stands there if more than once.
fn run<R: Print>(rt: &R, byte: u8, n: usize) {
    number(rt, byte);
    if n > 1 {
        let _said = print!(rt; "*{n}");
    }
}

fn runs<R: Print>(rt: &R, values: &[u8]) {
    // A while loop: each run is as long as it is, and the place goes behind it.
    let mut at: usize = 0;
    while at < values.len() {
        let n = alike(values, at);
        run(rt, values[at], n);
        at += n;
    }
}

pub fn bytes<R: Print>(rt: &R, s: &[u8], k: usize, values: &[u8])
    requires { k < 17 }
{
    if !name(rt, s, k) {
        return;
    }
    runs(rt, values);
}

// A text of n bytes in the front of a slice: what the rest of the slice holds, and below that the text.
pub fn text<R: Print>(rt: &R, values: &[u8], n: usize) {
    count(rt, b": bytes", n);
    if values.len() < n {
        return;
    }
    say(rt, b", rest");
    runs(rt, &values[n..]);
    say(rt, b"\n");
    say(rt, &values[0..n]);
}
