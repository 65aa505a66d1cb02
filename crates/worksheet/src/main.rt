// The program worksheet: a practice sheet on standard output (document 02, Job 5), alone or behind a question, as the program key reads it.
//     worksheet ROWS COLUMNS SEED
//     worksheet ROWS COLUMNS SEED SOURCE SINK VALUE
// Where there is none, standard output stays empty and standard error has one line, and the exit status is zero all the same.
#![tactic(auto)]

ghost use Rattle.std.specs.Prelude.{◌≡◌, ◌≤◌, length, take, IfSome};

use std::env::FillError;
use std::io;
use std::rt::Env;

// A natural number below 2 ^ 32 in decimal digits; none for any other word.
fn natural(text: &[u8]) -> Option<u32> {
    if text.is_empty() {
        return None;
    }
    let mut value: u32 = 0;
    for digit in text {
        if !digit.is_ascii_digit() {
            return None;
        }
        value = value.checked_mul(10)?.checked_add(u32::from(*digit - 48))?;
    }
    Some(value)
}

// Argument i in front of a word of sixteen bytes: how long it is; none where it is missing or longer than the word, which then has its first bytes.
fn argument<R: Env>(rt: &R, i: usize, word: &mut [u8; 16]) -> Option<usize>
    ensures { IfSome result (λ n. n ≤ 16) }
{
    rt.arg(i, word).ok()
}

// Argument i as such a number.
fn number<R: Env>(rt: &R, i: usize) -> Option<u32> {
    let mut text = [0u8; 16];
    let n = argument(rt, i, &mut text)?;
    natural(&text[..n])
}

// How many words the program was started with, its own name among them; 8 where they are more.
fn words<R: Env>(rt: &R) -> usize {
    let mut text = [0u8; 1];
    for i in 0..8 {
        if let Err(FillError::NotPresent) = rt.arg(i, &mut text) {
            return i;
        }
    }
    8
}

// A number at 16 bits. What does not fit them, or is no number, is 65,535, which names no node of a practice sheet and is no number of rows.
fn half(number: Option<u32>) -> u16 {
    match number {
        Some(x) => u16::try_from(x).unwrap_or(65535),
        None => 65535,
    }
}

// A number at 32 bits with its sign. What is too large for a value is 600,000,001, which the key refuses as that.
fn value_of(x: u32, negative: bool) -> i32 {
    let size = x.min(600000001) as i32;
    if negative { -size } else { size }
}

fn usage<R: Eprint>(rt: &R) {
    let _told = eprintln!(rt; "worksheet: ROWS COLUMNS SEED [SOURCE SINK VALUE]");
}

fn refused<R: Eprint>(rt: &R, k: u8) {
    let _told = eprintln!(rt; "worksheet: refused {k}");
}

// The sheet that the first three arguments ask for: how many bytes, or none.
fn make<R: Env + Eprint>(rt: &R, out: &mut [u8]) -> Option<usize>
    ensures within { IfSome result (λ n. n ≤ length out.new) }
    ensures front { IfSome result (λ n. n ≡ length (take n out.new)) }
{
    let rows = half(number(rt, 1));
    let columns = half(number(rt, 2));
    let Some(seed) = number(rt, 3) else {
        usage(rt);
        return None;
    };
    match practice::practice_sheet(rows, columns, seed, out) {
        Ok(n) => Some(n),
        Err(refusal) => {
            refused(rt, refusal.number);
            None
        }
    }
}

fn put<R: Print + Eprint>(rt: &R, bytes: &[u8]) {
    if let Err(error) = streams::write_text(&mut io::writer(rt), bytes) {
        streams::tell(rt, "worksheet: standard output", error);
    }
}

fn sheet<R: Env + Print + Eprint>(rt: &R) {
    let mut out = [0u8; 8165];
    if let Some(n) = make(rt, &mut out) {
        put(rt, &out[..n]);
    }
}

// The last three arguments as a question record, and the sheet behind it.
fn question<R: Env + Print + Eprint>(rt: &R) {
    let mut word = [0u8; 16];
    let n = argument(rt, 6, &mut word).unwrap_or(0);
    let negative = word[0] == 45;
    let digits = if negative && 0 < n { 1 } else { 0 };
    let Some(size) = natural(&word[digits..n]) else {
        usage(rt);
        return;
    };
    let mut out = [0u8; 8165];
    let Some(m) = make(rt, &mut out) else {
        return;
    };
    let mut record = [0u8; 9];
    fields::write_u8(&mut record, 0, 3);
    fields::write_u16(&mut record, 1, half(number(rt, 4)));
    fields::write_u16(&mut record, 3, half(number(rt, 5)));
    fields::write_i32(&mut record, 5, value_of(size, negative));
    put(rt, &record);
    put(rt, &out[..m]);
}

fn main(rt: HostRuntime) {
    let n = words(&rt);
    if n == 4 {
        sheet(&rt);
    } else if n == 7 {
        question(&rt);
    } else {
        usage(&rt);
    }
}
