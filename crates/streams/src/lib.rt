// Standard input and output of the programs: bytes read into a buffer until it is full or the input ends, and a text written whole.
#![tactic(auto)]

ghost use Rattle.std.specs.Prelude.{◌≤◌, OnOk, length};
ghost use Rattle.std.specs.Io.KnownBytes.{Appends};
ghost use Rattle.streams.specs.inner.Input.{Filled, Gave};

use std::io::{Error, ErrorKind, Read, Write};
use std::{io, str};

// Whether a call failed only because a signal came before it moved a byte: it is made again.
fn interrupted(error: Error) -> bool {
    error.kind() == ErrorKind::Interrupted
}

// Reads straight into what is left of the buffer, until the input ends or the buffer is full. A proved loop has to end, so interrupted calls are counted down,
// from a number that no run uses up. Any other failure is one, that of a non-blocking input with nothing to read yet (EAGAIN) too: half an input has no answer.
// Returns how many bytes stand in front of the buffer: fewer than it has places only where the input ended.
pub fn read_input<R: Read>(reader: &mut R, buffer: &mut [u8]) -> io::Result<usize>
    ensures filled { Filled buffer.new result }
    ensures gave { Gave (R.remaining reader.old) (R.remaining reader.new) buffer.new result }
{
    let mut at: usize = 0;
    let mut again = u64::MAX;
    while at < buffer.len() {
        match reader.read(&mut buffer[at..]) {
            Ok(n) => {
                if n == 0 {
                    return Ok(at);
                }
                at += n;
            }
            Err(error) => {
                if again == 0 || !interrupted(error) {
                    return Err(error);
                }
                again -= 1;
            }
        }
    }
    Ok(at)
}

// Writes all of the text, or answers the error of the first call that fails or takes nothing; what was written before it stays. Interrupted calls as above.
pub fn write_text<W: Write>(writer: &mut W, text: &[u8]) -> io::Result<()>
    ensures { OnOk result (Appends (W.contents writer.old) (W.contents writer.new) text.now) }
{
    let mut at: usize = 0;
    let mut again = u64::MAX;
    while at < text.len() {
        match writer.write(&text[at..]) {
            Ok(n) => {
                if n == 0 {
                    return Err(Error::from(ErrorKind::WriteZero));
                }
                at += n;
            }
            Err(error) => {
                if again == 0 || !interrupted(error) {
                    return Err(error);
                }
                again -= 1;
            }
        }
    }
    Ok(())
}

// How many bytes the words for an error take in its text: std puts the system's number behind them.
fn words_length(text: &[u8]) -> usize
    ensures { result ≤ length text.now }
{
    for (at, part) in text.windows(11).enumerate() {
        if part == b" (os error ".as_slice() {
            return at;
        }
    }
    text.len()
}

// The words for an error, put at the start of a buffer that is longer than every text of one: how many bytes.
fn put_words(buffer: &mut [u8; 320], error: Error) -> usize
    ensures { result ≤ 320 }
{
    let mut rest: &mut [u8] = &mut *buffer;
    let _written = write!(rest, "{error}");
    let left = rest.len();
    let n = buffer.len().saturating_sub(left);
    words_length(&buffer[..n])
}

// Writes a line to standard error: what failed, as the caller names it, a colon and the words for the error. A write that fails there has nowhere to be told.
pub fn tell<R: Eprint>(rt: &R, what: &str, error: Error) {
    let mut words = [0u8; 320];
    let n = put_words(&mut words, error);
    let text = str::from_utf8(&words[..n]).unwrap_or("");
    let _told = eprintln!(rt; "{what}: {text}");
}
