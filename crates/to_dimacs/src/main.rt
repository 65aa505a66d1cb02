// The program to_dimacs: a question and a sheet from standard input, as for the program key, to the DIMACS text on standard output (document 02,
// Job 2). The question's delivery is passed over: the text asks for the greatest. What is refused is told as the key tells it, "refused" and the
// number. The buffer is one byte longer than the longest input that can be accepted, so that a byte left over is seen; the text has room for the longest.
#![tactic(auto)]

ghost use Rattle.to_dimacs.specs.inner.Export.{Exports};

// The text of the bytes that were read, and how many bytes it has.
fn put_text(input: &[u8], text: &mut [u8; 18463]) -> usize
    ensures { Exports input.now text.old text.new result }
{
    if let Err(refusal) = records::check_record(input, 3, 0) {
        return key_text::put_refused(text, refusal.number);
    }
    let source = fields::read_u16(input, 1);
    let sink = fields::read_u16(input, 3);
    let after = records::record_length(3);
    match analyser::write_dimacs(&input[after..], source, sink, text) {
        Ok(n) => n,
        Err(refusal) => key_text::put_refused(text, refusal.number),
    }
}

fn main(rt: HostRuntime) {
    let mut buffer = [0u8; 8721];
    let n = match streams::read_input(&mut rt.stdin(), &mut buffer) {
        Ok(n) => n,
        Err(error) => {
            streams::tell(&rt, "to_dimacs: standard input", error);
            return;
        }
    };
    let mut text = [0u8; 18463];
    let m = put_text(&buffer[0..n], &mut text);
    if let Err(error) = streams::write_text(&mut rt.stdout(), &text[..m]) {
        streams::tell(&rt, "to_dimacs: standard output", error);
    }
}
