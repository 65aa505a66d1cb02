// The program key: standard input to standard output (document 01, "The program key"). It reads a question and a sheet into a buffer one byte longer than the
// longest that can be accepted, so that a byte left over is seen (`key_text::key_of_input` asks for it). A read or write that fails is told on standard error,
// and the exit status is zero all the same.
#![tactic(auto)]

fn main(rt: HostRuntime) {
    let mut buffer = [0u8; 8721];
    let n = match streams::read_input(&mut rt.stdin(), &mut buffer) {
        Ok(n) => n,
        Err(error) => {
            streams::tell(&rt, "key: standard input", error);
            return;
        }
    };
    let mut text = [0u8; 6671];
    let m = key_text::key_of_input(&buffer, n, &mut text);
    if let Err(error) = streams::write_text(&mut rt.stdout(), &text[..m]) {
        streams::tell(&rt, "key: standard output", error);
    }
}
