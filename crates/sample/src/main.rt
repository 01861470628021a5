// The sample program: reads a stored set, and prints the height and the text of the lowest document that it lets in, or that it is dead. Where the input cannot be read to its end it prints nothing.
#![tactic(auto)]

use console::{INPUT, OUTPUT};

fn main(rt: HostRuntime) {
    let mut input = [0u8; INPUT];
    let mut output = [0u8; OUTPUT];
    let Ok(n) = stream::receive(&mut rt.stdin(), &mut input) else {
        let _ = rt.eprintln("sample: the input could not be read to its end");
        return;
    };
    let k = console::sample(&input[..n], &mut output);
    if rt.write_all(&output[..k]).is_err() {
        let _ = rt.eprintln("sample: the answer could not be written");
    }
}
