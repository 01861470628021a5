// The judging program: reads a stored set and a text directly behind it, and prints whether the set lets the document in. Where the input cannot be read to its end it prints nothing.
#![tactic(auto)]

use console::{INPUT, OUTPUT};

fn main(rt: HostRuntime) {
    let mut input = [0u8; INPUT];
    let mut output = [0u8; OUTPUT];
    let Ok(n) = stream::receive(&mut rt.stdin(), &mut input) else {
        let _ = rt.eprintln("judge: the input could not be read to its end");
        return;
    };
    let k = console::judge(&input[..n], &mut output);
    if rt.write_all(&output[..k]).is_err() {
        let _ = rt.eprintln("judge: the answer could not be written");
    }
}
