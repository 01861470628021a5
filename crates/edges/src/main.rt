// The cases and edges of document 01, section "Examples, with the edges", and the byte classes, the two zeros, the wide form and the lists of equal pairs of document 02, run: a line for each, and `stdout` has what the papers say.
#![tactic(auto)]

ghost use Rattle.std.specs.Prelude.{◌≤◌};

use base::limits::UNUSED;
use base::refusal::Refusal;
use base::space::put;
use classes::{class_table, is_control, is_digit, is_hex_digit, is_letter, is_mark, is_space};
use console::OUTPUT;
use document::Scalar;
use document::fields::RowFields;
use document::rows::{Row, put_row};

// Set E: state 0 with tag 0, state 1 final; pair(0,0) to 1, a to 0, b to 0.
const E: [u8; 59] =
    *b"\x03\x00\x02\x00\x01\x00\x03\x00\x10\x00\x13\x00\x17\x00\x3b\x00\x02\x00\x00\x00\x01\x01\x00\x00\x00\x01\x00\x00\x00\x00\x00\xff\xff\xff\xff\x01\x00\x00\x00\xff\xff\xff\xff\xff\xff\xff\xff\x02\x00\x00\x00\xff\xff\xff\xff\xff\xff\xff\xff";

// Set G: q = 0 final, r = 1 with tag 0; g(q) to r, g(r) to q, a to q.
const G: [u8; 58] =
    *b"\x02\x00\x02\x00\x01\x00\x03\x00\x10\x00\x12\x00\x16\x00\x3a\x00\x01\x00\x01\x00\x00\x01\x00\x00\x01\x00\x00\x00\xff\xff\xff\xff\xff\xff\x00\x00\x00\x00\x01\x00\xff\xff\xff\xff\xff\xff\x01\x00\x00\x00\xff\xff\xff\xff\xff\xff\xff\xff";

// Set D: only pair(0,0) to 0, state 0 final.
const D: [u8; 33] =
    *b"\x03\x00\x01\x00\x00\x00\x01\x00\x10\x00\x13\x00\x15\x00\x21\x00\x02\x00\x00\x01\x00\x00\x00\x00\x00\x00\x00\x00\x00\xff\xff\xff\xff";

// Set B, untagged: a to 0, a to 1, pair(0,1) to 2, 2 final.
const B: [u8; 61] =
    *b"\x03\x00\x03\x00\x00\x00\x03\x00\x10\x00\x13\x00\x19\x00\x3d\x00\x02\x00\x00\x00\x00\x00\x00\x01\x00\x00\x00\x02\x00\x00\x00\x01\x00\xff\xff\xff\xff\x01\x00\x00\x00\xff\xff\xff\xff\xff\xff\xff\xff\x01\x00\x01\x00\xff\xff\xff\xff\xff\xff\xff\xff";

// Set P, lists of equal pairs: state 0 with tag 0, state 2 final; p(0,0) to 1, which forgets tag 0, cons(1,2) to 2, nil to 2, a to 0.
const P: [u8; 85] =
    *b"\x04\x00\x03\x00\x01\x00\x04\x00\x10\x00\x14\x00\x1d\x00\x55\x00\x02\x02\x00\x00\x00\x01\x00\x00\x00\x00\x01\x00\x00\x00\x00\x01\x00\x00\x00\x00\x00\xff\xff\xff\xff\x01\x00\x01\x00\x02\x00\x01\x00\x02\x00\xff\xff\xff\xff\x00\x00\x02\x00\x02\x00\xff\xff\xff\xff\xff\xff\xff\xff\x00\x00\x03\x00\x00\x00\xff\xff\xff\xff\xff\xff\xff\xff\x00\x00";

// The byte of P's first rule that has the tags to forget.
const FORGET: usize = 41;

const TWO_PAIRS: [u8; 38] = *b"s1(s0(s3=1,s3=1),s1(s0(s3=2,s3=2),s2))";

const TWO_ZEROS: [u8; 43] = *b"s0(s1~0000000000000000,s1~8000000000000000)";

// The cells of 1,025 rows.
const CELLS: usize = 10250;

// A name or a line. What cannot be written is missing from the output, as are the lines of a reader who went away.
fn say(rt: &impl Print, text: &str) {
    let _ = rt.print(text);
}

// What a program prints, or a text that was written into a space.
fn show(rt: &impl Print, bytes: &[u8]) {
    let _ = rt.write_all(bytes);
}

fn refused(rt: &impl Print, refusal: Refusal) {
    let n = refusal.number();
    let _ = println!(rt; "refused {n}");
}

fn checked(rt: &impl Print, answer: Result<(), Refusal>) {
    match answer {
        Ok(()) => say(rt, "sound\n"),
        Err(refusal) => refused(rt, refusal),
    }
}

// A case's name, and what the judging program prints for a set and a text.
fn judge(rt: &impl Print, case: &str, set: &[u8], text: &[u8]) {
    say(rt, case);
    if set.len() > 128 {
        return;
    }
    if text.len() > 128 {
        return;
    }
    let mut input = [0u8; 256];
    put(&mut input, 0, set);
    put(&mut input, set.len(), text);
    let n = set.len() + text.len();
    let mut output = [0u8; OUTPUT];
    let k = console::judge(&input[..n], &mut output);
    show(rt, &output[..k]);
}

// A case's name, and what the sample program prints for a set.
fn sample(rt: &impl Print, case: &str, set: &[u8]) {
    say(rt, case);
    let mut output = [0u8; OUTPUT];
    let k = console::sample(set, &mut output);
    show(rt, &output[..k]);
}

// How many bytes of a space of 128 a set was written to.
fn moved(rt: &impl Print, answer: Result<usize, Refusal>) -> usize
    ensures { result ≤ 128 }
{
    match answer {
        Ok(n) => n.min(128),
        Err(refusal) => {
            refused(rt, refusal);
            0
        },
    }
}

// A case of a set in some form.
fn case(rt: &impl Print, form: &str, name: &str, set: &[u8], text: &[u8]) {
    say(rt, form);
    judge(rt, name, set, text);
}

// The sets of document 01 and their texts, of sets in some form.
fn documents(rt: &impl Print, form: &str, e: &[u8], g: &[u8], b: &[u8]) {
    case(rt, form, "E, pair(a=7,a=7): ", e, b"s0(s1=7,s1=7)");
    case(rt, form, "E, pair(a=7,a=8): ", e, b"s0(s1=7,s1=8)");
    case(rt, form, "E, pair(a,b): ", e, b"s0(s1,s2)");
    case(rt, form, "E, a: ", e, b"s1");
    case(rt, form, "E, the two zeros: ", e, &TWO_ZEROS);
    case(
        rt,
        form,
        "E, a zero and the rate next to the other: ",
        e,
        b"s0(s1~0000000000000000,s1~8000000000000001)",
    );
    case(rt, form, "G, g(g(a)): ", g, b"s0(s0(s1))");
    case(rt, form, "G, g(g(g(g(a)))): ", g, b"s0(s0(s0(s0(s1))))");
    case(rt, form, "B, pair(a,a): ", b, b"s0(s1,s1)");
}

fn samples(rt: &impl Print, form: &str, e: &[u8], d: &[u8]) {
    say(rt, form);
    sample(rt, "E at the sample: ", e);
    say(rt, form);
    sample(rt, "D at the sample: ", d);
}

// The same of the sets in the wide form.
fn widened(rt: &impl Print) {
    let mut e = [0u8; 128];
    let mut g = [0u8; 128];
    let mut b = [0u8; 128];
    let mut d = [0u8; 128];
    let i = moved(rt, forms::widen_states(&E, &mut e));
    let j = moved(rt, forms::widen_states(&G, &mut g));
    let k = moved(rt, forms::widen_states(&B, &mut b));
    let l = moved(rt, forms::widen_states(&D, &mut d));
    documents(rt, "wide ", &e[..i], &g[..j], &b[..k]);
    samples(rt, "wide ", &e[..i], &d[..l]);
}

// The cases of E and B demanded together, as a set in some form.
fn demanded(rt: &impl Print, form: &str, set: &[u8]) {
    case(rt, form, "E and B, pair(a=1,a=2): ", set, b"s0(s1=1,s1=2)");
    case(rt, form, "E and B, pair(a,a): ", set, b"s0(s1,s1)");
    say(rt, form);
    sample(rt, "E and B at the sample: ", set);
}

// E and B demanded together are written in the wide form; and the same in the narrow one.
fn together(rt: &impl Print) {
    let mut both = [0u8; 128];
    let n = moved(rt, boolean::product(&E, &B, &mut both));
    demanded(rt, "wide ", &both[..n]);
    let mut narrow = [0u8; 128];
    let k = moved(rt, forms::narrow_states(&both[..n], &mut narrow));
    demanded(rt, "", &narrow[..k]);
}

// pair(a=7,a=7) with room for one annotation.
fn little_room(rt: &impl Print) {
    let mut cells = [0u16; 20];
    put_row(&mut cells, Row(0), leaf(7));
    put_row(&mut cells, Row(1), pair(Row(0), Row(0)));
    let mut work = [0u16; 32];
    let mut run = [0u16; 6];
    say(rt, "E, pair(a=7,a=7), room 1: ");
    match membership::judge(&E, &cells, &mut work, &mut run) {
        Ok(Some(_)) => say(rt, "yes\n"),
        Ok(None) => say(rt, "no\n"),
        Err(refusal) => refused(rt, refusal),
    }
}

// A set of so many symbols, one state and no rules, all numbers below 256.
fn symbols(rt: &impl Print, case: &str, n: u8) {
    say(rt, case);
    if n > 100 {
        return;
    }
    let mut set = [0u8; 128];
    put(
        &mut set,
        0,
        &[
            n,
            0,
            1,
            0,
            0,
            0,
            0,
            0,
            16,
            0,
            16 + n,
            0,
            18 + n,
            0,
            18 + n,
            0,
        ],
    );
    let end = 18 + usize::from(n);
    checked(rt, automaton::check(&set[..end]));
}

fn leaf(count: u16) -> RowFields {
    RowFields {
        symbol: 1,
        places: [Row(UNUSED); 4],
        scalar: Scalar::Count(u64::from(count)),
    }
}

fn pair(a: Row, b: Row) -> RowFields {
    RowFields {
        symbol: 0,
        places: [a, b, Row(UNUSED), Row(UNUSED)],
        scalar: Scalar::Bare,
    }
}

// The fields of row number i of a table: 512 leaves, 511 pairs that join them to one tree, and pairs of all so far with the first leaf.
fn fields(i: u16) -> RowFields {
    if i < 512 {
        return leaf(i);
    }
    if i < 1023 {
        let a = 2 * (i - 512);
        return pair(Row(a), Row(a + 1));
    }
    pair(Row(i - 1), Row(0))
}

// A table of so many rows.
fn table(rt: &impl Print, case: &str, rows: u16) {
    say(rt, case);
    let mut cells = [0u16; CELLS];
    for i in 0..rows {
        put_row(&mut cells, Row(i), fields(i));
    }
    let n = usize::from(rows) * 10;
    if n > CELLS {
        return;
    }
    checked(rt, document::check(&E, &cells[..n]));
}

// Document 02, Wish 6: the rate with only its sign bit set, given in a row; and the text of the two zeros, written back.
fn zeros(rt: &impl Print) {
    let row = [1, UNUSED, UNUSED, UNUSED, UNUSED, 3, 0, 0, 0, 32768];
    say(rt, "the rate with only its sign bit set, in a row: ");
    checked(rt, document::check(&E, &row));
    say(rt, "the two zeros, written back: ");
    let mut cells = [0u16; 20];
    if let Err(fault) = term::read(&E, b"", b"", &TWO_ZEROS, &mut cells) {
        refused(rt, fault.refusal);
    }
    let mut text = [0u8; 64];
    let n = match spelling::write(&E, b"", b"", &cells, &mut text) {
        Ok(n) => n,
        Err(refusal) => {
            refused(rt, refusal);
            0
        },
    };
    if n > 64 {
        return;
    }
    show(rt, &text[..n]);
    say(rt, "\n");
}

// Document 02, Wish 9: lists of equal pairs, with the tag forgotten behind each pair and without.
fn equal_pairs(rt: &impl Print) {
    judge(rt, "P, two pairs: ", &P, &TWO_PAIRS);
    judge(
        rt,
        "P, a pair of unequal parts: ",
        &P,
        b"s1(s0(s3=1,s3=2),s2)",
    );
    sample(rt, "P at the sample: ", &P);
    let mut set = P;
    set[FORGET] = 0;
    judge(
        rt,
        "P with nothing forgotten, two pairs: ",
        &set,
        &TWO_PAIRS,
    );
    judge(
        rt,
        "P with nothing forgotten, one pair: ",
        &set,
        b"s1(s0(s3=1,s3=1),s2)",
    );
    set[FORGET] = 2;
    say(rt, "P with a second tag forgotten: ");
    checked(rt, automaton::check(&set));
    say(rt, "P narrowed: ");
    let mut out = [0u8; 128];
    moved(rt, forms::narrow_states(&P, &mut out));
    let n = moved(rt, boolean::product(&P, &P, &mut out));
    judge(rt, "P and P, two pairs: ", &out[..n], &TWO_PAIRS);
}

// A class's name, and the bytes that its test passes.
fn members<F: Fn(&[u8; 256], u8) -> bool>(
    rt: &impl Print,
    case: &str,
    table: &[u8; 256],
    is_member: F,
)
    requires { F.IsAlwaysCallable is_member }
{
    say(rt, case);
    for b in 0..=255 {
        if is_member(table, b) {
            let _ = print!(rt; " {b}");
        }
    }
    say(rt, "\n");
}

fn byte_classes(rt: &impl Print) {
    let table = class_table();
    members(rt, "letters:", &table, is_letter);
    members(rt, "digits:", &table, is_digit);
    members(rt, "hex digits:", &table, is_hex_digit);
    members(rt, "spaces:", &table, is_space);
    members(rt, "structural marks:", &table, is_mark);
    members(rt, "controls:", &table, is_control);
}

fn main(rt: HostRuntime) {
    documents(&rt, "", &E, &G, &B);
    little_room(&rt);
    samples(&rt, "", &E, &D);
    widened(&rt);
    together(&rt);
    say(&rt, "58 bytes of E: ");
    checked(&rt, automaton::check(&E[..58]));
    symbols(&rt, "64 symbols: ", 64);
    symbols(&rt, "65 symbols: ", 65);
    table(&rt, "1,024 rows: ", 1024);
    table(&rt, "1,025 rows: ", 1025);
    byte_classes(&rt);
    equal_pairs(&rt);
    zeros(&rt);
}
