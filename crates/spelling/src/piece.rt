// The text of a scalar, made from its last byte to its first, and put into a space.
ghost use Rattle.std.specs.Prelude.{◌≡◌, List, [], ◌∷◌, ℕ, ◌<◌, ◌≤◌, T, length};
ghost use Rattle.model.specs.Space.{put_at};
ghost use Rattle.model.specs.Table.{scalar?};
ghost use Rattle.names.specs.Names.{decimal};
ghost use Rattle.document.specs.Rows.{row_in};
ghost use Rattle.document.specs.Scalars.{payload_of};
ghost use Rattle.document.specs.declared.scalar.Scalar.TheVariants.{Flag};
ghost use Rattle.spelling.specs.Text.{hex_digit, hex_digits, scalar_text};
ghost use Rattle.spelling.specs.Parts.{piece_bytes, text_of, Holds};

use base::numbers::digit;
use base::space::put;
use document::rows::{Row, kind, payload};

// The most bytes of a scalar.
pub(crate) const PIECE: usize = 21;

const HEX_DIGITS: usize = 16;

// The text stands from `start` to the end of the bytes, in an array, since there is no heap.
#[derive(Clone, Copy)]
pub(crate) struct Piece {
    pub(crate) bytes: [u8; PIECE],
    pub(crate) start: usize,
}

fn nothing() -> Piece
    ensures { Holds result [] }
{
    Piece {
        bytes: [0; PIECE],
        start: PIECE,
    }
}

// A byte before a text.
fn before(b: u8, p: Piece) -> Piece
    requires { (0 < p.start) × (p.start ≤ piece_bytes) }
    ensures { (text : List ℕ) → Holds p text → Holds result (b ∷ text) }
{
    let mut bytes = p.bytes;
    let start = p.start - 1;
    bytes[start] = b;
    Piece { bytes, start }
}

// The hex digit of a number below sixteen, by a sum and without a choice: the whole part of a tenth is 1 from ten on, and `a` stands 39 bytes behind the byte after `9`.
fn hex_digit(n: u64) -> u8
    requires { n < 16 }
    ensures { result ≡ hex_digit n }
{
    let d = n as u8;
    d + 48 + 39 * (d / 10)
}

// A number in decimal, which leaves room for a byte before it.
pub(crate) fn decimal_of(n: u64) -> Piece
    ensures { Holds result (decimal n) × (0 < result.start) }
{
    let mut rest = n;
    let mut p = nothing();
    while rest >= 10 {
        p = before(digit(rest), p);
        rest /= 10;
    }
    before(digit(rest), p)
}

// All bits of a number in hex.
fn hex_of(n: u64) -> Piece
    ensures { Holds result (hex_digits 16 n) }
{
    let mut rest = n;
    let mut p = nothing();
    for _ in 0..HEX_DIGITS {
        p = before(hex_digit(rest % 16), p);
        rest /= 16;
    }
    p
}

fn flag_of(b: bool) -> Piece
    ensures { Holds result (scalar_text 1 (payload_of (Flag b))) }
{
    if b {
        return Piece {
            bytes: *b"                =true",
            start: 16,
        };
    }
    Piece {
        bytes: *b"               =false",
        start: 15,
    }
}

// The text of a scalar of a kind (0 bare, 1 flag, 2 count, 3 rate, 4 name) and a payload. A rate's bits become its digits without a choice on their values, a rule of this project: so the kind stays a number, since a `Scalar` is asked of a rate whether it is a NaN.
fn scalar_text(kind: u16, payload: u64) -> Piece
    ensures { Holds result (scalar_text kind payload) }
{
    match kind {
        0 => nothing(),
        1 => flag_of(payload == 1),
        2 => before(b'=', decimal_of(payload)),
        3 => before(b'~', hex_of(payload)),
        _ => before(b'#', decimal_of(payload)),
    }
}

// The text of a row's scalar.
pub(crate) fn scalar_at(rows: &[u16], i: Row) -> Piece
    requires { T (scalar? (row_in rows.now i.0).kind (row_in rows.now i.0).payload) }
    ensures { Holds result (scalar_text (row_in rows.now i.0).kind (row_in rows.now i.0).payload) }
{
    scalar_text(kind(rows, i), payload(rows, i))
}

// The text of a piece, put at a place of a space, where it fits whole; its length comes back.
pub(crate) fn put_piece(out: &mut [u8], at: usize, p: Piece) -> usize
    requires { p.start ≤ piece_bytes }
    ensures count { result ≡ length (text_of p) }
    ensures space { out.new ≡ put_at out.old at (text_of p) }
{
    let bytes = p.bytes;
    let start = p.start;
    put(out, at, &bytes[start..]);
    PIECE - start
}
