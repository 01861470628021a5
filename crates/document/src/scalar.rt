// Scalars: the five kinds, their kind and payload in a row, and their equality; of the two zeros among the rates, a row holds the positive one (document 02, Wish 6).
ghost use Rattle.std.specs.Prelude.{◌≡◌};
ghost use Rattle.std.specs.Float.{binary64};
ghost use Rattle.std.specs.Float.Ieee.{to_bits};
ghost use Rattle.model.specs.Table.{one_zero};
ghost use Rattle.document.specs.Scalars.{rate_of, row_rate, kind_of, payload_of, decode_scalar, has_kind_payload};

// A bit pattern without its sign is a NaN where it is above that of infinity.
const SIGN: u64 = 9223372036854775808;

const INFINITY: u64 = 9218868437227405312;

const NAN: u64 = 9221120237041090560;

// The bits of a rate that no row may hold.
const MINUS_ZERO: u64 = SIGN;

const NAMES: u64 = 4294967296;

// A rate is any 64 bits. Those of a NaN, which no f64 can be asked for again, are kept as a number. The type has both zeros; readers make their rates by `row_rate`, which gives one.
#[derive(Clone, Copy)]
pub enum Scalar {
    Bare,
    Flag(bool),
    Count(u64),
    Rate(f64),
    NanRate(u64),
    Name(u32),
}

// The rate with these bits.
fn rate_of(bits: u64) -> Scalar
    ensures { result ≡ rate_of bits }
{
    if bits % SIGN > INFINITY {
        Scalar::NanRate(bits)
    } else {
        Scalar::Rate(f64::from_bits(bits))
    }
}

// Two zeros are one load: the bits of minus zero become those of zero, all others stay.
fn one_zero(bits: u64) -> u64
    ensures { result ≡ one_zero bits }
{
    if bits == MINUS_ZERO { 0 } else { bits }
}

// The rate that a reader puts into a row, for any 64 bits.
pub fn row_rate(bits: u64) -> Scalar
    ensures { result ≡ row_rate bits }
{
    rate_of(one_zero(bits))
}

// The kind of a rate, as a row's cell has it.
pub const RATE: u16 = 3;

// The payload of that rate.
pub fn rate_payload(bits: u64) -> u64
    ensures { (result ≡ payload_of (row_rate bits)) × (kind_of (row_rate bits) ≡ 3) }
{
    one_zero(bits)
}

// A float's bits, for every float: of a NaN, the pattern that the definition names.
pub fn bits_of(x: f64) -> u64
    ensures { result ≡ to_bits binary64 x }
{
    if x != x { NAN } else { f64::to_bits(x) }
}

// The kind's number, as a row's cell has it.
pub fn kind(s: Scalar) -> u16
    ensures { result ≡ kind_of s }
{
    match s {
        Scalar::Bare => 0,
        Scalar::Flag(_) => 1,
        Scalar::Count(_) => 2,
        Scalar::Rate(_) => 3,
        Scalar::NanRate(_) => 3,
        Scalar::Name(_) => 4,
    }
}

pub fn payload(s: Scalar) -> u64
    ensures { result ≡ payload_of s }
{
    match s {
        Scalar::Bare => 0,
        Scalar::Flag(b) => u64::from(b),
        Scalar::Count(n) => n,
        Scalar::Rate(x) => bits_of(x),
        Scalar::NanRate(bits) => bits,
        Scalar::Name(n) => u64::from(n),
    }
}

// The scalar that a kind and a payload hold, where they hold one.
pub fn from_cells(kind: u16, payload: u64) -> Option<Scalar>
    ensures { result ≡ decode_scalar kind payload }
{
    match kind {
        0 => if payload == 0 {
            Some(Scalar::Bare)
        } else {
            None
        },
        1 => if payload < 2 {
            Some(Scalar::Flag(payload == 1))
        } else {
            None
        },
        2 => Some(Scalar::Count(payload)),
        3 => if payload == MINUS_ZERO {
            None
        } else {
            Some(rate_of(payload))
        },
        4 => if payload < NAMES {
            Some(Scalar::Name(payload as u32))
        } else {
            None
        },
        _ => None,
    }
}

// The equality of scalars, of one by value and one in a row's cells: it matches on the enum and compares a rate's bits.
pub fn held(s: Scalar, kind: u16, bits: u64) -> bool
    ensures { result ≡ has_kind_payload s kind bits }
{
    match s {
        Scalar::Bare => (kind == 0) & (bits == 0),
        Scalar::Flag(b) => (kind == 1) & (bits == u64::from(b)),
        Scalar::Count(n) => (kind == 2) & (bits == n),
        Scalar::Rate(x) => (kind == 3) & (bits == bits_of(x)),
        Scalar::NanRate(own) => (kind == 3) & (bits == own),
        Scalar::Name(n) => (kind == 4) & (bits == u64::from(n)),
    }
}
