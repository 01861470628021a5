// The 32-bit FNV-1a hash of a row's ten cells: it picks the start slot in the index, and nothing else rests on it.
ghost use Rattle.std.specs.Prelude.{◌≡◌, ◌∷◌, ◌++◌, ◌*◌, ◌%◌, ◌^◌, replicate};
ghost use Rattle.document.specs.Rows.{split_cells};
ghost use Rattle.document.specs.Hash.{fnv_byte, fnv_cell, fnv_from, fnv1a, cell_bytes, row_hash};
ghost use Rattle.document.specs.Words.{words_cells};

use crate::rows::ROW_CELLS;
use crate::words::{TWO_CELLS, low_cell};
use base::limits::UNUSED;

pub const FNV_START: u32 = 2166136261;

const FNV_FACTOR: u32 = 16777619;

// What two to ten zero bytes multiply by.
const FACTOR_2: u32 = 637696617;

const FACTOR_4: u32 = 1345077009;

const FACTOR_6: u32 = 4233492473;

const FACTOR_8: u32 = 1566662433;

const FACTOR_10: u32 = 1485291145;

const MODULUS: u64 = 4294967296;

// The first six cells of three leaves: of symbol 6 with a count or a rate, JSON's numbers, and of symbol 7 with a name, its texts. Three unused places stand above the symbol, then one more and the kind. Most leaves are these, so the hash of each is kept.
const NUMBER_FRONT: u64 = 0xffff_ffff_ffff_0006;

const COUNT_MIDDLE: u64 = 0x0002_ffff;

const COUNT_HASH: u32 = 1358246713;

const RATE_MIDDLE: u64 = 0x0003_ffff;

const RATE_HASH: u32 = 720550096;

const TEXT_FRONT: u64 = 0xffff_ffff_ffff_0007;

const NAME_MIDDLE: u64 = 0x0004_ffff;

const NAME_HASH: u32 = 834638206;

// The product wraps modulo 2^32: it is taken in 64 bits, then the remainder, which is the form of it that the pages promise.
fn times(h: u32, factor: u32) -> u32
    ensures { result ≡ h * factor % 2 ^ 32 }
{
    (u64::from(h) * u64::from(factor) % MODULUS) as u32
}

// A byte more; a wider number is taken whole.
pub fn add_byte(h: u32, b: u32) -> u32
    ensures { result ≡ fnv_byte h b }
{
    times(h ^ b, FNV_FACTOR)
}

// A cell's two bytes, the low one first.
fn add_cell(h: u32, x: u16) -> u32
    ensures { result ≡ fnv_cell h x }
{
    add_byte(add_byte(h, u32::from(x % 256)), u32::from(x / 256))
}

// The same, at once where the cell is one byte, as a symbol and a kind are.
fn add_small(h: u32, x: u16) -> u32
    ensures { result ≡ fnv_cell h x }
{
    if x < 256 {
        return times(h ^ u32::from(x), FACTOR_2);
    }
    add_cell(h, x)
}

// A number's two cells.
fn add_two(h: u32, x: u64) -> u32
    ensures { result ≡ fnv_from h (cell_bytes (split_cells 2 x)) }
{
    add_cell(add_cell(h, low_cell(x)), low_cell(x / 65536))
}

// A row's first four cells, its symbol and three places.
fn front_hash(a: u64) -> u32
    ensures { result ≡ fnv1a (cell_bytes (split_cells 4 a)) }
{
    let h = add_small(FNV_START, low_cell(a));
    add_cell(add_two(h, a / 65536), low_cell(a / 281474976710656))
}

// The first six: behind those a place and the kind.
fn middle_hash(a: u64, m: u64) -> u32
    ensures { result ≡ fnv1a (cell_bytes (split_cells 4 a ++ split_cells 2 m)) }
{
    if a == NUMBER_FRONT {
        if m == COUNT_MIDDLE {
            return COUNT_HASH;
        }
        if m == RATE_MIDDLE {
            return RATE_HASH;
        }
    }
    if (a == TEXT_FRONT) & (m == NAME_MIDDLE) {
        return NAME_HASH;
    }
    let placed = add_cell(front_hash(a), low_cell(m));
    add_small(placed, low_cell(m / 65536))
}

// The other four, the payload in two numbers. Zeros behind the first cells only multiply.
fn add_rest(h: u32, x: u64, c: u64) -> u32
    ensures { result ≡ fnv_from h (cell_bytes (split_cells 2 x ++ split_cells 2 c)) }
{
    if c != 0 {
        return add_two(add_two(h, x), c);
    }
    if x == 0 {
        return times(h, FACTOR_8);
    }
    if x < 65536 {
        return times(add_cell(h, low_cell(x)), FACTOR_6);
    }
    times(add_two(h, x), FACTOR_4)
}

// The hash of a row's words, one by one: as a struct they go through memory, and reading arrays of large numbers took an eighth longer.
pub fn words_hash(a: u64, b: u64, c: u64) -> u32
    ensures { result ≡ row_hash (words_cells a b c) }
{
    add_rest(middle_hash(a, b % TWO_CELLS), b / TWO_CELLS, c)
}

// The hash of a row of up to three children and no scalar, by its first four cells, which then need not be taken out of words.
pub fn node_hash(symbol: u16, x: u16, y: u16, z: u16) -> u32
    ensures { result ≡ row_hash (symbol ∷ x ∷ y ∷ z ∷ 65535 ∷ replicate 5 0) }
{
    let front = add_cell(add_cell(add_cell(add_small(FNV_START, symbol), x), y), z);
    times(add_cell(front, UNUSED), FACTOR_10)
}

// The hash of ten cells, cell by cell: they lie in narrow parts, and reading them in wide ones would wait.
pub fn row_hash(cells: [u16; ROW_CELLS]) -> u32
    ensures { result ≡ row_hash cells }
{
    let mut h = FNV_START;
    for x in cells {
        h = add_cell(h, x);
    }
    h
}
