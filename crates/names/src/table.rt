// The names shown, in a table of cells of one width, and the search for a symbol by its name.
ghost use Rattle.std.specs.Prelude.{◌≡◌, ◌*◌, ◌<◌, length};
ghost use Rattle.model.specs.Space.{put_at};
ghost use Rattle.names.specs.Names.{unless_empty, default_name, find_in};
ghost use Rattle.names.specs.Table.{cell_bytes, cell_of, name_in, table_of};
ghost use Rattle.names.specs.Check.{found_of};

use crate::lines::{MAX_NAME, name, next_line};
use base::limits::MAX_SYMBOLS;
use base::numbers::digit;
use base::space::put;

// A cell's bytes: a name's length, then its bytes.
pub const CELL: usize = 17;

// The bytes of a whole table.
pub const TABLE: usize = 1088;

// A name into cell `i`, where the cell fits into the space.
fn put_cell(t: &mut [u8], i: u16, bytes: &[u8])
    requires { i < 64 }
    ensures { t.new ≡ put_at t.old (i * cell_bytes) (cell_of bytes.now) }
{
    let at = usize::from(i) * CELL;
    let n = MAX_NAME.min(bytes.len());
    if at + n < t.len() {
        t[at] = n as u8;
        put(t, at + 1, &bytes[..n]);
    }
}

// A part of a list into cell `i`; where it is empty, `s` and the number.
fn put_shown(t: &mut [u8], i: u16, part: &[u8])
    requires { i < 64 }
    ensures { t.new ≡ put_at t.old (i * cell_bytes) (cell_of (unless_empty part.now (default_name i))) }
{
    if part.len() > 0 {
        put_cell(t, i, part);
        return;
    }
    if i < 10 {
        let one = [b's', digit(u64::from(i))];
        put_cell(t, i, &one);
        return;
    }
    let two = [b's', digit(u64::from(i / 10)), digit(u64::from(i))];
    put_cell(t, i, &two);
}

// The names shown for 64 symbols, each in its cell of a space. The lookup is asked for symbol 0 of what is left of the lists, so that no list is scanned from its start again.
pub fn fill<'a>(t: &mut [u8], site: &'a [u8], built_in: &'a [u8])
    ensures { t.new ≡ table_of site.now built_in.now t.old }
{
    let mut a = 0;
    let mut b = 0;
    for i in 0..MAX_SYMBOLS {
        let part = name(&site[a..], &built_in[b..], 0);
        put_shown(t, i, part);
        a = next_line(site, a);
        b = next_line(built_in, b);
    }
}

// The name in the cell of symbol `i`.
pub fn shown<'a>(t: &'a [u8], i: u16) -> &'a [u8]
    ensures { result.now ≡ name_in t.now i }
{
    let at = usize::from(i) * CELL;
    let n = usize::from(t.get(at).copied().unwrap_or(0));
    let a = (at + 1).min(t.len());
    let e = (at + 1 + n).min(t.len());
    &t[a..e]
}

// How many bytes the name of symbol `i` has.
pub fn shown_length(t: &[u8], i: u16) -> usize
    ensures { result ≡ length (name_in t.now i) }
{
    shown(t, i).len()
}

// The name of symbol `i` at a place of a space, where it fits; else the space stays as it is.
pub fn put_name(out: &mut [u8], at: usize, t: &[u8], i: u16)
    ensures { out.new ≡ put_at out.old at (name_in t.now i) }
{
    put(out, at, shown(t, i));
}

// The first of so many symbols whose name is these bytes.
pub fn find(t: &[u8], symbols: u16, bytes: &[u8]) -> Option<u16>
    ensures { found_of result ≡ find_in symbols (name_in t.now) bytes.now }
{
    (0..symbols).find(|i| shown(t, *i) == bytes)
}
