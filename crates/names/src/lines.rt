// The lines of a name list, what a name is, and the lookup of a symbol's name in the two lists.
ghost use Rattle.std.specs.Prelude.{◌≡◌, ℕ, ◌+◌, ◌≤◌, min, length, get_or};
ghost use Rattle.model.specs.Lists.{all_below};
ghost use Rattle.classes.specs.Classes.{class_table};
ghost use Rattle.names.specs.Lines.{blank?, trimmed, line_at};
ghost use Rattle.names.specs.Places.{Ended, Starts};
ghost use Rattle.names.specs.Names.{name_byte?, name?, name_of};
ghost use Rattle.names.specs.Check.{line_fits?, list_fits?};

use base::limits::MAX_SYMBOLS;
use classes::{is_letter, is_letter_or_digit};

// The most bytes of a name.
pub const MAX_NAME: usize = 16;

// Where the line that starts at place `a` ends.
pub fn line_end(s: &[u8], a: usize) -> usize
    ensures { a ≤ length s.now → Ended s.now a result }
{
    for i in a..s.len() {
        if s[i] == 10 {
            return i;
        }
    }
    s.len()
}

// Behind a line's end; the list's end where no line follows.
fn after(s: &[u8], e: usize) -> usize
    ensures { result ≡ min (e + 1) (length s.now) }
{
    if e < s.len() { e + 1 } else { s.len() }
}

// Where the line after the one at place `a` starts.
pub(crate) fn next_line(s: &[u8], a: usize) -> usize
    ensures inside { result ≤ length s.now }
    ensures next { (i : ℕ) → Starts s.now i a → Starts s.now (i + 1) result }
{
    let e = line_end(s, a);
    after(s, e)
}

// Where line `i` starts; the list's end where there is none.
fn line_start(s: &[u8], i: usize) -> usize
    ensures { Starts s.now i result }
{
    let mut a = 0;
    for _ in 0..i {
        if a >= s.len() {
            return a;
        }
        a = next_line(s, a);
    }
    a
}

// Whether a byte is cut off at the end of a line: a space, or the byte 13 that some editors put before each byte 10.
fn is_blank(b: u8) -> bool
    ensures { result ≡ blank? b }
{
    (b == 32) | (b == 13)
}

// A line without the spaces and bytes 13 at its end.
fn trim<'a>(line: &'a [u8]) -> &'a [u8]
    ensures { result.now ≡ trimmed line.now }
{
    let mut e = line.len();
    while e > 0 {
        if is_blank(line[e - 1]) {
            e -= 1;
        } else {
            return &line[..e];
        }
    }
    &line[..e]
}

// Line `i` of a list, trimmed; empty where there is none. No other function cuts a line out of a list, so this one alone trims.
fn line<'a>(s: &'a [u8], i: usize) -> &'a [u8]
    ensures { result.now ≡ line_at s.now i }
{
    let a = line_start(s, i);
    let e = line_end(s, a);
    trim(&s[a..e])
}

// Whether a byte may stand in a name.
fn in_name(classes: &[u8; 256], b: u8) -> bool
    requires lent { classes.now ≡ class_table }
    ensures { result ≡ name_byte? b }
{
    is_letter_or_digit(classes, b)
}

// Whether each byte may stand in a name.
fn all_in_name(s: &[u8], classes: &[u8; 256]) -> bool
    requires lent { classes.now ≡ class_table }
    ensures { result ≡ all_below (length s.now) (λ k. name_byte? (get_or s.now k 0)) }
{
    s.iter().all(|b| in_name(classes, *b))
}

// Whether some bytes are a name.
fn is_name(s: &[u8], classes: &[u8; 256]) -> bool
    requires lent { classes.now ≡ class_table }
    ensures { result ≡ name? s.now }
{
    if s.len() == 0 {
        return false;
    }
    if s.len() > MAX_NAME {
        return false;
    }
    if is_letter(classes, s[0]) {
        return all_in_name(s, classes);
    }
    false
}

// Whether a line is empty or a name.
fn line_fits(s: &[u8], classes: &[u8; 256]) -> bool
    requires lent { classes.now ≡ class_table }
    ensures { result ≡ line_fits? s.now }
{
    if s.len() == 0 {
        return true;
    }
    is_name(s, classes)
}

// Whether a list has at most 64 lines, as many as a set has symbols, each empty or a name. Line 0 of what is left of the list is asked for, so that the list is not scanned from its start again.
pub(crate) fn list_fits(s: &[u8], classes: &[u8; 256]) -> bool
    requires lent { classes.now ≡ class_table }
    ensures { result ≡ list_fits? s.now }
{
    let mut a = 0;
    for _ in 0..MAX_SYMBOLS {
        if a >= s.len() {
            return true;
        }
        if !line_fits(line(&s[a..], 0), classes) {
            return false;
        }
        a = next_line(s, a);
    }
    a >= s.len()
}

// The name that the lists have for symbol `i`: the part of the site's list, else of the built-in list; empty where neither has one.
pub fn name<'a>(site: &'a [u8], built_in: &'a [u8], i: usize) -> &'a [u8]
    ensures { result.now ≡ name_of site.now built_in.now i }
{
    let own = line(site, i);
    if own.len() > 0 {
        return own;
    }
    line(built_in, i)
}
