// The two lent name lists: their check, the lookup of a symbol's name, and a table for finding a symbol by its name. The lists are no struct, since `term::read` and `spelling::write` take them one by one, as C does.
#![tactic(auto)]

pub mod lines; // lines.rt: the lines of a list, and the lookup
pub mod table; // table.rt: the names shown, in cells of one width

ghost use Rattle.std.specs.Prelude.{◌≡◌, ◌≤◌, true, length};
ghost use Rattle.model.specs.Refusal.{unless};
ghost use Rattle.names.specs.Table.{name_in};
ghost use Rattle.names.specs.Check.{list_fits?, new?, distinct?, shown_apart?, names_check_of, names_answer};

use base::limits::MAX_SYMBOLS;
use base::refusal::Refusal;
use classes::class_table;
use lines::list_fits;
use table::{TABLE, fill, find, shown};

// Whether no symbol before `i` has `i`'s name.
fn is_new(t: &[u8], i: u16) -> bool
    ensures { result ≡ new? (name_in t.now) i }
{
    find(t, i, shown(t, i)).is_none()
}

// Whether no two of `n` symbols have one name.
fn all_new(t: &[u8], n: u16) -> bool
    ensures { result ≡ distinct? n (name_in t.now) }
{
    (0..n).all(|i| is_new(t, i))
}

// Of lists whose lines are names: whether no two of a set's symbols, of which there are at most 64, are shown alike.
fn are_distinct<'a>(t: &mut [u8], symbols: u16, site: &'a [u8], built_in: &'a [u8]) -> bool
    requires space { 1088 ≤ length t.old }
    requires fit { (list_fits? site.now ≡ true) × (list_fits? built_in.now ≡ true) }
    ensures { result ≡ shown_apart? symbols site.now built_in.now }
{
    fill(t, site, built_in);
    all_new(t, symbols.min(MAX_SYMBOLS))
}

// Whether two name lists may be used with a set of so many symbols: 61 or 62 where not.
pub fn check<'a>(symbols: u16, site: &'a [u8], built_in: &'a [u8]) -> Result<(), Refusal>
    ensures { names_answer result ≡ unless (names_check_of symbols site.now built_in.now) tt }
{
    let classes = class_table();
    if !list_fits(site, &classes) || !list_fits(built_in, &classes) {
        return Err(Refusal::ListLine);
    }
    let mut t = [0u8; TABLE];
    if !are_distinct(&mut t, symbols, site, built_in) {
        return Err(Refusal::NamesAlike);
    }
    Ok(())
}
