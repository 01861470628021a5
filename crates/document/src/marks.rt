// Marks of numbers that a later one uses: a row that a later row has as a child, a step of a run that a later step takes.
ghost use Rattle.std.specs.Prelude.{◌≡◌, true, false, get_or, map, set};
ghost use Rattle.model.specs.Lists.{all_below};
ghost use Rattle.document.specs.Rows.{used};
ghost use Rattle.document.specs.Marks.{Marked};

use crate::rows::Numbered;
use base::limits::UNUSED;

// A mark past the end is none.
pub fn set_mark(marks: &mut [bool], at: usize)
    ensures { marks.new ≡ set marks.old at true }
{
    if at < marks.len() {
        marks[at] = true;
    }
}

// Marks each of the places of row or step j, up to the first unused one, that is lower than j.
pub fn mark<N: Numbered>(marks: &mut [bool], j: N, places: &[N])
    ensures { Marked (N.number j) (used (map N.number places.now)) marks.old marks.new }
{
    for x in places {
        let at = x.number();
        if at == UNUSED {
            return;
        }
        if at < j.number() {
            set_mark(marks, usize::from(at));
        }
    }
}

// Whether each number below n is marked.
pub fn all_marked(marks: &[bool], n: u16) -> bool
    ensures { result ≡ all_below n (λ i. get_or marks.now i false) }
{
    (0..n).all(|i| marks.get(usize::from(i)).copied().unwrap_or(false))
}
