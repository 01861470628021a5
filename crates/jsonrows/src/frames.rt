// Members and elements whose rest is still to come, one at each level.
ghost use Rattle.std.specs.Prelude.{◌≡◌, ◌+◌, ◌-◌, ◌*◌, ◌<◌, ◌≤◌, length};
ghost use Rattle.jsonrows.specs.Grammar.{good, close_at};
ghost use Rattle.jsonrows.specs.State.{built_of, Held, SaysOf};
ghost use Rattle.jsonrows.specs.Items.{mark_of, leaf_of};
ghost use Rattle.jsonrows.specs.Frames.{joins, Framed};

use crate::rows::{Part, close, join};
use crate::tables::{Counts, Item, LEVELS, Source, Tables};
use base::refusal::TextRefusal;

// The rows of the items from the lowest frame up to `top`, each over its value and the one before, the first over the last part.
fn unwind(
    source: &Source,
    tables: &mut Tables,
    frames: &[Item; LEVELS],
    last: Part,
    low: usize,
    top: usize,
) -> Result<Part, TextRefusal>
    requires holds { Held source.now.text.now tables.old last.counts source.now.limit }
    requires read { (last.row.0 < last.counts.used) × (0 < last.next) }
    requires framed { Framed frames.now last.counts.used low top }
    ensures { SaysOf source.now.text.now tables.old tables.new last.counts source.now.limit result (joins source.now.limit frames.now low (top - low) (good last.row.0 last.next (built_of source.now.text.now tables.old last.counts))) }
{
    let mut part = last;
    for l in low..top {
        part = join(source, &mut *tables, frames[l], part)?;
    }
    Ok(part)
}

// The closing mark and its leaf, then the rows of all items.
pub(crate) fn close_items(
    source: &Source,
    tables: &mut Tables,
    frames: &[Item; LEVELS],
    counts: Counts,
    at: usize,
    object: bool,
    low: usize,
    top: usize,
) -> Result<Part, TextRefusal>
    requires holds { Held source.now.text.now tables.old counts source.now.limit }
    requires framed { Framed frames.now counts.used low top }
    ensures { SaysOf source.now.text.now tables.old tables.new counts source.now.limit result (joins source.now.limit frames.now low (top - low) (close_at source.now.limit source.now.text.now (mark_of object) (leaf_of object) at (built_of source.now.text.now tables.old counts))) }
{
    let last = close(source, &mut *tables, counts, at, object)?;
    unwind(source, tables, frames, last, low, top)
}
