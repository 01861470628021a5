// Tags that two states share: one pass over the states, with the tags seen so far as a mask.
ghost use Rattle.std.specs.Prelude.{◌≡◌, length};
ghost use Rattle.model.specs.Witness.{apart?};
ghost use Rattle.automaton.specs.Stored.{decode};

use crate::SoundSet;
use automaton::{State, tags_of};

// No two states share a tag.
pub(crate) fn all_apart(set: SoundSet) -> bool
    ensures { result ≡ apart? (decode set.entry.bytes.now) }
{
    let mut seen = 0;
    for q in 0..set.states {
        let tags = tags_of(set.bytes, State(q));
        if (seen & tags) != 0 {
            return false;
        }
        seen |= tags;
    }
    true
}
