// A stored set read through a struct that keeps its lent bytes and a place. Each of its methods takes it apart and leaves the work to the
// core on the bytes and a number. `number_at` has a plain slice, so that whoever calls it never sees the struct.
ghost use Rattle.std.specs.Prelude.{◌≡◌, ◌+◌, ◌*◌};
ghost use Rattle.automaton.specs.Number.{NumberAt};

use super::slice::word_from;

#[derive(Clone, Copy)]
pub struct SetReader<'a> {
    set: &'a [u8],
    at: usize,
}

impl<'a> SetReader<'a> {
    // A reader at the first byte.
    pub fn new(set: &'a [u8]) -> SetReader<'a>
        ensures { (result.set ≡ set.entry) × (result.at ≡ 0) }
    {
        SetReader { set, at: 0 }
    }

    // The reader handed back at another place, inside the set or not.
    pub fn moved(self, at: usize) -> SetReader<'a>
        ensures { (result.set ≡ self.entry.set) × (result.at ≡ at) }
    {
        SetReader { set: self.set, at }
    }

    // Number k from the place on: 0 is the number there, and at a rule's place 0 to 5 are the rule.
    pub fn number(self, k: u16) -> u16
        ensures { NumberAt self.entry.set.now (self.entry.at + 2 * k) result }
    {
        word_from(self.set, self.at, k)
    }
}

// Number k from byte `at` of a set, through a reader moved there.
pub(crate) fn number_at(set: &[u8], at: usize, k: u16) -> u16
    ensures { NumberAt set.now (at + 2 * k) result }
{
    SetReader::new(set).moved(at).number(k)
}
