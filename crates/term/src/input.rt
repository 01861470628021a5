// What is read, and against what.
ghost use Rattle.std.specs.Prelude.{◌≡◌, length};
ghost use Rattle.classes.specs.Classes.{class_table};
ghost use Rattle.automaton.specs.Stored.{decode};
ghost use Rattle.automaton.specs.Check.{check_of};

// A text, the classes of bytes, a stored set, a table of its symbols' names, and the most rows. The rows, their index and their number change with each term, and the builder takes them one by one, so they stay apart.
#[derive(Clone, Copy)]
pub(crate) struct Source<'a> {
    pub(crate) text: &'a [u8],
    pub(crate) classes: &'a [u8; 256],
    pub(crate) set: &'a [u8],
    pub(crate) names: &'a [u8],
    pub(crate) symbols: u16,
    pub(crate) limit: u16,
    ghost lent: { classes.now ≡ class_table },
    ghost sound: { check_of set.now ≡ 0 },
    ghost counted: { symbols ≡ length (decode set.now).arities },
}
