// Documents: row tables, their scalars, and the index that finds an equal row while a table is built.
#![tactic(auto)]

pub mod rows; // rows.rt: lent rows, cell by cell
pub mod scalar; // scalar.rt: the five kinds of scalars
pub mod words; // words.rt: a row's cells as three numbers
pub mod hash; // hash.rt: the hash of a row
pub mod fields; // fields.rt: a row by value
pub mod index; // index.rt: the index of a table's rows
pub mod builder; // builder.rt: the table builder
pub mod near; // near.rt: the table builder over words
pub mod fresh; // fresh.rt: rows that are new for sure
pub mod marks; // marks.rt: marks of what is used
mod tests; // tests.rt: the four tests of a table

ghost use Rattle.std.specs.Prelude.{◌≡◌};
ghost use Rattle.model.specs.Refusal.{unless};
ghost use Rattle.automaton.specs.Answer.{check_answer};
ghost use Rattle.document.specs.Check.{document_check_of};

use base::refusal::Refusal;
pub use scalar::Scalar;

// Whether rows are a sound table for a sound set: else what refuses the set, or else what refuses the table.
pub fn check(set: &[u8], rows: &[u16]) -> Result<(), Refusal>
    ensures { check_answer result ≡ unless (document_check_of set.now rows.now) tt }
{
    automaton::check(set)?;
    tests::table(set, rows)
}
