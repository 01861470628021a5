// The classes of a byte, in a table of 256 entries: bit k of an entry says whether its byte is in class k.
// An entry point makes the table once and lends it to its readers, since a constant array is built anew at each use. The tests answer from whatever table is lent; from this one they say what comparing the byte says.
#![tactic(auto)]

mod entries; // entries.rt: the table

ghost use Rattle.std.specs.Prelude.{◌≡◌, ◌||◌, ◌<◌, get_or};
ghost use Rattle.model.specs.Automaton.{bit?};
ghost use Rattle.classes.specs.Classes.{letter?, digit?, either_hex_digit?, space?, mark?, control?, in_class?, class_table};

use entries::CLASSES;

// The bit of each class in an entry.
const LETTER: u8 = 0;

const DIGIT: u8 = 1;

const HEX_DIGIT: u8 = 2;

const SPACE: u8 = 3;

const MARK: u8 = 4;

const CONTROL: u8 = 5;

// The table, built anew at each call: an entry point calls once.
pub fn class_table() -> [u8; 256]
    ensures { result ≡ class_table }
{
    CLASSES
}

// Whether a table says that a byte is in class k.
fn is_in(table: &[u8; 256], b: u8, k: u8) -> bool
    requires { k < 8 }
    ensures told { result ≡ bit? (get_or table.now b 0) k }
    ensures compared { table.now ≡ class_table → result ≡ in_class? k b }
{
    (table[usize::from(b)] >> k) % 2 == 1
}

// Whether a byte is a letter a to z.
pub fn is_letter(table: &[u8; 256], b: u8) -> bool
    ensures told { result ≡ bit? (get_or table.now b 0) 0 }
    ensures compared { table.now ≡ class_table → result ≡ letter? b }
{
    is_in(table, b, LETTER)
}

// Whether a byte is a digit.
pub fn is_digit(table: &[u8; 256], b: u8) -> bool
    ensures told { result ≡ bit? (get_or table.now b 0) 1 }
    ensures compared { table.now ≡ class_table → result ≡ digit? b }
{
    is_in(table, b, DIGIT)
}

// Whether a byte is a hex digit, of either case.
pub fn is_hex_digit(table: &[u8; 256], b: u8) -> bool
    ensures told { result ≡ bit? (get_or table.now b 0) 2 }
    ensures compared { table.now ≡ class_table → result ≡ either_hex_digit? b }
{
    is_in(table, b, HEX_DIGIT)
}

// Whether a byte is a space: tab, newline, return or blank.
pub fn is_space(table: &[u8; 256], b: u8) -> bool
    ensures told { result ≡ bit? (get_or table.now b 0) 3 }
    ensures compared { table.now ≡ class_table → result ≡ space? b }
{
    is_in(table, b, SPACE)
}

// Whether a byte is a structural mark, one of `{}[](),:`.
pub fn is_mark(table: &[u8; 256], b: u8) -> bool
    ensures told { result ≡ bit? (get_or table.now b 0) 4 }
    ensures compared { table.now ≡ class_table → result ≡ mark? b }
{
    is_in(table, b, MARK)
}

// Whether a byte is a control byte, below 32.
pub fn is_control(table: &[u8; 256], b: u8) -> bool
    ensures told { result ≡ bit? (get_or table.now b 0) 5 }
    ensures compared { table.now ≡ class_table → result ≡ control? b }
{
    is_in(table, b, CONTROL)
}

// Whether a byte is a letter a to z or a digit.
pub fn is_letter_or_digit(table: &[u8; 256], b: u8) -> bool
    ensures told { result ≡ (bit? (get_or table.now b 0) 0 || bit? (get_or table.now b 0) 1) }
    ensures compared { table.now ≡ class_table → result ≡ (letter? b || digit? b) }
{
    is_letter(table, b) | is_digit(table, b)
}
