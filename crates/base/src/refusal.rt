// Why an input is turned away: each refusal with its number and its text, which are those of the C header.
ghost use Rattle.std.specs.Prelude.{◌≡◌};
ghost use Rattle.base.specs.Refusals.{number};

use std::error::Error;
use std::fmt;

#[derive(Clone, Copy, Debug, PartialEq, Eq)]
pub enum Refusal {
    // A set.
    SetTooShort = 1,
    SetCounts = 2,
    SetLengths = 3,
    SetChildren = 4,
    SetState = 5,
    SetRule = 6,
    SetOrder = 7,
    SetTags = 8,
    SetForgets = 9,
    RuleForgets = 10,
    // A table.
    TableLength = 11,
    RowSymbol = 12,
    RowChildren = 13,
    RowScalar = 14,
    RowsEqual = 15,
    RowUnused = 16,
    TableHeight = 17,
    // A set that is to be moved to another form.
    SetForm = 18,
    // A run.
    RunLength = 21,
    StepUnknown = 22,
    StepMisfit = 23,
    RunTag = 24,
    RunEnd = 25,
    StepUnused = 26,
    // Judging.
    NoRoom = 31,
    RunSpace = 32,
    // A lowest document.
    TagShared = 41,
    RowSpace = 42,
    // Two sets.
    SetsDiffer = 51,
    ResultLimits = 52,
    ResultSpace = 53,
    // Name lists.
    ListLine = 61,
    NamesAlike = 62,
    // Text, with a place.
    TextFault = 63,
    TextLevel = 64,
    NameUnknown = 65,
    TermChildren = 66,
    TextRows = 67,
    // Writing text, and the programs.
    TextSpace = 68,
    InputLength = 69,
    // JSON, with a place; and its list of keys, without.
    JsonFault = 71,
    KeyRepeated = 72,
    NumberForm = 73,
    KeyList = 74,
}

impl Refusal {
    // The number that the C header gives it.
    pub fn number(self) -> u16
        ensures { result ≡ number self }
    {
        self as u16
    }
}

impl From<Refusal> for u16 {
    ghost from_gives = { λ r n. n ≡ number r };

    fn from(refusal: Refusal) -> u16 {
        refusal.number()
    }
}

impl fmt::Display for Refusal {
    fn fmt<W: fmt::Write>(&self, f: &mut fmt::Formatter<W>) -> fmt::Result {
        f.write_str(match self {
            Refusal::SetTooShort => "the set has fewer than 16 bytes",
            Refusal::SetCounts =>
                "the set's symbols, states, tags or rules are too few or too many",
            Refusal::SetLengths =>
                "an offset, the total or the length of the set differs from the formulas of every form, or its states have one byte for over 8 tags",
            Refusal::SetChildren => "a symbol of the set has more than 4 children",
            Refusal::SetState =>
                "a state of the set has a final byte above 1 or a tag that the set does not have",
            Refusal::SetRule =>
                "a rule of the set names an unknown symbol or state, or an unused place is not 65535",
            Refusal::SetOrder =>
                "the rules of the set do not ascend strictly by symbol, child places and target",
            Refusal::SetTags => "the set has over 8 tags, and its states cannot be narrowed",
            Refusal::SetForgets => "a rule of the set forgets a tag that the set does not have",
            Refusal::RuleForgets =>
                "a rule of the set forgets a tag, and its rules cannot be narrowed",
            Refusal::TableLength => "the table has no rows, over 1,024, or a row cut short",
            Refusal::RowSymbol => "a row has an unknown symbol",
            Refusal::RowChildren =>
                "a child of a row is not lower, or an unused place is not 65535",
            Refusal::RowScalar =>
                "kind and payload of a row are not those of a scalar that it may have",
            Refusal::RowsEqual => "two rows are equal",
            Refusal::RowUnused => "a row, not the last, is used by no later row",
            Refusal::TableHeight => "the tree is higher than 256",
            Refusal::SetForm =>
                "the set is not in the form that the move starts from, by its states or by its rules",
            Refusal::RunLength => "the run has no steps, over 4,096, or a step cut short",
            Refusal::StepUnknown => "a step names an unknown rule or row",
            Refusal::StepMisfit =>
                "the symbols of a step's rule and row differ, or a step place is not as it should be",
            Refusal::RunTag => "in some step a tag goes to two rows",
            Refusal::RunEnd => "the last step is not on the last row, or its state is not final",
            Refusal::StepUnused => "a step, not the last, is used by no later step",
            Refusal::NoRoom => "there are more distinct annotations than the room",
            Refusal::RunSpace => "the run space holds fewer steps than the room",
            Refusal::TagShared => "two states share a tag",
            Refusal::RowSpace => "there is space for fewer rows than the set has states",
            Refusal::SetsDiffer =>
                "the symbols of the two sets or their numbers of children differ",
            Refusal::ResultLimits =>
                "the result would have over 256 states, 16 tags or 1,024 rules",
            Refusal::ResultSpace => "the space is shorter than the result",
            Refusal::ListLine =>
                "a name list has over 64 lines, or a line that, but for spaces and bytes 13 at its end, is neither empty nor a name",
            Refusal::NamesAlike => "two symbols are shown alike",
            Refusal::TextFault => "the text has no legal continuation",
            Refusal::TextLevel =>
                "a term, or in JSON a value or the text of a key, stands at level 257",
            Refusal::NameUnknown => "the text has an unknown name",
            Refusal::TermChildren => "a term has a wrong number of children",
            Refusal::TextRows => "there is a row past the 1,024th or past the row space",
            Refusal::TextSpace => "the text is longer than the space",
            Refusal::InputLength => "the input has over 32,768 bytes",
            Refusal::JsonFault => "the text is not JSON or not UTF-8, or has half a surrogate pair",
            Refusal::KeyRepeated => "a key is repeated in one object",
            Refusal::NumberForm => "a number is no count, and has an exponent or over 15 digits",
            Refusal::KeyList =>
                "the key list has over 56 lines, a line that is empty or has over 64 bytes, or two equal lines",
        })
    }
}

impl Error for Refusal {}

// A refusal of a text, with the place where the text shows it; 0 where it shows nothing.
#[derive(Clone, Copy, Debug, PartialEq, Eq)]
pub struct TextRefusal {
    pub refusal: Refusal,
    pub place: usize,
}

// An input that shows no place.
impl From<Refusal> for TextRefusal {
    ghost from_gives = { λ r t. t ≡ record { refusal = r; place = 0 } };

    fn from(refusal: Refusal) -> TextRefusal {
        TextRefusal { refusal, place: 0 }
    }
}

impl fmt::Display for TextRefusal {
    fn fmt<W: fmt::Write>(&self, f: &mut fmt::Formatter<W>) -> fmt::Result {
        write!(f, "{} (at byte {})", self.refusal, self.place)
    }
}

impl Error for TextRefusal {}
