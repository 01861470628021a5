// JSON (RFC 8259) at a place of a text: white space, strings, numbers.
#![tactic(auto)]

pub mod number; // number.rt: a number, and the scalar that it becomes
mod digits; // digits.rt: digits that fit into 64 bits
mod rate; // rate.rt: a decimal number as a rate
pub mod spaces; // spaces.rt: white space
mod utf8; // utf8.rt: sequences of bytes above 127
mod pieces; // pieces.rt: what stands at a place of a string
mod words; // words.rt: eight bytes at once
mod plain; // plain.rt: bytes that stand for themselves
mod chars; // chars.rt: a character of a string, decoded
pub mod decoded; // decoded.rt: strings compared after decoding
mod kept; // kept.rt: what is kept of a string's bytes for its slot
pub mod slots; // slots.rt: where a text is looked for first
pub mod written; // written.rt: a string that is written just as it is
pub mod tokens; // tokens.rt: short strings that are known beforehand
pub mod strings; // strings.rt: a string's slot and end
pub mod shorts; // shorts.rt: the same of a short string, and one compared with another
