// What every crate above shares: the limits, a decimal digit, bytes of a text by place, and putting items into a lent space.
#![tactic(auto)]

pub mod limits; // limits.rt: the limits, each stated once
pub mod numbers; // numbers.rt: a decimal digit
pub mod refusal; // refusal.rt: why an input is turned away, with numbers and texts
pub mod space; // space.rt: items put at a place of a space
pub mod text; // text.rt: bytes of a text by place
