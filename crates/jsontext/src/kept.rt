// What is kept of a string's bytes for its slot.
ghost use Rattle.std.specs.Prelude.{◌≤◌};

// How many bytes there are, modulo 2^32, and counted up to eight; the first eight, with zeros behind fewer, and the last eight, with zeros ahead of fewer.
#[derive(Clone, Copy)]
pub(crate) struct Kept {
    pub count: u32,
    pub few: usize,
    pub first: u64,
    pub last: u64,
    ghost counted: { few ≤ 8 },
}
