// A number in decimal, put into a lent space.
ghost use Rattle.std.specs.Prelude.{◌≡◌, ◌≤◌, length};
ghost use Rattle.model.specs.Space.{put_at};
ghost use Rattle.names.specs.Names.{decimal};

use crate::piece::{decimal_of, put_piece};

// The digits at a place of the space; nothing is written where they do not fit. How many there are comes back.
pub fn put_decimal(out: &mut [u8], at: usize, n: u64) -> usize
    ensures count { result ≡ length (decimal n) }
    ensures space { out.new ≡ put_at out.old at (decimal n) }
    ensures few { result ≤ 20 }
{
    let p = decimal_of(n);
    put_piece(out, at, p)
}
