// A decimal digit as a byte.
ghost use Rattle.std.specs.Prelude.{◌≡◌, ◌+◌, ◌%◌};

// The byte of a number's last decimal digit.
pub fn digit(n: u64) -> u8
    ensures { result ≡ 48 + n % 10 }
{
    b'0' + (n % 10) as u8
}
