// A program's input, read to its end. A read that fails is told, and is never taken for the end.
#![tactic(auto)]

ghost use Rattle.std.specs.Prelude.{◌≡◌, ◌+◌, ◌-◌, ◌≤◌, ◌<◌, length, take, drop, IfOk};
ghost use Rattle.stream.specs.Reading.{after_read, Ahead, Within, HeardOf, ReceivedOf};

use std::io;
use std::io::Read;

// What one answer of `read` means: so many bytes are there now, or the input has ended, or the read failed.
fn after(done: usize, most: usize, got: io::Result<usize>) -> io::Result<Option<usize>>
    requires { (done ≤ most) × IfOk got (λ n. n ≤ most - done) }
    ensures { result ≡ after_read done got }
{
    match got? {
        0 => Ok(None),
        more => Ok(Some(done + more)),
    }
}

// One read, into the space behind what is there.
fn hear<R: Read>(input: &mut R, space: &mut [u8], done: usize) -> io::Result<Option<usize>>
    requires { done < length space.old }
    ensures ahead { Ahead done (length space.old) result }
    ensures before { take done space.new ≡ take done space.old }
    ensures bytes { HeardOf (R.remaining input.old) (R.remaining input.new) done result space.new }
{
    let most = space.len();
    let got = input.read(&mut space[done..]);
    after(done, most, got)
}

// Reads until the input ends, the space is full or a read fails: how many bytes the whole input has (of a longer one, as many as fill the space), or why only a part of it was read. Which bytes come is the reader's to say, and where it says so they stand at the front of the space; how many of the space are the input's is said here.
pub fn receive<R: Read>(input: &mut R, space: &mut [u8]) -> io::Result<usize>
    ensures within { Within result space.new }
    ensures bytes { ReceivedOf (R.remaining input.old) (R.remaining input.new) result space.new }
{
    let mut done = 0;
    while done < space.len() {
        let Some(n) = hear(input, space, done)? else {
            return Ok(done);
        };
        done = n;
    }
    Ok(done)
}

#[cfg(test)]
mod tests {
    use super::*;

    // Gives a byte a read, so many times, and then fails.
    #[derive(Drop)]
    struct Failing {
        left: u8,
    }

    impl Read for Failing {
        fn read(&mut self, buf: &mut [u8]) -> io::Result<usize> {
            if buf.len() == 0 {
                return Ok(0);
            }
            if self.left == 0 {
                return Err(io::Error::from(io::ErrorKind::WouldBlock));
            }
            buf[0] = self.left;
            self.left -= 1;
            Ok(1)
        }
    }

    #[test]
    fn an_input_that_ends(rt: HostRuntime) {
        let mut space = [0u8; 4];
        let mut input: &[u8] = b"abc";
        assert!(rt; matches!(receive(&mut input, &mut space), Ok(3)));
        assert_eq!(rt; &space, b"abc\0");
    }

    #[test]
    fn an_input_longer_than_the_space(rt: HostRuntime) {
        let mut space = [0u8; 4];
        let mut input: &[u8] = b"abcdef";
        assert!(rt; matches!(receive(&mut input, &mut space), Ok(4)));
        assert_eq!(rt; &space, b"abcd");
    }

    #[test]
    fn a_read_that_fails(rt: HostRuntime) {
        let mut space = [0u8; 4];
        assert!(rt; receive(&mut Failing { left: 3 }, &mut space).is_err());
        assert!(rt; matches!(receive(&mut Failing { left: 4 }, &mut space), Ok(4)));
    }
}
