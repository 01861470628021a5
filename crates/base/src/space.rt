// Items put at a place of a lent space, where they fit whole; else the space stays as it is.
ghost use Rattle.std.specs.Prelude.{◌≡◌};
ghost use Rattle.model.specs.Space.{put_at};

pub fn put<T: Copy>(out: &mut [T], at: usize, items: &[T])
    ensures { out.new ≡ put_at out.old at items.now }
{
    let n = items.len();
    if n <= out.len() && at <= out.len() - n {
        for i in 0..n {
            out[at + i] = items[i];
        }
    }
}
