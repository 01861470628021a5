// The annotations of a window by class, so that only those in the state that is asked are visited. No cell of heads or links is ever cleared: a head is tested when it is read, and a link is read only where one was written.
ghost use Rattle.std.specs.Prelude.{◌≡◌, suc, ◌+◌, ◌*◌, ◌%◌, ◌≤◌, ◌<◌, length, get_or, set};
ghost use Rattle.judging.specs.Chains.{class_in, FirstWith, HeadOf, Opened, Chained, Opening};

use automaton::State;
use base::limits::{MAX_STEPS, PLACES};
use membership::cells::{ANNOTATION_CELLS, STATE};
use membership::narrow;

// A class is the state's remainder, which is the state itself in a sound set.
pub(crate) const CLASSES: usize = 256;

const HEADS: usize = PLACES * CLASSES;

const LINKS: usize = MAX_STEPS as usize;

// The first annotation of each class, for each place, and the next of the same class, for each annotation.
#[derive(Clone, Copy)]
pub struct Chains {
    pub heads: [u16; HEADS],
    pub links: [u16; LINKS],
}

// Those before the first row: what they hold does not matter, since a head is tested when it is read.
pub(crate) fn no_chains() -> Chains {
    let heads = [0u16; HEADS];
    let links = [0u16; LINKS];
    Chains { heads, links }
}

// So few annotations are scanned: they need neither heads nor links.
const FEW: usize = 4;

// The class that is asked with a state.
pub(crate) fn class_of(q: State) -> usize
    ensures { (result ≡ q.0 % 256) × (result < 256) }
{
    usize::from(q.0) % CLASSES
}

// The class of annotation j.
fn class_at(work: &[u16], j: usize) -> usize
    requires { j * 32 + 32 ≤ length work.now }
    ensures { (result ≡ class_in work.now j) × (result < 256) }
{
    usize::from(work[j * ANNOTATION_CELLS + STATE]) % CLASSES
}

// The first annotation of a class, looked at one by one. Here and below the end of the window stands for none, as it does in the cells of heads and links.
fn scan(work: &[u16], c: usize, low: usize, high: usize) -> usize
    requires { (low ≤ high) × (high * 32 ≤ length work.now) }
    ensures { FirstWith (class_in work.now) c low high result }
{
    (low..high)
        .find(|j| class_at(work, *j) == c)
        .unwrap_or(high)
}

// The first annotation of a class, as a head says. A head of a class that the window has not may be of any window before.
fn head_from(work: &[u16], chains: &Chains, at: usize, c: usize, low: usize, high: usize) -> usize
    requires bounds { (at < 1024) × (low ≤ high) × (high * 32 ≤ length work.now) }
    requires head_of { HeadOf (class_in work.now) c low high (get_or chains.now.heads at 0) }
    ensures { FirstWith (class_in work.now) c low high result }
{
    let h = usize::from(chains.heads[at]);
    if h < low {
        return high;
    }
    if h >= high {
        return high;
    }
    if class_at(work, h) != c {
        return high;
    }
    h
}

// A window's heads at place p and its links are made, from the last annotation back to the first. A link starts past its own annotation, which an old head may name.
pub(crate) fn open_window(work: &[u16], p: usize, low: usize, high: usize, chains: &mut Chains)
    requires { (p < 4) × (low ≤ high) × (high ≤ 4096) × (high * 32 ≤ length work.now) }
    ensures { Opening (class_in work.now) p low high chains.old.heads chains.old.links chains.new.heads chains.new.links }
{
    if high <= low + FEW {
        return;
    }
    for j in (low..high).rev() {
        let c = class_at(work, j);
        let at = p * CLASSES + c;
        let next = head_from(work, chains, at, c, j + 1, high);
        chains.links[j] = narrow(next);
        chains.heads[at] = narrow(j);
    }
}

// The first annotation of a class in a window opened at place p.
pub(crate) fn first_in(
    work: &[u16],
    chains: &Chains,
    p: usize,
    c: usize,
    low: usize,
    high: usize,
) -> usize
    requires bounds { (p < 4) × (c < 256) × (low ≤ high) × (high ≤ 4096) × (high * 32 ≤ length work.now) }
    requires opened { Opened (class_in work.now) p low high chains.now.heads }
    ensures { FirstWith (class_in work.now) c low high result }
{
    if high <= low + FEW {
        return scan(work, c, low, high);
    }
    head_from(work, chains, p * CLASSES + c, c, low, high)
}

// The next annotation of the same class after annotation j of an opened window.
pub(crate) fn next_in(
    work: &[u16],
    chains: &Chains,
    c: usize,
    j: usize,
    low: usize,
    high: usize,
) -> usize
    requires bounds { (low ≤ j) × (j < high) × (high ≤ 4096) × (high * 32 ≤ length work.now) }
    requires chained { Chained (class_in work.now) low high chains.now.links × (class_in work.now j ≡ c) }
    ensures { FirstWith (class_in work.now) c (suc j) high result }
{
    if high <= low + FEW {
        return scan(work, c, j + 1, high);
    }
    usize::from(chains.links[j])
}
