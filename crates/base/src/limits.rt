// The limits of document 01, sections "Sets", "Documents" and "Runs", and of document 02, Wish 2, for tags, each stated once in code.
ghost use Rattle.base.specs.Limits.{AsInModel};

pub const MAX_SYMBOLS: u16 = 64;

pub const MAX_CHILDREN: u16 = 4;

pub const MAX_STATES: u16 = 256;

pub const MAX_TAGS: u16 = 16;

pub const MAX_RULES: u16 = 1024;

pub const MAX_ROWS: u16 = 1024;

pub const MAX_LEVELS: u16 = 256;

pub const MAX_STEPS: u16 = 4096;

// What a place holds that names no state, row or step.
pub const UNUSED: u16 = 65535;

// The child places of a rule, a row or a step.
pub const PLACES: usize = MAX_CHILDREN as usize;

// The limits side by side.
#[derive(Clone, Copy)]
struct Limits {
    symbols: u16,
    children: u16,
    states: u16,
    tags: u16,
    rules: u16,
    rows: u16,
    levels: u16,
    steps: u16,
    unused: u16,
    places: usize,
}

// Each constant is the number that the model states.
fn stated() -> Limits
    ensures { AsInModel result }
{
    Limits {
        symbols: MAX_SYMBOLS,
        children: MAX_CHILDREN,
        states: MAX_STATES,
        tags: MAX_TAGS,
        rules: MAX_RULES,
        rows: MAX_ROWS,
        levels: MAX_LEVELS,
        steps: MAX_STEPS,
        unused: UNUSED,
        places: PLACES,
    }
}
