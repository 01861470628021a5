// Which cells of the work space an annotation has, and which hold what.
pub const ANNOTATION_CELLS: usize = 32;

pub const ROW: usize = 0;

pub const STATE: usize = 1;

pub const MEMORY: usize = 2;

pub const MEMORY_END: usize = 18;

pub const MARK: usize = 18;

pub const RULE: usize = 19;

pub const CHILD: usize = 20;

// Those of the index: the newest annotation of a slot, and the one after an annotation.
pub const FIRST: usize = 24;

pub const NEXT: usize = 25;

// Those of the run: 1 where the annotation is reached, and its step's number.
pub const REACHED: usize = 26;

pub const NUMBER: usize = 27;
