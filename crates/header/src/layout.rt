// Where the header's words stand; specs/Encoding.antt says what each holds.
use model::numbers::{CLASS_COUNT, MOST_PAGES};

pub const AT_MAGIC: usize = 0;

pub const AT_PAGES: usize = 1;

pub const AT_SPARE: usize = 2;

pub const AT_LISTS: usize = 4;

pub const AT_REST: usize = 36;

pub const MAGIC: u32 = 1313821524;

// Every key of a class is below.
pub const KEY_LIMIT: u32 = MOST_PAGES * CLASS_COUNT;
