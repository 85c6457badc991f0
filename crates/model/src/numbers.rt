// The numbers of specs/Numbers.antt as the code has them, each under one name.

// The bytes of a page; the pages and the bytes of a zone.
pub const PAGE_BYTES: u32 = 4096;

pub const ZONE_PAGES: usize = 8;

pub const ZONE_BYTES: u32 = 32768;

// The size from which a request takes whole pages, and the largest that may be asked for; it is the largest ceiling too.
pub const LARGE_SIZE: u32 = 8192;

pub const MOST_BYTES: u32 = 1048576;

// Groups are 1 to this; and how many they are, as a count of words and of records.
pub const MOST_GROUP: u32 = 12;

pub const GROUPS: usize = MOST_GROUP as usize;

// How many classes there are; they count from 0.
pub const CLASS_COUNT: u32 = 64;

// Arenas have 1 to so many pages.
pub const MOST_PAGES: u32 = 256;

// The empty list holds so many zones at most.
pub const MOST_SPARE: u32 = 2;

// The words of the groups' figures, the words of the header behind them, and the words of a page.
pub const FIGURE_WORDS: usize = 64;

pub const HEADER_WORDS: usize = 1024;

pub const PAGE_WORDS: usize = 520;
