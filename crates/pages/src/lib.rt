// The words of the arena's pages: where segments stand, pages out and pages in. What is read of them is read through `find::Pages`;
// what changes them is lent the words of all pages and nothing else. There they are those of segments (`Holds`).
#![tactic(auto)]

ghost use Rattle.std.specs.Prelude.{◌≡◌};
ghost use Rattle.pages.specs.Places.{kind_by, run_len};

pub mod check;
pub mod cut;
pub mod find;
pub mod join;

use zone::layout::{KIND_DIRECT, KIND_RUN};

// What a segment is. The first of its words has a number for it.
#[derive(Clone, Copy, PartialEq, Eq, Debug)]
pub enum Kind {
    Run,
    Direct,
    Zone,
}

// A free run: the page where it begins, and its pages.
#[derive(Clone, Copy, PartialEq, Eq, Debug)]
pub struct Run {
    pub at: usize,
    pub len: usize,
}

// Where a segment begins: its first page, and the pages of the run that ends there (0: none; the rules join runs by their pages, and no
// pages are no run).
#[derive(Clone, Copy, PartialEq, Eq, Debug)]
pub struct Start {
    pub at: usize,
    pub before: usize,
}

// What a search for pages comes to: the free run that it chose, if one is long enough, and how many runs it looked at.
#[derive(Clone, Copy, PartialEq, Eq, Debug)]
pub struct Choice {
    pub run: Option<Run>,
    pub looked: u32,
}

// The segment that holds a page: where it begins, its kind and its pages.
#[derive(Clone, Copy, PartialEq, Eq, Debug)]
pub struct Spot {
    pub start: Start,
    pub kind: Kind,
    pub len: usize,
}

impl Kind {
    // The kind of a segment by the first of its words.
    pub fn told_by(word: u32) -> Kind
        ensures { result ≡ kind_by word }
    {
        match word {
            KIND_RUN => Kind::Run,
            KIND_DIRECT => Kind::Direct,
            _ => Kind::Zone,
        }
    }

    // The pages of a segment of this kind that are a run's: all of them, or none (0, as in `Start`).
    pub fn run_len(self, len: usize) -> usize
        ensures { result ≡ run_len self len }
    {
        match self {
            Kind::Run => len,
            Kind::Direct | Kind::Zone => 0,
        }
    }
}
