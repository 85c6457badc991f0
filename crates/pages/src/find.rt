// Where things stand: the kind and size of a segment, the free runs, those that trim would leave, the segment of a page. Nothing is
// written.
ghost use Rattle.std.specs.Prelude.{◌≡◌, List, [], ℕ, ◌-◌, ◌≤◌, ◌<◌};
ghost use Rattle.zone.specs.Decoding.{zone_of};
ghost use Rattle.model.specs.Numbers.{most_pages};
ghost use Rattle.model.specs.Arena.{Segment, direct, zone, pages};
ghost use Rattle.model.specs.Zone.{Zone};
ghost use Rattle.model.specs.PageMap.{idle_zone};
ghost use Rattle.model.specs.Pages.{onward, first_fit, claim, with_run, joined};
ghost use Rattle.pages.specs.Decoding.{segments_of, Holds};
ghost use Rattle.pages.specs.Props.{holds-prop};
ghost use Rattle.pages.specs.Places.{kind_in, found, choice, run_at_start, is_clear, Stands, Passed, first_run, spot_from};

use crate::{Choice, Kind, Run, Spot, Start};
use model::numbers::{PAGE_WORDS, ZONE_PAGES};
use zone::Part;
use zone::layout::WORDS as ZONE_WORDS;

// (That a segment begins at a page is asked by each method: it is a fact of these words and of that page, and a value of both would be
// made, and its fact proved, for the one call.)

// The words of an arena's pages, lent for reading, and how many pages: the words are those of segments.
#[derive(Clone, Copy)]
pub struct Pages<'a> {
    pub words: &'a [u32],
    pub count: usize,
    ghost held: { Holds words.now count } by { holds-prop words.now count },
}

impl<'a> Pages<'a> {
    // The kind of the segment that begins at page p.
    pub fn kind(&self, p: usize) -> Kind
        requires { (b : ℕ) × (x : Segment Zone) × Stands (segments_of self.now.words.now) p b x }
        ensures { (b : ℕ) (x : Segment Zone) → Stands (segments_of self.now.words.now) p b x → result ≡ kind_in x }
    {
        Kind::told_by(self.words[PAGE_WORDS * p])
    }

    // Its pages.
    pub fn size(&self, p: usize) -> usize
        requires { (b : ℕ) × (x : Segment Zone) × Stands (segments_of self.now.words.now) p b x }
        ensures { (b : ℕ) (x : Segment Zone) → Stands (segments_of self.now.words.now) p b x → result ≡ pages x }
    {
        match self.kind(p) {
            Kind::Zone => ZONE_PAGES,
            Kind::Run | Kind::Direct => self.words[PAGE_WORDS * p + 1] as usize,
        }
    }

    // Its words, if it is a zone.
    pub fn zone(&self, p: usize) -> Part<'a>
        requires { (b : ℕ) × (z : Zone) × Stands (segments_of self.now.words.now) p b (zone z) }
        ensures { (b : ℕ) (z : Zone) → Stands (segments_of self.now.words.now) p b (zone z) → zone_of result.words.now ≡ z }
    {
        let a = PAGE_WORDS * p;
        let e = a + ZONE_WORDS;
        Part {
            words: &self.words[a..e],
        }
    }

    // Its group, if it is a direct block.
    pub fn group(&self, p: usize) -> u32
        requires { (b k g : ℕ) × Stands (segments_of self.now.words.now) p b (direct k g) }
        ensures { (b k g : ℕ) → Stands (segments_of self.now.words.now) p b (direct k g) → result ≡ g }
    {
        self.words[PAGE_WORDS * p + 2]
    }

    // The first free run from the page on; a segment begins there, or the arena ends.
    fn next_run(&self, page: usize) -> Option<Run>
        requires { (b : ℕ) × (l : List (Segment Zone)) × Passed (segments_of self.now.words.now) page b l }
        ensures { (b : ℕ) (l : List (Segment Zone)) → Passed (segments_of self.now.words.now) page b l → result ≡ found (first_run page l) }
    {
        let mut p = page;
        // (A `while`, here and below: each turn goes on by the pages of a segment.)
        while p < self.count {
            let len = self.size(p);
            match self.kind(p) {
                Kind::Run => return Some(Run { at: p, len }),
                Kind::Direct | Kind::Zone => p += len,
            }
        }
        None
    }

    // The first free run, in ascending order, that has `need` pages, and how many runs were looked at. (Document 01 asks for this loop: it
    // breaks with the run found, or ends with none.)
    pub fn find_run(&self, need: usize) -> Choice
        ensures { result ≡ choice (claim need (segments_of self.now.words.now)) }
    {
        let mut p = 0;
        let mut looked = 0;
        let run = loop {
            let Some(run) = self.next_run(p) else {
                break None;
            };
            looked += 1;
            if need <= run.len {
                break Some(run);
            }
            p = run.at + run.len;
        };
        Choice { run, looked }
    }

    // Whether the pages of the segment that begins at page p are free once trim has been there: it is a run, or a zone without a live
    // chunk.
    fn is_clear(&self, p: usize) -> bool
        requires { (b : ℕ) × (x : Segment Zone) × Stands (segments_of self.now.words.now) p b x }
        ensures { (b : ℕ) (x : Segment Zone) → Stands (segments_of self.now.words.now) p b x → result ≡ is_clear x }
    {
        match self.kind(p) {
            Kind::Run => true,
            Kind::Direct => false,
            Kind::Zone => self.zone(p).is_idle(),
        }
    }

    // The first run of `need` pages among those that trim would leave, and how many of them were looked at. `free` counts the pages
    // before page p that would be part of one run.
    pub fn find_trimmed(&self, need: usize) -> Choice
        ensures { result ≡ choice (claim need (joined idle_zone 0 (segments_of self.now.words.now))) }
    {
        let mut p = 0;
        let mut free = 0;
        let mut looked = 0;
        while p < self.count {
            let len = self.size(p);
            if self.is_clear(p) {
                free += len;
                p += len;
                continue;
            }
            let choice = look_at(p, free, need, looked);
            if choice.run.is_some() {
                return choice;
            }
            looked = choice.looked;
            free = 0;
            p += len;
        }
        look_at(p, free, need, looked)
    }

    // The segment that holds the page.
    pub fn find_segment(&self, page: usize) -> Option<Spot>
        ensures { result ≡ spot_from page 0 0 (segments_of self.now.words.now) }
    {
        let mut at = 0;
        let mut before = 0;
        while at < self.count {
            let len = self.size(at);
            let kind = self.kind(at);
            if page < at + len {
                return Some(Spot {
                    start: Start { at, before },
                    kind,
                    len,
                });
            }
            before = kind.run_len(len);
            at += len;
        }
        None
    }

    // The pages of the run that begins behind the segment x at page `at`, of `len` pages, or 0 (as in `Start`).
    pub fn run_behind(&self, at: usize, len: usize) -> usize
        requires { (b : ℕ) × (x : Segment Zone) × Stands (segments_of self.now.words.now) at b x × (pages x ≡ len) }
        ensures { (b : ℕ) (x : Segment Zone) (s : Stands (segments_of self.now.words.now) at b x) → pages x ≡ len → result ≡ run_at_start s.behind }
    {
        let next = at + len;
        if self.count <= next {
            return 0;
        }
        self.kind(next).run_len(self.size(next))
    }
}

// A search for `need` pages that has looked at so many runs comes to one of `free` pages, which ends at page p. (No pages are no run.)
fn look_at(p: usize, free: usize, need: usize, looked: u32) -> Choice
    requires { (free ≤ p) × (looked ≤ most_pages) }
    ensures { result ≡ choice (onward looked (first_fit (p - free) need (with_run {Z = Zone} free []))) }
{
    if free == 0 {
        return Choice { run: None, looked };
    }
    let looked = looked + 1;
    if free < need {
        return Choice { run: None, looked };
    }
    let run = Run {
        at: p - free,
        len: free,
    };
    Choice {
        run: Some(run),
        looked,
    }
}
