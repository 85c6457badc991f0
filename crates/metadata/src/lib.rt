// The metadata words as a whole: whether they begin with the words of a valid state (`state-iff`). Any words may be lent.
#![tactic(auto)]

ghost use Rattle.std.specs.Prelude.{◌≡◌, true, cond, ℕ, ◌+◌, ◌≤◌, ◌<◌, length};
ghost use Rattle.model.specs.Arena.{Segment, total};
ghost use Rattle.model.specs.Zone.{Zone, full};
ghost use Rattle.model.specs.State.{fresh_state};
ghost use Rattle.model.specs.Perform.{words_for};
ghost use Rattle.zone.specs.Decoding.{zone_of};
ghost use Rattle.pages.specs.Decoding.{segments_of};
ghost use Rattle.pages.specs.Places.{Stands};
ghost use Rattle.header.specs.Keys.{keys_of};
ghost use Rattle.header.specs.Encoding.{spare_in, lists_in};
ghost use Rattle.metadata.specs.Lists.{zone_fits, segment_fits, is_open, fit_from};
ghost use Rattle.metadata.specs.Encoding.{encode};
ghost use Rattle.metadata.specs.Decoding.{decode, is_state};
ghost use Rattle.model.specs.Numbers.{most_pages};

use header::Lists;
use model::numbers::{HEADER_WORDS, PAGE_WORDS};
use pages::Kind;
use pages::find::Pages;
use zone::Part;

// Whether the zone at the page stands where it should: a zone with a chunk not live is on its class's list, or on the empty list
// and idle.
fn zone_fits(lists: &Lists, part: &Part, page: u32) -> bool
    requires { page < most_pages }
    ensures { result ≡ zone_fits (spare_in lists.now.words.now) (lists_in lists.now.words.now) page (zone_of part.now.words.now) }
{
    if part.is_full() {
        return true;
    }
    if lists.spare_contains(page) {
        return part.is_idle();
    }
    lists.contains(part.class(), page)
}

// 1 for a zone that has a chunk not live, else 0.
fn zone_open(part: &Part) -> u32
    ensures { result ≡ cond (full (zone_of part.now.words.now)) 0 1 }
{
    u32::from(!part.is_full())
}

// Whether the segment at page p, if it is a zone, stands where it should.
fn fits_at(lists: &Lists, pages: &Pages, p: usize) -> bool
    requires { (b : ℕ) × (x : Segment Zone) × Stands (segments_of pages.now.words.now) p b x }
    ensures { (b : ℕ) (x : Segment Zone) → Stands (segments_of pages.now.words.now) p b x → result ≡ segment_fits (spare_in lists.now.words.now) (lists_in lists.now.words.now) p x }
{
    match pages.kind(p) {
        Kind::Zone => zone_fits(lists, &pages.zone(p), p as u32),
        Kind::Run | Kind::Direct => true,
    }
}

// 1 if the segment at page p is a zone that has a chunk not live, else 0.
fn open_at(pages: &Pages, p: usize) -> u32
    requires { (b : ℕ) × (x : Segment Zone) × Stands (segments_of pages.now.words.now) p b x }
    ensures { (b : ℕ) (x : Segment Zone) → Stands (segments_of pages.now.words.now) p b x → result ≡ is_open x }
{
    match pages.kind(p) {
        Kind::Zone => zone_open(&pages.zone(p)),
        Kind::Run | Kind::Direct => 0,
    }
}

// Whether all zones stand where they should, and the lists have as many entries as there are zones that must stand on one.
fn lists_fit(lists: &Lists, pages: &Pages) -> bool
    ensures { result ≡ fit_from (spare_in lists.now.words.now) (lists_in lists.now.words.now) (length (keys_of (lists_in lists.now.words.now)) + length (spare_in lists.now.words.now)) 0 0 (segments_of pages.now.words.now) }
{
    let entries = lists.listed() + lists.spare_count();
    let mut p = 0;
    let mut open = 0;
    // (A `while`: each turn goes on by the pages of a segment.)
    while p < pages.count {
        if !fits_at(lists, pages, p) {
            return false;
        }
        open += open_at(pages, p);
        p += pages.size(p);
    }
    open == entries
}

// The words of an arena of n pages.
pub fn words_for(n: usize) -> usize
    requires { n ≤ most_pages }
    ensures { result ≡ words_for n }
{
    HEADER_WORDS + PAGE_WORDS * n
}

// Whether the words begin with the encoding of a valid state.
pub fn check(words: &[u32]) -> bool
    ensures { result ≡ is_state words.now }
{
    if words.len() < HEADER_WORDS {
        return false;
    }
    if !header::check(&words[..HEADER_WORDS]) {
        return false;
    }
    let lists = Lists {
        words: &words[..HEADER_WORDS],
    };
    let count = lists.pages() as usize;
    let e = words_for(count);
    if words.len() < e {
        return false;
    }
    let words = &words[HEADER_WORDS..e];
    if !pages::check::check(words, count) {
        return false;
    }
    let pages = Pages { words, count };
    lists_fit(&lists, &pages)
}

// The pages of the arena with whose words the words begin.
pub fn pages(words: &[u32]) -> usize
    requires { is_state words.now ≡ true }
    ensures { result ≡ total (decode words.now).segments }
{
    let lists = Lists {
        words: &words[..HEADER_WORDS],
    };
    lists.pages() as usize
}

// Sets the words up for an arena of so many pages, all free, whatever they held.
pub fn set_up(words: &mut [u32], pages: u32)
    requires { (length words.old ≡ words_for pages) × (0 < pages) × (pages ≤ most_pages) }
    ensures { words.new ≡ encode (fresh_state pages) }
{
    header::set_up(&mut words[..HEADER_WORDS], pages);
    pages::cut::set_up(&mut words[HEADER_WORDS..], pages as usize);
}
