// Whether words are those of valid segments. (Any words may be lent: so numbers are read here, and no `Kind`.)
ghost use Rattle.std.specs.Prelude.{◌≡◌, ◌*◌, ◌<◌, ◌≤◌, length, take, leb, cond, ◌&&◌};
ghost use Rattle.zone.specs.Decoding.{is_zone};
ghost use Rattle.pages.specs.Legal.{size_at, legal_segments};
ghost use Rattle.model.specs.Numbers.{zone_pages, most_pages, page_words};
ghost use Rattle.zone.specs.Encoding.{zone_words};

use model::numbers::{PAGE_WORDS, ZONE_PAGES};
use zone::layout::{KIND_DIRECT, KIND_RUN, KIND_ZONE};

// So many pages where the test holds, else 0 (as `segment_size` counts).
fn pages_if(test: bool, len: usize) -> usize
    ensures { result ≡ cond test len 0 }
{
    if test {
        return len;
    }
    0
}

// The same for a zone.
fn zone_size(words: &[u32], left: usize) -> usize
    requires { (length words.now ≡ page_words * left) × (left ≤ most_pages) }
    ensures { result ≡ cond (leb zone_pages left && is_zone (take zone_words words.now)) zone_pages 0 }
{
    if left < ZONE_PAGES {
        return 0;
    }
    let e = PAGE_WORDS * ZONE_PAGES;
    pages_if(zone::check(&words[..e]), ZONE_PAGES)
}

// The pages of the valid segment, of at most `left` pages, with which the words begin, or 0. (A count: no segment has no pages, and
// `size_at` counts so too.)
fn segment_size(words: &[u32], left: usize) -> usize
    requires { (length words.now ≡ page_words * left) × (0 < left) × (left ≤ most_pages) }
    ensures { result ≡ size_at left words.now }
{
    let kind = words[0];
    if kind == KIND_ZONE {
        return zone_size(words, left);
    }
    let len = words[1] as usize;
    if len == 0 || left < len {
        return 0;
    }
    let e = PAGE_WORDS * len;
    if kind == KIND_RUN {
        return pages_if(scan::is_zero(&words[2..e]), len);
    }
    if kind != KIND_DIRECT {
        return 0;
    }
    if !model::group_ok(words[2]) {
        return 0;
    }
    pages_if(scan::is_zero(&words[3..e]), len)
}

// Whether the words are those of valid segments of n pages, no two runs of which touch. Each word is read once.
pub fn check(words: &[u32], n: usize) -> bool
    requires { (length words.now ≡ page_words * n) × (n ≤ most_pages) }
    ensures { result ≡ legal_segments n words.now }
{
    let mut p = 0;
    let mut after = false;
    // (A `while`: each turn goes on by the pages of a segment.)
    while p < n {
        let at = PAGE_WORDS * p;
        let len = segment_size(&words[at..], n - p);
        if len == 0 {
            return false;
        }
        let run = words[at] == KIND_RUN;
        if after && run {
            return false;
        }
        after = run;
        p += len;
    }
    true
}
