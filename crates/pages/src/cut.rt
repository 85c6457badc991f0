// Pages out: the words of a run become those of a direct block or a zone, and of the rest of the run.
ghost use Rattle.std.specs.Prelude.{◌≡◌, [], ◌∷◌, ℕ, ◌-◌, ◌*◌, ◌<◌, ◌≤◌, length};
ghost use Rattle.model.specs.Arena.{run, direct, zone};
ghost use Rattle.model.specs.Zone.{new_zone};
ghost use Rattle.model.specs.Pages.{with_run, carve};
ghost use Rattle.pages.specs.Encoding.{segment_encoding, segments_encoding};
ghost use Rattle.pages.specs.Decoding.{segments_of, Holds};
ghost use Rattle.lemmas.specs.Zeros.{zeros};
ghost use Rattle.pages.specs.Places.{Stands, Blank};
ghost use Rattle.model.specs.Numbers.{zone_pages, most_pages, page_words};

use crate::Run;
use model::numbers::{PAGE_WORDS, ZONE_PAGES};
use zone::layout::{KIND_DIRECT, KIND_RUN};

// Words of n pages that are zero behind the first two become those of a run.
pub fn put_run(part: &mut [u32], n: usize)
    requires { Blank part.old 2 n }
    ensures { part.new ≡ segment_encoding (run n) }
{
    part[0] = KIND_RUN;
    part[1] = n as u32;
}

// Words of n pages that are zero behind the first three become those of a direct block.
fn put_direct(part: &mut [u32], n: usize, group: u32)
    requires { Blank part.old 3 n }
    ensures { part.new ≡ segment_encoding (direct n group) }
{
    part[0] = KIND_DIRECT;
    part[1] = n as u32;
    part[2] = group;
}

// What is left of a run: no words, or zero words that become those of a run (no pages are no run).
fn put_rest(part: &mut [u32], n: usize)
    requires { (part.old ≡ zeros (page_words * n)) × (n ≤ most_pages) }
    ensures { part.new ≡ segments_encoding (with_run n []) }
{
    if n == 0 {
        return;
    }
    put_run(part, n);
}

// Sets the words of n pages up as one free run, whatever they held.
pub fn set_up(words: &mut [u32], n: usize)
    requires { (length words.old ≡ page_words * n) × (0 < n) × (n ≤ most_pages) }
    ensures { words.new ≡ segments_encoding (run n ∷ []) }
{
    scan::clear(words);
    put_run(words, n);
}

// The words of a run become those of a direct block in its low pages and of the rest.
fn cut_direct(part: &mut [u32], len: usize, need: usize, group: u32)
    requires { (part.old ≡ segment_encoding (run len)) × (0 < need) × (need ≤ len) × (len ≤ most_pages) }
    ensures { part.new ≡ segments_encoding (direct need group ∷ with_run (len - need) []) }
{
    let m = PAGE_WORDS * need;
    put_direct(&mut part[..m], need, group);
    put_rest(&mut part[m..], len - need);
}

// The words of a run become those of a zone set up in its low pages, its chunk 0 granted to the group, and of the rest.
fn cut_zone(part: &mut [u32], len: usize, class: u32, group: u32)
    requires { (part.old ≡ segment_encoding (run len)) × (zone_pages ≤ len) × (len ≤ most_pages) × (0 < group) }
    ensures { part.new ≡ segments_encoding (zone (new_zone class group) ∷ with_run (len - zone_pages) []) }
{
    let m = PAGE_WORDS * ZONE_PAGES;
    zone::set_up(&mut part[..m], class, group);
    put_rest(&mut part[m..], len - ZONE_PAGES);
}

// The free run gives its low `need` pages to a direct block of the group.
pub fn take_direct(words: &mut [u32], n: usize, free: Run, need: usize, group: u32)
    requires holds { Holds words.old n }
    requires placed { (b : ℕ) × Stands (segments_of words.old) free.at b (run free.len) × (0 < need) × (need ≤ free.len) }
    ensures { words.new ≡ segments_encoding (carve (record { page = free.at; size = free.len }) need (direct need group) (segments_of words.old)) }
{
    let a = PAGE_WORDS * free.at;
    let e = a + PAGE_WORDS * free.len;
    cut_direct(&mut words[a..e], free.len, need, group);
}

// The free run gives its low 8 pages to a zone, set up for the class with its chunk 0 granted to the group. (A closure in place of this twin
// of `take_direct`, and of `cut_zone`, would need a contract longer than the three lines that they share. The group is any above 0, as it was.)
pub fn take_zone(words: &mut [u32], n: usize, free: Run, class: u32, group: u32)
    requires holds { Holds words.old n }
    requires placed { (b : ℕ) × Stands (segments_of words.old) free.at b (run free.len) × (zone_pages ≤ free.len) × (0 < group) }
    ensures { words.new ≡ segments_encoding (carve (record { page = free.at; size = free.len }) zone_pages (zone (new_zone class group)) (segments_of words.old)) }
{
    let a = PAGE_WORDS * free.at;
    let e = a + PAGE_WORDS * free.len;
    cut_zone(&mut words[a..e], free.len, class, group);
}
