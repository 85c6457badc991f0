// The steps of which calls are made. Each is lent all the words of a state and no others (`Lent`) and passes on the part that it reads or
// changes; one that changes words leaves those of the state that it makes. The state need not be valid between two steps.
// Where words are cut at the header's end, `header_fits` tells the search that there are as many.
// (Words and n, the number of their pages, stay two parameters, and `Lent` a `requires`: a value of both would hold a `&mut`, so each contract
// would say besides that the same words are in it, `self.new.words.ghost_name ≡ self.old.words.ghost_name`. Reads are
// called between writes, and take what these take. The crates of the calls do as this one. Each step is named here, a line or two long, so that
// they cut no words: one for several would be lent the method, and promise less. `ZoneHere` is a fact of words and page, like `Stands`.)
#![tactic(auto)]

ghost use Rattle.std.specs.Prelude.{◌≡◌, false, [], ◌∷◌, ℕ, ◌+◌, ◌≤◌, ◌<◌, length, get_or, drop};
ghost use Rattle.model.specs.Arena.{Segment, run, direct, zone, pages, total};
ghost use Rattle.model.specs.Zone.{Zone, touched, full, new_zone, next_chunk, granted, put_back};
ghost use Rattle.model.specs.Pages.{claim};
ghost use Rattle.model.specs.Trim.{trimmed};
ghost use Rattle.model.specs.State.{list_of, zone_at};
ghost use Rattle.model.specs.PageMap.{idle_zone};
ghost use Rattle.model.specs.Valid.{Apart};
ghost use Rattle.header.specs.Keys.{keys_of};
ghost use Rattle.header.specs.Encoding.{spare_slots, list_slots, lists_in, spare_in};
ghost use Rattle.header.specs.Front.{front_of};
ghost use Rattle.model.specs.Perform.{words_for};
ghost use Rattle.zone.specs.Encoding.{zone_words};
ghost use Rattle.zone.specs.Decoding.{zone_of};
ghost use Rattle.pages.specs.Decoding.{segments_of};
ghost use Rattle.pages.specs.Places.{kind_in, choice, run_pages, Stands, spot_from};
ghost use Rattle.metadata.specs.Encoding.{encode};
ghost use Rattle.metadata.specs.Decoding.{decode};
ghost use Rattle.steps.specs.Lent.{Lent, ZoneHere};
ghost use Rattle.steps.specs.Moves.{fronted, unlisted, spared, rezoned, carved, released};
ghost use Rattle.model.specs.Numbers.{zone_pages, class_count, most_pages};

use header::Lists;
use model::groups::Group;
use model::numbers::HEADER_WORDS;
use pages::find::Pages;
use pages::{Choice, Kind, Run, Spot, Start};
use zone::Part;
use zone::layout::WORDS as ZONE_WORDS;

// ---- parts that are read

// The words of the header.
#[tactic(auto, using(crate::proofs::Body::header_fits))]
fn lists(words: &[u32]) -> Lists
    requires { Lent words.now }
    ensures { (lists_in result.words.now ≡ (decode words.now).lists) × (spare_in result.words.now ≡ (decode words.now).spare) }
{
    Lists {
        words: &words[..HEADER_WORDS],
    }
}

// The words of the pages.
#[tactic(auto, using(crate::proofs::Body::header_fits))]
fn all_pages(words: &[u32], n: usize) -> Pages
    requires { Lent words.now × (n ≡ total (decode words.now).segments) }
    ensures { segments_of result.words.now ≡ (decode words.now).segments }
{
    Pages {
        words: &words[HEADER_WORDS..],
        count: n,
    }
}

// The first word of the zone that begins at the page.
fn zone_start(words: &[u32], page: usize) -> usize
    requires { Lent words.now × ZoneHere (decode words.now) page }
    ensures { (result ≡ words_for page) × (result + zone_words ≤ length words.now) × (length words.now ≤ words_for most_pages) }
{
    metadata::words_for(page)
}

// The words of the zone that begins at the page.
fn zone_part(words: &[u32], page: usize) -> Part
    requires { Lent words.now × ZoneHere (decode words.now) page }
    ensures { zone_of result.words.now ≡ zone_at page (decode words.now).segments }
{
    let a = zone_start(words, page);
    Part {
        words: &words[a..a + ZONE_WORDS],
    }
}

// ---- the lists

// The front of the class's list.
pub fn list_first(words: &[u32], class: u32) -> Option<u32>
    requires { Lent words.now × (class < class_count) }
    ensures { result ≡ front_of (list_of (decode words.now) class) }
{
    lists(words).first(class)
}

// How many zones the class's list has.
pub fn list_count(words: &[u32], class: u32) -> u32
    requires { Lent words.now × (class < class_count) }
    ensures { result ≡ length (list_of (decode words.now) class) }
{
    lists(words).count(class)
}

// The page goes to the front of the class's list, which has room for one more.
#[tactic(auto, using(crate::proofs::Body::header_fits))]
pub fn list_front(words: &mut [u32], class: u32, page: u32)
    requires lent { Lent words.old }
    requires in_range { (class < class_count) × (page < most_pages) × (length (keys_of (decode words.old).lists) < list_slots) }
    ensures { words.new ≡ encode (fronted class page (decode words.old)) }
{
    header::push(&mut words[..HEADER_WORDS], class, page);
}

// The page leaves the class's list.
#[tactic(auto, using(crate::proofs::Body::header_fits))]
pub fn list_without(words: &mut [u32], class: u32, page: u32)
    requires lent { Lent words.old }
    requires in_range { (class < class_count) × (page < most_pages) }
    ensures { words.new ≡ encode (unlisted class page (decode words.old)) }
{
    header::remove(&mut words[..HEADER_WORDS], class, page);
}

// The front of the empty list.
pub fn spare_first(words: &[u32]) -> Option<u32>
    requires { Lent words.now }
    ensures { result ≡ front_of (decode words.now).spare }
{
    lists(words).spare_first()
}

// How many zones the empty list has.
pub fn spare_count(words: &[u32]) -> u32
    requires { Lent words.now }
    ensures { result ≡ length (decode words.now).spare }
{
    lists(words).spare_count()
}

// The page goes to the front of the empty list, which has room for one more.
#[tactic(auto, using(crate::proofs::Body::header_fits))]
pub fn spare_front(words: &mut [u32], page: u32)
    requires lent { Lent words.old }
    requires in_range { (page < most_pages) × (length (decode words.old).spare < spare_slots) }
    ensures { words.new ≡ encode (spared (page ∷ (decode words.old).spare) (decode words.old)) }
{
    header::spare_push(&mut words[..HEADER_WORDS], page);
}

// The front page leaves the empty list.
#[tactic(auto, using(crate::proofs::Body::header_fits))]
pub fn spare_behind(words: &mut [u32])
    requires { Lent words.old }
    ensures { words.new ≡ encode (spared (drop 1 (decode words.old).spare) (decode words.old)) }
{
    header::spare_pop(&mut words[..HEADER_WORDS]);
}

// All pages leave the empty list.
#[tactic(auto, using(crate::proofs::Body::header_fits))]
pub fn spare_none(words: &mut [u32])
    requires { Lent words.old }
    ensures { words.new ≡ encode (spared [] (decode words.old)) }
{
    header::spare_clear(&mut words[..HEADER_WORDS]);
}

// ---- one zone

// The zone's class.
pub fn zone_class(words: &[u32], page: usize) -> u32
    requires { Lent words.now × ZoneHere (decode words.now) page }
    ensures { result ≡ (zone_at page (decode words.now).segments).class }
{
    zone_part(words, page).class()
}

// The chunks that it has handed out since set-up.
pub fn zone_touched(words: &[u32], page: usize) -> u32
    requires { Lent words.now × ZoneHere (decode words.now) page }
    ensures { result ≡ touched (zone_at page (decode words.now).segments) }
{
    zone_part(words, page).touched()
}

// A chunk's group, 0 where it is not live (as `Part` has it).
pub fn zone_owner(words: &[u32], page: usize, chunk: u32) -> u32
    requires { Lent words.now × ZoneHere (decode words.now) page }
    ensures { result ≡ get_or (zone_at page (decode words.now).segments).owners chunk 0 }
{
    zone_part(words, page).owner(chunk)
}

// Whether no chunk is live.
pub fn zone_idle(words: &[u32], page: usize) -> bool
    requires { Lent words.now × ZoneHere (decode words.now) page }
    ensures { result ≡ idle_zone (zone_at page (decode words.now).segments) }
{
    zone_part(words, page).is_idle()
}

// Whether every chunk is live.
pub fn zone_full(words: &[u32], page: usize) -> bool
    requires { Lent words.now × ZoneHere (decode words.now) page }
    ensures { result ≡ full (zone_at page (decode words.now).segments) }
{
    zone_part(words, page).is_full()
}

// It grants a chunk to the group.
pub fn zone_grant(words: &mut [u32], page: usize, group: Group) -> u32
    requires { Lent words.old × ZoneHere (decode words.old) page × (full (zone_at page (decode words.old).segments) ≡ false) }
    ensures { (result ≡ next_chunk (zone_at page (decode words.old).segments)) × (words.new ≡ encode (rezoned page (granted group.number (zone_at page (decode words.old).segments)) (decode words.old))) }
{
    let a = zone_start(words, page);
    zone::grant(&mut words[a..a + ZONE_WORDS], group)
}

// A live chunk comes back to it.
pub fn zone_put_back(words: &mut [u32], page: usize, chunk: u32)
    requires { Lent words.old × ZoneHere (decode words.old) page × (0 < get_or (zone_at page (decode words.old).segments).owners chunk 0) }
    ensures { words.new ≡ encode (rezoned page (put_back chunk (zone_at page (decode words.old).segments)) (decode words.old)) }
{
    let a = zone_start(words, page);
    zone::put_back(&mut words[a..a + ZONE_WORDS], chunk);
}

// It is set up anew for the class, with chunk 0 granted to the group.
pub fn zone_renew(words: &mut [u32], page: usize, class: u32, group: u32)
    requires { Lent words.old × ZoneHere (decode words.old) page × (0 < group) }
    ensures { words.new ≡ encode (rezoned page (new_zone class group) (decode words.old)) }
{
    let a = zone_start(words, page);
    zone::set_up(&mut words[a..a + ZONE_WORDS], class, group);
}

// ---- segments, pages out and in

// The kind of the segment that begins at page p.
pub fn kind_at(words: &[u32], p: usize) -> Kind
    requires lent { Lent words.now }
    requires placed { (b : ℕ) × (x : Segment Zone) × Stands (decode words.now).segments p b x }
    ensures { (b : ℕ) (x : Segment Zone) → Stands (decode words.now).segments p b x → result ≡ kind_in x }
{
    let at = metadata::words_for(p);
    Kind::told_by(words[at])
}

// The pages of the segment that begins at page p.
pub fn size_at(words: &[u32], n: usize, p: usize) -> usize
    requires lent { Lent words.now × (n ≡ total (decode words.now).segments) }
    requires placed { (b : ℕ) × (x : Segment Zone) × Stands (decode words.now).segments p b x }
    ensures { (b : ℕ) (x : Segment Zone) → Stands (decode words.now).segments p b x → result ≡ pages x }
{
    all_pages(words, n).size(p)
}

// Its pages if it is a run, else 0 (as in `Start`).
pub fn run_at(words: &[u32], n: usize, p: usize) -> usize
    requires lent { Lent words.now × (n ≡ total (decode words.now).segments) }
    requires placed { (b : ℕ) × (x : Segment Zone) × Stands (decode words.now).segments p b x }
    ensures { (b : ℕ) (x : Segment Zone) → Stands (decode words.now).segments p b x → result ≡ run_pages x }
{
    kind_at(words, p).run_len(size_at(words, n, p))
}

// The group of the direct block that begins at page p.
pub fn group_at(words: &[u32], n: usize, p: usize) -> u32
    requires lent { Lent words.now × (n ≡ total (decode words.now).segments) }
    requires placed { (b k g : ℕ) × Stands (decode words.now).segments p b (direct k g) }
    ensures { (b k g : ℕ) → Stands (decode words.now).segments p b (direct k g) → result ≡ g }
{
    all_pages(words, n).group(p)
}

// The segment that holds the page.
pub fn find_segment(words: &[u32], n: usize, page: usize) -> Option<Spot>
    requires { Lent words.now × (n ≡ total (decode words.now).segments) }
    ensures { result ≡ spot_from page 0 0 (decode words.now).segments }
{
    all_pages(words, n).find_segment(page)
}

// The first free run, in ascending order, that has `need` pages, and how many runs were looked at.
pub fn find_run(words: &[u32], n: usize, need: usize) -> Choice
    requires { Lent words.now × (n ≡ total (decode words.now).segments) }
    ensures { result ≡ choice (claim need (decode words.now).segments) }
{
    all_pages(words, n).find_run(need)
}

// The same among the runs that trim would leave. Nothing is written.
pub fn find_trimmed(words: &[u32], n: usize, need: usize) -> Choice
    requires { Lent words.now × (n ≡ total (decode words.now).segments) }
    ensures { result ≡ choice (claim need (trimmed (decode words.now)).segments) }
{
    all_pages(words, n).find_trimmed(need)
}

// The free run gives its low `need` pages to a direct block of the group.
#[tactic(auto, using(crate::proofs::Body::header_fits))]
pub fn take_direct(words: &mut [u32], n: usize, free: Run, need: usize, group: u32)
    requires lent { Lent words.old × (n ≡ total (decode words.old).segments) }
    requires placed { (b : ℕ) × Stands (decode words.old).segments free.at b (run free.len) × (0 < need) × (need ≤ free.len) }
    ensures { words.new ≡ encode (carved (record { page = free.at; size = free.len }) need (direct need group) (decode words.old)) }
{
    pages::cut::take_direct(&mut words[HEADER_WORDS..], n, free, need, group);
}

// It gives its low 8 pages to a zone, set up for the class with chunk 0 granted to the group.
#[tactic(auto, using(crate::proofs::Body::header_fits))]
pub fn take_zone(words: &mut [u32], n: usize, free: Run, class: u32, group: u32)
    requires lent { Lent words.old × (n ≡ total (decode words.old).segments) }
    requires placed { (b : ℕ) × Stands (decode words.old).segments free.at b (run free.len) × (zone_pages ≤ free.len) × (0 < group) }
    ensures { words.new ≡ encode (carved (record { page = free.at; size = free.len }) zone_pages (zone (new_zone class group)) (decode words.old)) }
{
    pages::cut::take_zone(&mut words[HEADER_WORDS..], n, free, class, group);
}

// The pages of the segment that begins at `start`, which is no run, come back.
#[tactic(auto, using(crate::proofs::Body::header_fits))]
pub fn give_back(words: &mut [u32], n: usize, start: Start, len: usize)
    requires lent { Lent words.old × (n ≡ total (decode words.old).segments) }
    requires apart { Apart false (decode words.old).segments }
    requires stands { (x : Segment Zone) × Stands (decode words.old).segments start.at start.before x × (pages x ≡ len) × (run_pages x ≡ 0) }
    ensures { words.new ≡ encode (released start.at (decode words.old)) }
{
    pages::join::give_back(&mut words[HEADER_WORDS..], n, start, len);
}
