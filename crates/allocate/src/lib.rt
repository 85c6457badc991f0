// Allocation (document 01: a request), on all the words of a valid state, once its group, size and ceiling have been tested. Each function
// does one rule of the model's, out of the steps; the words that it leaves are those of the state that the rule makes.
#![tactic(auto)]

ghost use Rattle.std.specs.Prelude.{◌≡◌, ◌≤◌, ◌<◌, Ok, Some, None};
ghost use Rattle.model.specs.State.{list_of};
ghost use Rattle.model.specs.Calls.{size_ok, request_answer};
ghost use Rattle.model.specs.Sizes.{pages_for, room_for};
ghost use Rattle.model.specs.Pages.{claim};
ghost use Rattle.model.specs.Allocate.{sought, whole_pages, chunk_from, supplied};
ghost use Rattle.classes.specs.Table.{class_for};
ghost use Rattle.pages.specs.Places.{choice};
ghost use Rattle.header.specs.Front.{front_of};
ghost use Rattle.metadata.specs.Decoding.{decode};
ghost use Rattle.steps.specs.Lent.{Good};
ghost use Rattle.allocate.specs.Asked.{Asked};
ghost use Rattle.allocate.specs.Finds.{Finds};
ghost use Rattle.steps.specs.Outcomes.{Makes};
ghost use Rattle.model.specs.Numbers.{most_bytes};

use model::groups::Group;
use model::numbers::{LARGE_SIZE, MOST_BYTES, PAGE_BYTES, ZONE_PAGES};
use model::{Denial, Grant, Refusal};
use pages::Choice;

// ---- pages

// Finds a run of `need` pages, for a direct block or a zone: as the words are or, if there is none, as trim leaves them.
fn find_pages(words: &mut [u32], n: usize, need: usize) -> Choice
    requires { Good words.old n }
    ensures { Finds (decode words.old) (sought need (decode words.old)) result words.new }
{
    let choice = steps::find_run(words, n, need);
    if choice.run.is_some() {
        return choice;
    }
    find_again(words, n, need, choice.looked)
}

// The second search, after one that looked at so many runs and found none. It trims only where that gives one, so that nothing has
// changed where nothing is found.
fn find_again(words: &mut [u32], n: usize, need: usize, before: u32) -> Choice
    requires { Good words.old n × (choice (claim need (decode words.old).segments) ≡ record { run = None; looked = before }) }
    ensures { Finds (decode words.old) (sought need (decode words.old)) result words.new }
{
    let Choice { run, looked } = steps::find_trimmed(words, n, need);
    let both = before + looked;
    if run.is_some() {
        trim::trim_all(words, n);
    }
    Choice { run, looked: both }
}

// `need` whole pages for the group. (Denied as in `open_zone`: an error of two fields, written where both are known.)
fn supply_pages(words: &mut [u32], n: usize, group: Group, need: usize) -> Result<Grant, Denial>
    requires { Good words.old n × (0 < need) }
    ensures { Makes (whole_pages need group.number (decode words.old)) (request_answer result) words.new }
{
    let Choice { run, looked } = find_pages(words, n, need);
    let Some(free) = run else {
        return Err(Denial {
            refusal: Refusal::NoRoom,
            looked,
        });
    };
    steps::take_direct(words, n, free, need, group.number);
    Ok(Grant {
        offset: free.at as u32 * PAGE_BYTES,
        looked,
    })
}

// ---- chunks

// The zone that stands first on the class's list serves; once its last chunk goes, it leaves the list. No run was looked at.
fn serve(words: &mut [u32], n: usize, class: u32, page: u32, group: Group) -> Grant
    requires asked { Asked words.old n class }
    requires lists_told { front_of (list_of (decode words.old) class) ≡ Some page }
    ensures { Makes (chunk_from class group.number (decode words.old) (list_of (decode words.old) class)) (request_answer (Ok result)) words.new }
{
    let at = page as usize;
    let chunk = steps::zone_grant(words, at, group);
    let offset = page * PAGE_BYTES + chunk * zone::sizes::room(class);
    if steps::zone_full(words, at) {
        steps::list_without(words, class, page);
    }
    Grant { offset, looked: 0 }
}

// No zone of the class has a chunk left: the first of the empty list is set up anew. No run was looked at.
fn renew(words: &mut [u32], n: usize, class: u32, page: u32, group: Group) -> Grant
    requires asked { Asked words.old n class }
    requires lists_told { (front_of (list_of (decode words.old) class) ≡ None) × (front_of (decode words.old).spare ≡ Some page) }
    ensures { Makes (chunk_from class group.number (decode words.old) (list_of (decode words.old) class)) (request_answer (Ok result)) words.new }
{
    steps::spare_behind(words);
    steps::zone_renew(words, page as usize, class, group.number);
    steps::list_front(words, class, page);
    Grant {
        offset: page * PAGE_BYTES,
        looked: 0,
    }
}

// The empty list has no zone either: 8 pages are taken from the runs and set up.
fn open_zone(words: &mut [u32], n: usize, class: u32, group: Group) -> Result<Grant, Denial>
    requires asked { Asked words.old n class }
    requires lists_told { (front_of (list_of (decode words.old) class) ≡ None) × (front_of (decode words.old).spare ≡ None) }
    ensures { Makes (chunk_from class group.number (decode words.old) (list_of (decode words.old) class)) (request_answer result) words.new }
{
    let Choice { run, looked } = find_pages(words, n, ZONE_PAGES);
    let Some(free) = run else {
        return Err(Denial {
            refusal: Refusal::NoRoom,
            looked,
        });
    };
    steps::take_zone(words, n, free, class, group.number);
    let start = free.at as u32;
    steps::list_front(words, class, start);
    Ok(Grant {
        offset: start * PAGE_BYTES,
        looked,
    })
}

// A chunk of the class for the group.
fn supply_chunk(words: &mut [u32], n: usize, class: u32, group: Group) -> Result<Grant, Denial>
    requires { Asked words.old n class }
    ensures { Makes (chunk_from class group.number (decode words.old) (list_of (decode words.old) class)) (request_answer result) words.new }
{
    if let Some(page) = steps::list_first(words, class) {
        return Ok(serve(words, n, class, page, group));
    }
    if let Some(page) = steps::spare_first(words) {
        return Ok(renew(words, n, class, page, group));
    }
    open_zone(words, n, class, group)
}

// ---- the request

// The pages that a request of this size takes, where it takes pages.
fn pages_for(size: u32) -> u32
    requires { size ≤ most_bytes }
    ensures { result ≡ pages_for size }
{
    size.div_ceil(PAGE_BYTES)
}

// A request of `size` bytes by the group: a chunk below 8,192 bytes, whole pages from there. (The group, the size and the ceiling have
// been tested.) The class is that of its chunk, if it takes one: it is looked up once, by the caller, who needs it for the room too.
pub fn supply(
    words: &mut [u32],
    n: usize,
    group: Group,
    size: u32,
    class: u32,
) -> Result<Grant, Denial>
    requires good { Good words.old n }
    requires legal_request { (0 < size) × (size ≤ most_bytes) × (class ≡ class_for size) }
    ensures { Makes (supplied group.number size (decode words.old)) (request_answer result) words.new }
{
    if size < LARGE_SIZE {
        return supply_chunk(words, n, class, group);
    }
    supply_pages(words, n, group, pages_for(size) as usize)
}

// The bytes that a request of this size is given. The class is that of its chunk, if it takes one.
pub fn room_for(size: u32, class: u32) -> u32
    requires { (0 < size) × (size ≤ most_bytes) × (class ≡ class_for size) }
    ensures { result ≡ room_for size }
{
    if LARGE_SIZE <= size {
        return pages_for(size) * PAGE_BYTES;
    }
    zone::sizes::room(class)
}

// Whether the size may be asked for.
pub fn size_ok(size: u32) -> bool
    ensures { result ≡ size_ok size }
{
    1 <= size && size <= MOST_BYTES
}
