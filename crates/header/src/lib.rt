// The header, the first 1,024 metadata words: the number of pages, the empty list and the class lists. Each function is lent
// these words and no others. Where words are read (`Lists`) or stepped they are a header (`Header`), which is what the check accepts
// (`check-header`, `header-iff`), and what each step leaves (the `fits-` laws).
#![tactic(auto, using(crate::proofs::Steps::header_length))]

ghost use Rattle.std.specs.Prelude.{◌≡◌, [], ◌∷◌, ◌≤◌, ◌<◌, length, get_or, set, drop, replicate};
ghost use Rattle.lemmas.specs.Times.{remove};
ghost use Rattle.header.specs.Keys.{key, keys_of};
ghost use Rattle.header.specs.Encoding.{spare_slots, list_slots, header_encoding, pages_in, spare_in, lists_in, Header, is_header};
ghost use Rattle.header.specs.Front.{front_of, stands};
ghost use Rattle.model.specs.Numbers.{class_count, most_pages, header_words};

mod layout;
mod slots;

use layout::{AT_LISTS, AT_MAGIC, AT_PAGES, AT_REST, AT_SPARE, KEY_LIMIT, MAGIC};
use model::numbers::{HEADER_WORDS, MOST_PAGES};

// The words of a header, lent for reading.
#[derive(Clone, Copy)]
pub struct Lists<'a> {
    pub words: &'a [u32],
    ghost legal: { Header words.now },
}

// ---- the whole header

// Whether the words are a header. Each is read once.
pub fn check(words: &[u32]) -> bool
    ensures { result ≡ is_header words.now }
{
    if words.len() != HEADER_WORDS || words[AT_MAGIC] != MAGIC {
        return false;
    }
    let pages = words[AT_PAGES];
    if pages == 0 || MOST_PAGES < pages {
        return false;
    }
    slots::are_legal(&words[AT_SPARE..AT_LISTS], MOST_PAGES)
        && slots::are_legal(&words[AT_LISTS..AT_REST], KEY_LIMIT)
        && scan::is_zero(&words[AT_REST..HEADER_WORDS])
}

// Sets the words up as the header of n pages with empty lists, whatever they held.
pub fn set_up(words: &mut [u32], n: u32)
    requires { length words.old ≡ header_words }
    ensures { words.new ≡ header_encoding n [] (replicate class_count []) }
{
    scan::clear(&mut words[AT_SPARE..HEADER_WORDS]);
    words[AT_MAGIC] = MAGIC;
    words[AT_PAGES] = n;
}

// ---- reading

// (What is read of the class lists and of the empty list is told by twins of two lines: one for both would be given the words' range and the
// keys', and could promise only a count.)

impl Lists<'_> {
    // The arena's pages.
    pub fn pages(&self) -> u32
        ensures { result ≡ pages_in self.now.words.now }
    {
        self.words[AT_PAGES]
    }

    // The front of the class's list. Its keys begin behind those of the lower classes; behind the last slot stands a zero.
    pub fn first(&self, class: u32) -> Option<u32>
        requires { class < class_count }
        ensures { result ≡ front_of (get_or (lists_in self.now.words.now) class []) }
    {
        let low = key(class, 0);
        let at = slots::count_between(&self.words[AT_LISTS..AT_REST], 0, low);
        self.words[AT_LISTS + at]
            .checked_sub(low + 1)
            .filter(|&page| page < MOST_PAGES)
    }

    // How many zones the class's list has.
    pub fn count(&self, class: u32) -> u32
        requires { class < class_count }
        ensures { result ≡ length (get_or (lists_in self.now.words.now) class []) }
    {
        let keys = &self.words[AT_LISTS..AT_REST];
        slots::count_between(keys, key(class, 0), key(class, MOST_PAGES)) as u32
    }

    // Whether the zone that starts at the page stands on the class's list.
    pub fn contains(&self, class: u32, page: u32) -> bool
        requires { (class < class_count) × (page < most_pages) }
        ensures { result ≡ stands page (get_or (lists_in self.now.words.now) class []) }
    {
        let low = key(class, page);
        0 < slots::count_between(&self.words[AT_LISTS..AT_REST], low, low + 1)
    }

    // How many zones all class lists have.
    pub fn listed(&self) -> u32
        ensures { result ≡ length (keys_of (lists_in self.now.words.now)) }
    {
        slots::count_between(&self.words[AT_LISTS..AT_REST], 0, KEY_LIMIT) as u32
    }

    // The front of the empty list.
    pub fn spare_first(&self) -> Option<u32>
        ensures { result ≡ front_of (spare_in self.now.words.now) }
    {
        self.words[AT_SPARE].checked_sub(1)
    }

    // How many zones the empty list has.
    pub fn spare_count(&self) -> u32
        ensures { result ≡ length (spare_in self.now.words.now) }
    {
        slots::count_between(&self.words[AT_SPARE..AT_LISTS], 0, MOST_PAGES) as u32
    }

    // Whether the zone that starts at the page stands on the empty list.
    pub fn spare_contains(&self, page: u32) -> bool
        requires { page < most_pages }
        ensures { result ≡ stands page (spare_in self.now.words.now) }
    {
        0 < slots::count_between(&self.words[AT_SPARE..AT_LISTS], page, page + 1)
    }
}

// ---- the class lists

// (Where words are written `Header` stays a `requires`: a view that carries it would be built for one call, and owe it again at the call's end.)

// The key of a page and a class. At page 0 it is the class's lowest, at 256 the next class's. (Page and class are numbers that keys are made
// of; types for them would be opened at every use.)
fn key(class: u32, page: u32) -> u32
    requires { (class < class_count) × (page ≤ most_pages) }
    ensures { result ≡ key class page }
{
    MOST_PAGES * class + page
}

// Puts the page at the front of the class's list. There is room for one more.
pub fn push(words: &mut [u32], class: u32, page: u32)
    requires { Header words.old × (class < class_count) × (page < most_pages) × (length (keys_of (lists_in words.old)) < list_slots) }
    ensures { words.new ≡ header_encoding (pages_in words.old) (spare_in words.old) (set (lists_in words.old) class (page ∷ get_or (lists_in words.old) class [])) }
{
    let at = slots::count_between(&words[AT_LISTS..AT_REST], 0, key(class, 0));
    slots::shift_in(&mut words[AT_LISTS..AT_REST], at, key(class, page) + 1);
}

// Takes the page off the class's list, if it stands there.
pub fn remove(words: &mut [u32], class: u32, page: u32)
    requires { Header words.old × (class < class_count) × (page < most_pages) }
    ensures { words.new ≡ header_encoding (pages_in words.old) (spare_in words.old) (set (lists_in words.old) class (remove page (get_or (lists_in words.old) class []))) }
{
    slots::take_out(&mut words[AT_LISTS..AT_REST], key(class, page) + 1);
}

// ---- the empty list

// Puts the page at the front of the empty list. There is room for one more.
pub fn spare_push(words: &mut [u32], page: u32)
    requires { Header words.old × (page < most_pages) × (length (spare_in words.old) < spare_slots) }
    ensures { words.new ≡ header_encoding (pages_in words.old) (page ∷ spare_in words.old) (lists_in words.old) }
{
    slots::shift_in(&mut words[AT_SPARE..AT_LISTS], 0, page + 1);
}

// Takes the front off the empty list.
pub fn spare_pop(words: &mut [u32])
    requires { Header words.old }
    ensures { words.new ≡ header_encoding (pages_in words.old) (drop 1 (spare_in words.old)) (lists_in words.old) }
{
    words[AT_SPARE] = words[AT_SPARE + 1];
    words[AT_SPARE + 1] = 0;
}

// Takes everything off the empty list.
pub fn spare_clear(words: &mut [u32])
    requires { Header words.old }
    ensures { words.new ≡ header_encoding (pages_in words.old) [] (lists_in words.old) }
{
    scan::clear(&mut words[AT_SPARE..AT_LISTS]);
}
