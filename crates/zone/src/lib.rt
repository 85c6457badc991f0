// The 4,160 words of one zone: their check, the steps inside a zone, and what is asked of it. Each function is lent the words of that
// zone and no others. Where words are read or stepped they have passed the check; `zone-iff` says what it accepts.
#![tactic(auto)]

ghost use Rattle.std.specs.Prelude.{true, false, ◌≡◌, ◌≤◌, ◌<◌, length, get_or};
ghost use Rattle.model.specs.Zone.{touched, full, new_zone, next_chunk, granted, put_back};
ghost use Rattle.model.specs.PageMap.{idle_zone};
ghost use Rattle.zone.specs.Encoding.{zone_words, slot_count, zone_encoding};
ghost use Rattle.zone.specs.Decoding.{touched_in, chained_in, head_legal, body_legal, is_zone, zone_of};
ghost use Rattle.zone.specs.Live.{live_chunks};

pub mod layout;
pub mod sizes;
mod slots;
mod stores;

use layout::*;
use model::groups::Group;
use model::numbers::CLASS_COUNT;

// Whether the head's numbers are those of a zone.
#[tactic(auto, unfolding(crate::specs::Decoding::head_legal))]
fn head_is_legal(part: &[u32]) -> bool
    ensures { result ≡ head_legal part.now }
{
    part.len() == WORDS
        && part[AT_KIND] == KIND_ZONE
        && part[AT_CLASS] < CLASS_COUNT
        && part[AT_TOUCHED] <= sizes::chunk_count(part[AT_CLASS])
        && part[AT_CHAINED] <= part[AT_TOUCHED]
}

// Whether the other words fit the head.
#[tactic(auto, unfolding(crate::specs::Decoding::body_legal))]
fn body_is_legal(part: &[u32]) -> bool
    requires { (length part.now ≡ zone_words) × (touched_in part.now ≤ slot_count) × (chained_in part.now ≤ touched_in part.now) }
    ensures { result ≡ body_legal part.now }
{
    let touched = part[AT_TOUCHED];
    let end = HEAD + touched as usize;
    scan::is_zero(&part[AT_REST..HEAD])
        && slots::are_legal(&part[HEAD..WORDS], touched, part[AT_CHAINED])
        && scan::is_zero(&part[end..])
}

// Whether the words are the encoding of a valid zone. Each word is read once, and those of the chain once more.
#[tactic(auto, unfolding(crate::specs::Decoding::is_zone))]
pub fn check(part: &[u32]) -> bool
    ensures { result ≡ is_zone part.now }
{
    head_is_legal(part) && body_is_legal(part)
}

// (Where words are written they are a lent slice with a `requires`: a `Part` that could be written would hold a `&mut`, as `steps` says.
// `set_up` takes any group above 0, as it was promised to: a `Group` would ask more.)

// Sets the words up as a zone of the class whose chunk 0 is granted to the group, whatever they held.
pub fn set_up(part: &mut [u32], class: u32, group: u32)
    requires { (length part.old ≡ zone_words) × (0 < group) }
    ensures { part.new ≡ zone_encoding (new_zone class group) }
{
    scan::clear(&mut part[AT_REST..]);
    part[AT_KIND] = KIND_ZONE;
    part[AT_CLASS] = class;
    part[AT_TOUCHED] = 1;
    part[AT_CHAINED] = 0;
    part[HEAD] = group;
}

// Grants a chunk to the group: the first untouched one, or where there is none the last one returned.
pub fn grant(part: &mut [u32], group: Group) -> u32
    requires { (is_zone part.old ≡ true) × (full (zone_of part.old) ≡ false) }
    ensures { (result ≡ next_chunk (zone_of part.old)) × (part.new ≡ zone_encoding (granted group.number (zone_of part.old))) }
{
    let touched = part[AT_TOUCHED];
    if sizes::has_chunk(part[AT_CLASS], touched) {
        stores::hand_out(part, touched, group.number);
        touched
    } else {
        stores::take_last(part, group.number)
    }
}

// Puts the chunk, which is live, at the front of the return chain.
pub fn put_back(part: &mut [u32], chunk: u32)
    requires { (is_zone part.old ≡ true) × (0 < get_or (zone_of part.old).owners chunk 0) }
    ensures { part.new ≡ zone_encoding (put_back chunk (zone_of part.old)) }
{
    stores::put_last(part, chunk);
}

// The words of a valid zone, lent for reading: whoever makes one shows that the words have passed the check.
#[derive(Clone, Copy)]
pub struct Part<'a> {
    pub words: &'a [u32],
    pub ghost valid: { is_zone words.now ≡ true },
}

impl Part<'_> {
    // The chunk's group, 0 where it is not live or there is none of that number: so has the rules' list of owners, which the clause cites.
    pub fn owner(self, chunk: u32) -> u32
        ensures { result ≡ get_or (zone_of self.entry.words.now).owners chunk 0 }
    {
        let slot = self.words.get(HEAD + chunk as usize).copied().unwrap_or(0);
        let state = slot % HALF;
        if state < POSITION_BASE { state } else { 0 }
    }

    // The zone's class.
    pub fn class(self) -> u32
        ensures { result ≡ (zone_of self.entry.words.now).class }
    {
        self.words[AT_CLASS]
    }

    // The chunks handed out since set-up.
    pub fn touched(self) -> u32
        ensures { result ≡ touched (zone_of self.entry.words.now) }
    {
        self.words[AT_TOUCHED]
    }

    // The live chunks: those handed out that are not on the chain.
    pub fn live_count(self) -> u32
        ensures { result ≡ live_chunks (zone_of self.entry.words.now) }
    {
        self.touched() - self.words[AT_CHAINED]
    }

    // Whether no chunk is live.
    pub fn is_idle(self) -> bool
        ensures { result ≡ idle_zone (zone_of self.entry.words.now) }
    {
        self.live_count() == 0
    }

    // Whether every chunk is live: none is untouched, and none was returned.
    pub fn is_full(self) -> bool
        ensures { result ≡ full (zone_of self.entry.words.now) }
    {
        !sizes::has_chunk(self.class(), self.touched()) && self.words[AT_CHAINED] == 0
    }
}
