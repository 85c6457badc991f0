// What each of the twelve groups holds, added up from the words of an arena's pages: its live blocks and its held bytes.
#![tactic(auto)]

ghost use Rattle.std.specs.Prelude.{cond, [], ◌++◌, map, ◌≡◌, ℕ, ◌*◌, ◌≤◌, ◌<◌, eqb, length, drop};
ghost use Rattle.lemmas.specs.Times.{times};
ghost use Rattle.model.specs.Numbers.{zone_bytes, large_size, most_group};
ghost use Rattle.model.specs.Sizes.{room};
ghost use Rattle.model.specs.Arena.{Segment};
ghost use Rattle.model.specs.Zone.{Zone};
ghost use Rattle.model.specs.PageMap.{shown};
ghost use Rattle.zone.specs.Decoding.{state_in, owner_in, zone_of};
ghost use Rattle.pages.specs.Decoding.{segments_of};
ghost use Rattle.pages.specs.Places.{Stands};
ghost use Rattle.tally.specs.Figures.{stretch, piece, owner_byte, slot_byte, arenas, Tallied, Added, Adds, Within};

use model::numbers::{GROUPS, MOST_GROUP, PAGE_BYTES};
use pages::Kind;
use pages::find::Pages;
use zone::Part;
use zone::layout::{HALF, HEAD, POSITION_BASE};

// The slots whose groups are counted at once: fewer than a byte counts, and whole vectors of bytes.
const STRETCH: usize = 192;

// The slots that become bytes at once: whole vectors of bytes, and few, since their states take stack.
const PIECE: usize = 32;

// Stands for no group: a state from here on is a returned chunk's. (A byte and no `Option`, as the definition `owner_byte` has it.)
const NOBODY: u16 = POSITION_BASE as u16;

// The states in slots, as the first of those lent. A loop of its own: one that makes bytes of words runs in shorter vectors.
fn take_states(slots: &[u32], states: &mut [u16])
    requires { length slots.now ≤ length states.old }
    ensures { states.new ≡ map state_in slots.now ++ drop (length slots.now) states.old }
{
    for (i, slot) in slots.iter().enumerate() {
        states[i] = (*slot % HALF) as u16;
    }
}

// The byte of a state: its group, or NOBODY. The lesser of the two is quick in vectors, a group or 0 is not.
fn owner_byte(state: u16) -> u8
    ensures { result ≡ owner_byte state }
{
    state.min(NOBODY) as u8
}

// The bytes of states, as the first of those lent. (By `zip` they take 8.6 ns where this takes 6.0.)
fn narrow(states: &[u16], bytes: &mut [u8])
    requires { length states.now ≤ length bytes.old }
    ensures { bytes.new ≡ map owner_byte states.now ++ drop (length states.now) bytes.old }
{
    for (i, state) in states.iter().enumerate() {
        bytes[i] = owner_byte(*state);
    }
}

// The bytes of slots, as all of those lent: of a piece at most.
fn squeeze_piece(slots: &[u32], bytes: &mut [u8])
    requires { (length slots.now ≡ length bytes.old) × (length slots.now ≤ piece) }
    ensures { bytes.new ≡ map slot_byte slots.now }
{
    let mut states = [0u16; PIECE];
    take_states(slots, &mut states);
    narrow(&states[0..slots.len()], bytes);
}

// The bytes of slots, as the first of those lent, piece by piece.
fn squeeze(slots: &[u32], bytes: &mut [u8])
    requires { length slots.now ≤ length bytes.old }
    ensures { bytes.new ≡ map slot_byte slots.now ++ drop (length slots.now) bytes.old }
{
    let (pieces, rest) = slots.as_chunks::<PIECE>();
    for (i, piece) in pieces.iter().enumerate() {
        squeeze_piece(piece, &mut bytes[i * PIECE..(i + 1) * PIECE]);
    }
    squeeze_piece(rest, &mut bytes[pieces.len() * PIECE..slots.len()]);
}

// How many bytes are the group. All of them are read, and counted in a byte: so the loop runs in vectors, and is fourteen times as fast
// as `filter` and `count`.
fn count_byte(bytes: &[u8], group: u8) -> u8
    requires { length bytes.now ≤ stretch }
    ensures { (result ≡ times group bytes.now) × (result ≤ stretch) }
{
    let mut count: u8 = 0;
    for byte in bytes {
        if *byte == group {
            count += 1;
        }
    }
    count
}

// (`Within` stays a `requires` here and below: the bound is another one at each level, from 1 arena to 4. The group is a number read off words.)

// Adds so many blocks of the group, each of so many bytes.
fn add_blocks(group: u32, count: u32, room: u32, figures: &mut [u32])
    requires { (0 < group) × (group ≤ most_group) × (count ≤ stretch) × (count * room ≤ arenas 2) × Within 4 figures.old }
    ensures { Added (λ g. cond (eqb group g) count 0) room figures.old figures.new }
{
    let at = group as usize - 1;
    figures[at] += count;
    figures[GROUPS + at] += count * room;
}

// Adds the chunks in a stretch of slots, each of so many bytes.
fn add_stretch(slots: &[u32], room: u32, figures: &mut [u32])
    requires { (length slots.now ≤ stretch) × (room ≤ large_size) × Within 2 figures.old }
    ensures { Added (λ g. times g (map owner_in slots.now)) room figures.old figures.new }
{
    let mut bytes = [0u8; STRETCH];
    squeeze(slots, &mut bytes);
    for group in 1..=MOST_GROUP {
        let count = u32::from(count_byte(&bytes, group as u8));
        add_blocks(group, count, room, figures);
    }
}

// Adds the chunks in slots, stretch by stretch. Whole stretches are arrays, whose length the compiler knows: by `chunks` a full zone takes
// a tenth longer.
fn add_slots(slots: &[u32], room: u32, figures: &mut [u32])
    requires { (length slots.now * room ≤ zone_bytes) × (room ≤ large_size) × (0 < room) × Within 1 figures.old }
    ensures { Added (λ g. times g (map owner_in slots.now)) room figures.old figures.new }
{
    let (stretches, rest) = slots.as_chunks::<STRETCH>();
    for stretch in stretches {
        add_stretch(stretch, room, figures);
    }
    add_stretch(rest, room, figures);
}

// Adds the live chunks of a zone. Where there is none no slot is read; those behind the ones handed out are nobody's, and never read.
fn add_zone(part: &Part, figures: &mut [u32])
    requires { Within 1 figures.old }
    ensures { Added (λ g. times g (zone_of part.now.words.now).owners) (room (zone_of part.now.words.now).class) figures.old figures.new }
{
    if part.is_idle() {
        return;
    }
    let room = zone::sizes::room(part.class());
    let end = HEAD + part.touched() as usize;
    add_slots(&part.words[HEAD..end], room, figures);
}

// Adds what stands at page p.
fn add_segment(pages: &Pages, p: usize, figures: &mut [u32])
    requires within { Within 1 figures.old }
    requires placed { (b : ℕ) × (x : Segment Zone) × Stands (segments_of pages.now.words.now) p b x }
    ensures { (b : ℕ) (x : Segment Zone) → Stands (segments_of pages.now.words.now) p b x → Adds x figures.old figures.new }
{
    match pages.kind(p) {
        Kind::Run => {}
        Kind::Direct => {
            let bytes = pages.size(p) as u32 * PAGE_BYTES;
            add_blocks(pages.group(p), 1, bytes, figures);
        }
        Kind::Zone => add_zone(&pages.zone(p), figures),
    }
}

// Adds up what each group holds in the pages, in figures that are zero.
pub fn tally(pages: &Pages, figures: &mut [u32])
    requires { Tallied figures.old [] }
    ensures { Tallied figures.new (shown (segments_of pages.now.words.now)) }
{
    let mut p = 0;
    // (A `while`: each turn goes on by the pages of a segment.)
    while p < pages.count {
        add_segment(pages, p, figures);
        p += pages.size(p);
    }
}
