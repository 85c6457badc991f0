// The check of the slots of the chunks that were handed out: their states, and the chain of the returned ones. (The chain's places are
// numbers in words: the layout has them so, which callers in C keep.)
ghost use Rattle.std.specs.Prelude.{true, ◌≡◌, ◌≤◌, ◌+◌, length, take};
ghost use Rattle.lemmas.specs.Below.{all_below};
ghost use Rattle.lemmas.specs.Every.{every, count};
ghost use Rattle.zone.specs.Encoding.{slot_count};
ghost use Rattle.zone.specs.Decoding.{is_live, is_bare, is_near, in_place, slots_legal};

use crate::layout::*;

// A slot from here on names a chunk that no zone has.
const FAR: u32 = HALF * SLOTS as u32;

// What a scan of slots finds: how many are those of live chunks, and the or of all.
#[derive(Clone, Copy, PartialEq, Eq, Debug)]
struct Tally {
    live: u32,
    seen: u32,
}

// The slot of a live chunk.
fn is_live(slot: u32) -> bool
    ensures { result ≡ is_live slot }
{
    let state = slot % HALF;
    0 < state && state < POSITION_BASE
}

// All slots are read, and nothing leaves the loop before its end: so it runs in vectors.
fn survey(slots: &[u32]) -> Tally
    requires { length slots.now ≤ slot_count }
    ensures { (result.live ≡ count is_live slots.now) × (is_bare result.seen ≡ every is_bare slots.now) × (is_near result.seen ≡ every is_near slots.now) × (result.live ≤ slot_count) }
{
    let mut live: u32 = 0;
    let mut seen: u32 = 0;
    for slot in slots {
        seen |= *slot;
        if is_live(*slot) {
            live += 1;
        }
    }
    Tally { live, seen }
}

// Whether the chunk at each position below `chained` has that position. No read waits for another one's. (Each chunk's slot is looked up by its
// number: so the position is one, too.)
fn are_in_place(slots: &[u32], chained: u32) -> bool
    requires { (length slots.now ≡ slot_count) × (chained ≤ slot_count) × (every is_near (take chained slots.now) ≡ true) }
    ensures { result ≡ all_below (in_place slots.now) chained }
{
    let mut wrong: u32 = 0;
    for i in 0..chained {
        let chunk = slots[i as usize] / HALF;
        wrong |= slots[chunk as usize] % HALF ^ POSITION_BASE + i;
    }
    wrong == 0
}

// Whether the slots hold groups and one chain of `chained` chunks with all returned ones, and nothing else.
pub fn are_legal(slots: &[u32], touched: u32, chained: u32) -> bool
    requires { (length slots.now ≡ slot_count) × (touched ≤ slot_count) × (chained ≤ touched) }
    ensures { result ≡ slots_legal slots.now touched chained }
{
    let middle = chained as usize;
    // (The slots past the chain come first, and one among them that has an entry ends the check: the others are then not read.)
    let upper = survey(&slots[middle..touched as usize]);
    if HALF <= upper.seen {
        return false;
    }
    let lower = survey(&slots[..middle]);
    lower.seen < FAR && lower.live + upper.live == touched - chained && are_in_place(slots, chained)
}
