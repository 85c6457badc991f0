// A list in words of its own, each number + 1 and zeros behind: its check, how many numbers of a range it has, one number more,
// one number less. (Lists in class order in a fixed array of words: the layout has them so, which callers in C keep, and no memory is allocated.)
ghost use Rattle.std.specs.Prelude.{◌≡◌, ◌≤◌, length, take};
ghost use Rattle.lemmas.specs.Every.{count};
ghost use Rattle.lemmas.specs.Times.{remove};
ghost use Rattle.header.specs.Slots.{legal_slots, holds, shifted_in, closed_up};

use model::numbers::MOST_PAGES;

// Whether the slots hold keys below the limit, whose classes never fall, and zeros behind.
pub fn are_legal(slots: &[u32], limit: u32) -> bool
    ensures { result ≡ legal_slots limit 0 slots.now }
{
    let mut class: u32 = 0;
    for (i, slot) in slots.iter().enumerate() {
        if *slot == 0 {
            return scan::is_zero(&slots[i..]);
        }
        let next = (*slot - 1) / MOST_PAGES;
        if limit < *slot || next < class {
            return false;
        }
        class = next;
    }
    true
}

// Whether the slot has a number from `low` on, below `high`.
fn holds(slot: u32, low: u32, high: u32) -> bool
    ensures { result ≡ holds low high slot }
{
    low < slot && slot <= high
}

// How many slots have a number from `low` on, below `high`. All are read: without an exit the loop runs in vectors.
pub fn count_between(slots: &[u32], low: u32, high: u32) -> usize
    ensures { result ≡ count (holds low high) slots.now }
{
    // A `for`, since `filter` and `count` branch at each slot: tried, they take six times as long.
    let mut n: usize = 0;
    for slot in slots {
        if holds(*slot, low, high) {
            n += 1;
        }
    }
    n
}

// v comes in at an index, the slots from there on move up by one, and the last falls out.
pub fn shift_in(slots: &mut [u32], at: usize, v: u32)
    requires { at ≤ length slots.old }
    ensures { slots.new ≡ shifted_in at v slots.old }
{
    let mut carry = v;
    for slot in &mut slots[at..] {
        carry = std::mem::replace(slot, carry);
    }
}

// The slots other than v move to the front, in their order; answers how many they are. What stands behind them is left over. (Two places in
// one slice, so both go by number.)
fn gather(slots: &mut [u32], v: u32) -> usize
    ensures { (result ≡ length (remove v slots.old)) × (take result slots.new ≡ remove v slots.old) }
{
    let mut end = 0;
    for i in 0..slots.len() {
        let slot = slots[i];
        if slot != v {
            slots[end] = slot;
            end += 1;
        }
    }
    end
}

// Every v goes, the other slots close up, and zeros come in at the end.
pub fn take_out(slots: &mut [u32], v: u32)
    ensures { slots.new ≡ closed_up v slots.old }
{
    let end = gather(slots, v);
    scan::clear(&mut slots[end..]);
}
