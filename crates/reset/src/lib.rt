// Reset: every live block of a group comes back, in ascending offset. One walk over the segments, and inside a zone one over its
// chunks: it goes on from where it is, and behind the run that given back pages have become part of.
#![tactic(auto)]

ghost use Rattle.std.specs.Prelude.{◌≡◌, ℕ, ◌+◌, ◌<◌, length};
ghost use Rattle.model.specs.Arena.{run, direct};
ghost use Rattle.model.specs.State.{State};
ghost use Rattle.model.specs.Free.{offsets_of, freed_all};
ghost use Rattle.model.specs.Free as rules;
ghost use Rattle.model.specs.Calls.{count_answer};
ghost use Rattle.pages.specs.Places.{Stands};
ghost use Rattle.metadata.specs.Encoding.{encode};
ghost use Rattle.metadata.specs.Decoding.{decode};
ghost use Rattle.steps.specs.Outcomes.{Makes};
ghost use Rattle.steps.specs.Lent.{Good};
ghost use Rattle.reset.specs.Sweep.{Sweep, InZone};

use model::Refusal;
use model::groups::Group;
use model::numbers::ZONE_PAGES;
use pages::{Kind, Start};

// Where the walk goes on, and the blocks given back on the way.
#[derive(Clone, Copy, PartialEq, Eq, Debug)]
pub struct Swept {
    pub next: Start,
    pub count: u32,
}

// The walk goes on behind the run at page `first`.
fn behind_run(words: &[u32], n: usize, first: usize, count: u32) -> Swept
    requires good { Good words.now n }
    requires placed { (b k : ℕ) × Stands (decode words.now).segments first b (run k) }
    ensures { (b k : ℕ) → Stands (decode words.now).segments first b (run k) → (result.next.at ≡ first + k) × (result.next.before ≡ k) × (result.count ≡ count) }
{
    let len = steps::size_at(words, n, first);
    let next = Start {
        at: first + len,
        before: len,
    };
    Swept { next, count }
}

// The group's chunks of the zone come back. Once its last chunk has, the zone itself may have gone.
fn sweep_zone(words: &mut [u32], n: usize, start: Start, group: Group) -> Swept
    requires { (t : State) × (c : ℕ) × (k : ℕ) × InZone group.number t c words.old n start.at start.before 0 k }
    ensures { ((t : State) (c k : ℕ) → InZone group.number t c words.old n start.at start.before 0 k → Sweep group.number t c words.new n result.next.at result.next.before (k + result.count)) × (start.at < result.next.at) }
{
    let mut count = 0;
    for chunk in 0..steps::zone_touched(words, start.at) {
        if steps::zone_owner(words, start.at, chunk) != group.number {
            continue;
        }
        count += 1;
        if !free::chunk_back(words, n, start, chunk) {
            return behind_run(words, n, start.at - start.before, count);
        }
    }
    let next = Start {
        at: start.at + ZONE_PAGES,
        before: 0,
    };
    Swept { next, count }
}

// The direct block comes back.
fn sweep_direct(words: &mut [u32], n: usize, start: Start, len: usize, group: Group) -> Swept
    requires { Good words.old n × Stands (decode words.old).segments start.at start.before (direct len group.number) }
    ensures { ((t : State) (c k : ℕ) → Sweep group.number t c words.old n start.at start.before k → Sweep group.number t c words.new n result.next.at result.next.before (k + result.count)) × (start.at < result.next.at) }
{
    steps::give_back(words, n, start, len);
    behind_run(words, n, start.at - start.before, 1)
}

// What the segment holds of the group comes back.
fn sweep_at(words: &mut [u32], n: usize, start: Start, group: Group) -> Swept
    requires { (start.at < n) × ((t : State) × (c : ℕ) × (k : ℕ) × Sweep group.number t c words.old n start.at start.before k) }
    ensures { ((t : State) (c k : ℕ) → Sweep group.number t c words.old n start.at start.before k → Sweep group.number t c words.new n result.next.at result.next.before (k + result.count)) × (start.at < result.next.at) }
{
    let kind = steps::kind_at(words, start.at);
    if kind == Kind::Zone {
        return sweep_zone(words, n, start, group);
    }
    let len = steps::size_at(words, n, start.at);
    if kind == Kind::Direct && steps::group_at(words, n, start.at) == group.number {
        return sweep_direct(words, n, start, len, group);
    }
    let next = Start {
        at: start.at + len,
        before: kind.run_len(len),
    };
    Swept { next, count: 0 }
}

// Every block of the group comes back; answers how many there were.
fn sweep(words: &mut [u32], n: usize, group: Group) -> u32
    requires { Good words.old n }
    ensures { (result ≡ length (offsets_of group.number (decode words.old))) × (words.new ≡ encode (freed_all (offsets_of group.number (decode words.old)) (decode words.old))) }
{
    let mut start = Start { at: 0, before: 0 };
    let mut count = 0;
    // (A `while`: each turn goes on by the pages of a segment.)
    while start.at < n {
        let swept = sweep_at(words, n, start, group);
        start = swept.next;
        count += swept.count;
    }
    count
}

// The group's live blocks come back, and the answer counts them. Refusal 4.
pub fn reset(words: &mut [u32], n: usize, group: u32) -> Result<u32, Refusal>
    requires { Good words.old n }
    ensures { Makes (rules.reset group (decode words.old)) (count_answer result) words.new }
{
    let group = Group::try_from(group)?;
    Ok(sweep(words, n, group))
}
