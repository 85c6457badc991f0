// Trim: every zone without a live chunk is given back. Each function is lent all the words of a state and no others (`Lent`).
#![tactic(auto)]

ghost use Rattle.std.specs.Prelude.{◌≡◌, false, ℕ, ◌+◌};
ghost use Rattle.model.specs.Arena.{Segment, total};
ghost use Rattle.model.specs.Zone.{Zone};
ghost use Rattle.model.specs.State.{zone_at};
ghost use Rattle.model.specs.Valid.{Apart};
ghost use Rattle.model.specs.Trim.{idle_count, trimmed};
ghost use Rattle.pages.specs.Places.{Stands};
ghost use Rattle.metadata.specs.Encoding.{encode};
ghost use Rattle.metadata.specs.Decoding.{decode};
ghost use Rattle.steps.specs.Lent.{Lent, ZoneHere, Good};
ghost use Rattle.steps.specs.Moves.{unlisted, released};
ghost use Rattle.trim.specs.Between.{idle_segment, Between};
ghost use Rattle.model.specs.Numbers.{zone_pages};

use model::numbers::ZONE_PAGES;
use pages::{Kind, Start};

// Whether the segment that begins at page p is a zone without a live chunk.
fn idle_at(words: &[u32], p: usize) -> bool
    requires lent { Lent words.now }
    requires placed { (b : ℕ) × (x : Segment Zone) × Stands (decode words.now).segments p b x }
    ensures { (b : ℕ) (x : Segment Zone) → Stands (decode words.now).segments p b x → result ≡ idle_segment x }
{
    match steps::kind_at(words, p) {
        Kind::Zone => steps::zone_idle(words, p),
        Kind::Run | Kind::Direct => false,
    }
}

// The zone at page p leaves its class's list, if it is there.
fn unlist(words: &mut [u32], p: usize)
    requires { Lent words.old × ZoneHere (decode words.old) p }
    ensures { words.new ≡ encode (unlisted (zone_at p (decode words.old).segments).class p (decode words.old)) }
{
    let class = steps::zone_class(words, p);
    steps::list_without(words, class, p as u32);
}

// The zone leaves its class's list, and its pages come back. Answers the pages of the run that they are now part of.
fn give_zone(words: &mut [u32], n: usize, start: Start) -> usize
    requires lent { Lent words.old × (n ≡ total (decode words.old).segments) }
    requires apart { Apart false (decode words.old).segments }
    requires placed { (a : ℕ) × (z : Zone) × Between (decode words.old).segments start.at start.before a z }
    ensures { (a : ℕ) (z : Zone) → Between (decode words.old).segments start.at start.before a z → (result ≡ start.before + zone_pages + a) × (words.new ≡ encode (released start.at (unlisted z.class start.at (decode words.old)))) }
{
    unlist(words, start.at);
    steps::give_back(words, n, start, ZONE_PAGES);
    steps::size_at(words, n, start.at - start.before)
}

// Every zone without a live chunk is given back, in ascending page order; answers how many there were. `before` is the pages of the run
// that ends at page `at`, 0 for none.
pub fn trim_all(words: &mut [u32], n: usize) -> u32
    requires { Good words.old n }
    ensures { (result ≡ idle_count (decode words.old).segments) × (words.new ≡ encode (trimmed (decode words.old))) }
{
    steps::spare_none(words);
    let mut at = 0;
    let mut before = 0;
    let mut count = 0;
    // (A `while`: each turn goes on by the pages of a segment.)
    while at < n {
        if idle_at(words, at) {
            let len = give_zone(words, n, Start { at, before });
            at = at - before + len;
            before = len;
            count += 1;
            continue;
        }
        let len = steps::size_at(words, n, at);
        before = steps::run_at(words, n, at);
        at += len;
    }
    count
}
