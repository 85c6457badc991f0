// Freeing: a chunk comes back to its zone, a direct block's pages to the runs.
#![tactic(auto)]

ghost use Rattle.std.specs.Prelude.{◌≡◌, true, ◌<◌, length, ltb};
ghost use Rattle.model.specs.Numbers.{most_spare};
ghost use Rattle.model.specs.Arena.{zone};
ghost use Rattle.model.specs.Zone.{Zone};
ghost use Rattle.model.specs.State.{list_of, zone_at};
ghost use Rattle.model.specs.Free.{retired, chunk_back};
ghost use Rattle.model.specs.Free as rules;
ghost use Rattle.model.specs.Calls.{plain_answer};
ghost use Rattle.pages.specs.Places.{Stands};
ghost use Rattle.metadata.specs.Encoding.{encode};
ghost use Rattle.metadata.specs.Decoding.{decode};
ghost use Rattle.steps.specs.Outcomes.{Makes};
ghost use Rattle.steps.specs.Lent.{Good};
ghost use Rattle.free.specs.Back.{chained, LiveChunk, Remains};

use blocks::Block;
use model::Refusal;
use model::groups::Group;
use model::numbers::{MOST_SPARE, ZONE_PAGES};
use pages::Start;

// The chunk goes to the front of its zone's chain, and a zone that was full to the front of its class's list.
fn chain_back(words: &mut [u32], n: usize, start: Start, chunk: u32)
    requires { Good words.old n × LiveChunk (decode words.old) start.at start.before chunk }
    ensures { words.new ≡ encode (chained (zone_at start.at (decode words.old).segments).class chunk start.at (zone_at start.at (decode words.old).segments) (decode words.old)) }
{
    let full = steps::zone_full(words, start.at);
    if full {
        let class = steps::zone_class(words, start.at);
        steps::zone_put_back(words, start.at, chunk);
        steps::list_front(words, class, start.at as u32);
        return;
    }
    steps::zone_put_back(words, start.at, chunk);
}

// The zone, which has no live chunk, leaves its class's list for the front of the empty list; if that has two already, its pages go
// back to the runs. Answers whether the zone still stands.
fn retire(words: &mut [u32], n: usize, start: Start, class: u32) -> bool
    requires { Good words.old n × ((z : Zone) × Stands (decode words.old).segments start.at start.before (zone z) × (class ≡ z.class)) }
    ensures { (words.new ≡ encode (retired class start.at (list_of (decode words.old) class) (decode words.old))) × (result ≡ ltb (length (decode words.old).spare) most_spare) }
{
    steps::list_without(words, class, start.at as u32);
    if steps::spare_count(words) < MOST_SPARE {
        steps::spare_front(words, start.at as u32);
        return true;
    }
    steps::give_back(words, n, start, ZONE_PAGES);
    false
}

// The live chunk of the zone that begins at `start` comes back. Answers whether the zone still stands.
pub fn chunk_back(words: &mut [u32], n: usize, start: Start, chunk: u32) -> bool
    requires { Good words.old n × LiveChunk (decode words.old) start.at start.before chunk }
    ensures words_after { words.new ≡ encode (chunk_back (zone_at start.at (decode words.old).segments).class chunk start.at (zone_at start.at (decode words.old).segments) (decode words.old)) }
    ensures remains { Remains result chunk start.at (zone_at start.at (decode words.old).segments) (decode words.old) (chunk_back (zone_at start.at (decode words.old).segments).class chunk start.at (zone_at start.at (decode words.old).segments) (decode words.old)) }
{
    let class = steps::zone_class(words, start.at);
    chain_back(words, n, start, chunk);
    if !steps::zone_idle(words, start.at) {
        return true;
    }
    if steps::list_count(words, class) < 2 {
        return true;
    }
    retire(words, n, start, class)
}

// The group's block that begins at the offset comes back. Refusals in document 01's order: 4, 7, 8.
pub fn free(words: &mut [u32], n: usize, group: u32, offset: u32) -> Result<(), Refusal>
    requires { Good words.old n }
    ensures { Makes (rules.free group offset (decode words.old)) (plain_answer result) words.new }
{
    Group::try_from(group)?;
    match blocks::find_block(words, n, offset).ok_or(Refusal::NoBlock)? {
        Block::Whole {
            start,
            len,
            group: owner,
        } => {
            if owner != group {
                return Err(Refusal::OtherGroup);
            }
            steps::give_back(words, n, start, len);
            Ok(())
        }
        Block::Chunk {
            start,
            chunk,
            group: holder,
            ..
        } => {
            if holder != group {
                return Err(Refusal::OtherGroup);
            }
            chunk_back(words, n, start, chunk);
            Ok(())
        }
    }
}
