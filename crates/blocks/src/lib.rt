// Live blocks: where the block that begins at a byte stands, and the answer to a query.
#![tactic(auto)]

ghost use Rattle.std.specs.Prelude.{◌≡◌, ◌+◌, ◌*◌, ◌<◌};
ghost use Rattle.model.specs.Numbers.{page_bytes, zone_bytes};
ghost use Rattle.model.specs.Arena.{zone};
ghost use Rattle.model.specs.Zone.{Zone};
ghost use Rattle.model.specs.Trim.{query_at};
ghost use Rattle.pages.specs.Places.{Stands};
ghost use Rattle.metadata.specs.Decoding.{decode};
ghost use Rattle.steps.specs.Lent.{Good};
ghost use Rattle.blocks.specs.Places.{Tells, block_answer};

use model::Refusal;
use model::numbers::PAGE_BYTES;
use pages::{Kind, Spot, Start};

// A live block: a direct block, or a chunk; and where its segment begins.
#[derive(Clone, Copy, PartialEq, Eq, Debug)]
pub enum Block {
    Whole {
        start: Start,
        len: usize,
        group: u32,
    },
    Chunk {
        start: Start,
        class: u32,
        chunk: u32,
        group: u32,
    },
}

// What a query tells of a block: its group, and the bytes that it was given.
#[derive(Clone, Copy, PartialEq, Eq, Debug)]
pub struct Told {
    pub group: u32,
    pub room: u32,
}

// The live chunk that begins `away` bytes behind the start of the zone.
fn find_chunk(words: &[u32], n: usize, start: Start, away: u32) -> Option<Block>
    requires good { Good words.now n }
    requires inside_zone { ((z : Zone) × Stands (decode words.now).segments start.at start.before (zone z)) × (away < zone_bytes) }
    ensures { Tells (decode words.now) (start.at * page_bytes + away) result }
{
    let class = steps::zone_class(words, start.at);
    let room = zone::sizes::room(class);
    if away % room != 0 {
        return None;
    }
    let chunk = away / room;
    let group = steps::zone_owner(words, start.at, chunk);
    if group == 0 {
        return None;
    }
    Some(Block::Chunk {
        start,
        class,
        chunk,
        group,
    })
}

// The live block that begins at the offset. The segments are walked once.
pub fn find_block(words: &[u32], n: usize, offset: u32) -> Option<Block>
    requires { Good words.now n }
    ensures { Tells (decode words.now) offset result }
{
    let page = (offset / PAGE_BYTES) as usize;
    let Spot { start, kind, len } = steps::find_segment(words, n, page)?;
    let away = offset - start.at as u32 * PAGE_BYTES;
    match kind {
        Kind::Run => None,
        Kind::Zone => find_chunk(words, n, start, away),
        Kind::Direct if away != 0 => None,
        Kind::Direct => {
            let group = steps::group_at(words, n, start.at);
            Some(Block::Whole { start, len, group })
        }
    }
}

// The group and the room of the live block that begins at the offset, or refusal 7.
pub fn describe(words: &[u32], n: usize, offset: u32) -> Result<Told, Refusal>
    requires { Good words.now n }
    ensures { block_answer result ≡ (query_at offset (decode words.now)).answer }
{
    match find_block(words, n, offset) {
        Some(Block::Whole { len, group, .. }) => Ok(Told {
            group,
            room: len as u32 * PAGE_BYTES,
        }),
        Some(Block::Chunk { class, group, .. }) => Ok(Told {
            group,
            room: zone::sizes::room(class),
        }),
        None => Err(Refusal::NoBlock),
    }
}
