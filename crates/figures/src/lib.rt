// The groups' figures, the first 64 of the lent words: at a start, against a ceiling, and in the list of records that is filled from
// them.
// (Their number stays a `requires`: they are a slice of the lent words, and an array behind a reference would be made by a test that cannot
// fail, at each call. They lie in four columns of twelve, as the layout has them, which callers in C keep.)
#![tactic(auto)]

ghost use Rattle.std.specs.Prelude.{◌≡◌, ◌≢◌, ◌+◌, ◌-◌, ◌≤◌, ◌<◌, leb, length, MatchResult};
ghost use Rattle.model.specs.Numbers.{most_bytes, most_group, figure_words};
ghost use Rattle.figures.specs.Encoding.{figures_encoding, no_holding, largest, record_in, ceiling_in};
ghost use Rattle.model.specs.declared.Refusal.TheVariants.{BadList};
ghost use Rattle.figures.specs.Records.{filled};

pub mod layout;
pub mod steps;

use layout::{AT_CEILING, AT_GREATEST, AT_HELD, AT_REST};
use model::groups::Group;
use model::numbers::{GROUPS, MOST_BYTES};
use model::{Holding, Refusal};

// Sets the words up for a start: nothing is held, or has been, and every ceiling is the largest.
pub fn set_up(words: &mut [u32])
    requires { length words.old ≡ figure_words }
    ensures { words.new ≡ figures_encoding no_holding largest }
{
    words[..AT_CEILING].fill(0);
    words[AT_CEILING..AT_REST].fill(MOST_BYTES);
    words[AT_REST..].fill(0);
}

// Whether the group stays within its ceiling, if it gets a block of so many bytes.
pub fn within(words: &[u32], group: Group, room: u32) -> bool
    requires long { length words.now ≡ figure_words }
    requires bounded_bytes { ((record_in words.now (group.number - 1)).held ≤ most_bytes) × (room ≤ most_bytes) }
    ensures { result ≡ leb ((record_in words.now (group.number - 1)).held + room) (ceiling_in words.now (group.number - 1)) }
{
    let index = group.index();
    words[AT_HELD + index] + room <= words[AT_CEILING + index]
}

// The record of the group at an index (group 1 first).
fn holding_at(words: &[u32], index: usize) -> Holding
    requires { (figure_words ≤ length words.now) × (index < most_group) }
    ensures { result ≡ record_in words.now index }
{
    Holding {
        blocks: words[index],
        held: words[AT_HELD + index],
        greatest: words[AT_GREATEST + index],
    }
}

// Fills the list with the groups' records, group 1 first, if it has as many as there are groups; else refuses and leaves it.
pub fn fill(words: &[u32], list: &mut [Holding]) -> Result<(), Refusal>
    requires { figure_words ≤ length words.now }
    ensures answer { MatchResult result (λ _. length list.old ≡ most_group) (λ refusal. (length list.old ≢ most_group) × (refusal ≡ BadList)) }
    ensures list_after { list.new ≡ filled words.now list.old }
{
    if list.len() != GROUPS {
        return Err(Refusal::BadList);
    }
    for (i, record) in list.iter_mut().enumerate() {
        *record = holding_at(words, i);
    }
    Ok(())
}
