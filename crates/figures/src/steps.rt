// The figures of one group, stepped: a block more, a block less, none left, another ceiling. Each function is lent the words of the
// figures and no others, and stores into those of the group alone.
ghost use Rattle.std.specs.Prelude.{◌≡◌, ◌+◌, ◌-◌, ◌≤◌, ◌<◌, length};
ghost use Rattle.model.specs.Numbers.{most_bytes, figure_words};
ghost use Rattle.figures.specs.Encoding.{record_in};
ghost use Rattle.figures.specs.Steps.{added, taken, cleared, capped};

use crate::layout::{AT_CEILING, AT_GREATEST, AT_HELD};
use model::groups::Group;

// The group holds one block more, of so many bytes; its greatest is raised, if it holds more now than ever.
pub fn add(words: &mut [u32], group: Group, room: u32)
    requires long { length words.old ≡ figure_words }
    requires bounded_bytes { ((record_in words.old (group.number - 1)).blocks ≤ most_bytes) × ((record_in words.old (group.number - 1)).held + room ≤ most_bytes) }
    ensures { words.new ≡ added (group.number - 1) room words.old }
{
    let index = group.index();
    let blocks = words[index] + 1;
    let held = words[AT_HELD + index] + room;
    let greatest = words[AT_GREATEST + index].max(held);
    words[index] = blocks;
    words[AT_HELD + index] = held;
    words[AT_GREATEST + index] = greatest;
}

// The group holds one block less, of so many bytes.
pub fn take(words: &mut [u32], group: Group, room: u32)
    requires long { length words.old ≡ figure_words }
    requires holds_block { (0 < (record_in words.old (group.number - 1)).blocks) × (room ≤ (record_in words.old (group.number - 1)).held) }
    ensures { words.new ≡ taken (group.number - 1) room words.old }
{
    let index = group.index();
    let blocks = words[index] - 1;
    let held = words[AT_HELD + index] - room;
    words[index] = blocks;
    words[AT_HELD + index] = held;
}

// The group holds nothing.
pub fn clear(words: &mut [u32], group: Group)
    requires { length words.old ≡ figure_words }
    ensures { words.new ≡ cleared (group.number - 1) words.old }
{
    let index = group.index();
    words[index] = 0;
    words[AT_HELD + index] = 0;
}

// The group's ceiling is another.
pub fn cap(words: &mut [u32], group: Group, ceiling: u32)
    requires { length words.old ≡ figure_words }
    ensures { words.new ≡ capped (group.number - 1) ceiling words.old }
{
    let index = group.index();
    words[AT_CEILING + index] = ceiling;
}
