// The class of a size (document 02, d): looked up in a table that has one entry for each size rounded up to eight bytes.
// specs/Table.antt says what the entries are, src/entries.rt has them.
#![tactic(auto)]

ghost use Rattle.std.specs.Prelude.{◌≡◌, ◌<◌};
ghost use Rattle.model.specs.Numbers.{large_size};
ghost use Rattle.model.specs.Sizes.{class_of};
ghost use Rattle.classes.specs.Table.{entry_count, entry_of, class_table, class_for};

mod entries;

use entries::{ENTRY_COUNT, TABLE};
use model::numbers::LARGE_SIZE;

// (That a size is one of a chunk stays a `requires`: a size is asked for as a number, and a type for the few that look it up would be opened there.)
// The place of a size's entry: the size in eighths, rounded up, less one.
fn place(size: u32) -> usize
    requires { (0 < size) × (size < large_size) }
    ensures { (result ≡ entry_of size) × (result < entry_count) }
{
    (size.div_ceil(8) - 1) as usize
}

// The class of a size below 8,192.
pub fn class_of_size(size: u32) -> u32
    requires { (0 < size) × (size < large_size) }
    ensures { result ≡ class_of size }
{
    class_in(&TABLE, size)
}

// The whole table, for a caller who has many sizes to look up.
pub fn table() -> [u8; ENTRY_COUNT]
    ensures { result ≡ class_table }
{
    TABLE
}

// The class of a size below 8,192, by the table that the caller has.
pub fn class_in(table: &[u8], size: u32) -> u32
    requires table_value { table.now ≡ class_table }
    requires chunk_sized { (0 < size) × (size < large_size) }
    ensures { result ≡ class_of size }
{
    u32::from(table[place(size)])
}

// The class of the chunk that a request of this size takes, 0 where it takes none. (No `Option`: `allocate::supply` and `room_for` ask for just
// this number.)
pub fn class_for(size: u32) -> u32
    ensures { result ≡ class_for size }
{
    if 0 < size && size < LARGE_SIZE {
        class_of_size(size)
    } else {
        0
    }
}
