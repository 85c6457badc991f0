// A group as a value: a number that no group has makes none.
ghost use Rattle.std.specs.Prelude.{◌≡◌, ◌-◌, ◌≤◌, ◌<◌};
ghost use Rattle.model.specs.Numbers.{most_group};

use crate::{Refusal, group_ok};

// A group, by its number.
#[derive(Clone, Copy, PartialEq, Eq, Debug)]
pub struct Group {
    pub number: u32,
    ghost least: { 0 < number },
    ghost most: { number ≤ most_group },
}

impl Group {
    // Its place among the groups' figures and records: group 1 has the first.
    pub fn index(self) -> usize
        ensures place { result ≡ self.number - 1 }
        ensures inside { result < most_group }
    {
        self.number as usize - 1
    }
}

// The group of a number, or refusal 4.
impl TryFrom<u32> for Group {
    ghost use Rattle.model.specs.Groups.{GroupOf};

    type Error = Refusal;

    ghost try_from_gives = { GroupOf };

    fn try_from(number: u32) -> Result<Group, Refusal> {
        if group_ok(number) {
            Ok(Group { number })
        } else {
            Err(Refusal::BadGroup)
        }
    }
}
