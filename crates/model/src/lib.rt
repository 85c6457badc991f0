// The public types of which the contracts speak, and the little code that every layer shares: numbers, the group test, a refusal's
// number, what a call answers for what its parts bring, and whether that is a refusal. The rules themselves are definitions, in
// specs/.
#![tactic(auto)]

ghost use Rattle.std.specs.Prelude.{◌≡◌};
ghost use Rattle.model.specs.Calls.{group_ok, is_refused, number, request_answer, count_answer, plain_answer};

pub mod groups;
pub mod numbers;

use numbers::MOST_GROUP;

// What a group asks. (Document 01: a request with a size, a return with an offset, or a reset.)
#[derive(Clone, Copy, PartialEq, Eq, Debug)]
pub enum Operation {
    Allocate(u32),
    Free(u32),
    Reset,
}

// A group's call: one record holding the group and what it asks.
#[derive(Clone, Copy, PartialEq, Eq, Debug)]
pub struct Call {
    pub group: u32,
    pub operation: Operation,
}

// Why a call is refused. `u32::from` gives the papers' number of each.
#[derive(Clone, Copy, PartialEq, Eq, Debug)]
pub enum Refusal {
    BadPages,
    FewWords,
    NoState,
    BadGroup,
    BadSize,
    NoRoom,
    NoBlock,
    OtherGroup,
    BadList,
    OverCeiling,
    ShortBuffer,
}

// What a call answers. A request is granted an offset, or denied; both tell how many free runs were looked at. Any other call is
// refused, done, done with a count, or tells a live block's group and room.
// (An enum of its own and no `Result`: document 01 asks for it, and the rules and the histories tell the answers of all calls by it.)
#[derive(Clone, Copy, PartialEq, Eq, Debug)]
pub enum Answer {
    Granted { offset: u32, looked: u32 },
    Denied { refusal: Refusal, looked: u32 },
    Refused(Refusal),
    Done,
    Counted(u32),
    Block(u32, u32),
}

// What a group holds: its live blocks, their rooms' bytes, and the most bytes that it has held since the start.
#[repr(C)]
#[derive(Clone, Copy, PartialEq, Eq, Debug)]
pub struct Holding {
    pub blocks: u32,
    pub held: u32,
    pub greatest: u32,
}

// A request's grant: the offset, and how many free runs were looked at.
#[derive(Clone, Copy, PartialEq, Eq, Debug)]
pub struct Grant {
    pub offset: u32,
    pub looked: u32,
}

// A request's denial has that count, too.
#[derive(Clone, Copy, PartialEq, Eq, Debug)]
pub struct Denial {
    pub refusal: Refusal,
    pub looked: u32,
}

// The papers' number of a refusal.
impl From<Refusal> for u32 {
    ghost from_gives = { λ k n. n ≡ number k };

    fn from(refusal: Refusal) -> u32 {
        match refusal {
            Refusal::BadPages => 1,
            Refusal::FewWords => 2,
            Refusal::NoState => 3,
            Refusal::BadGroup => 4,
            Refusal::BadSize => 5,
            Refusal::NoRoom => 6,
            Refusal::NoBlock => 7,
            Refusal::OtherGroup => 8,
            Refusal::BadList => 9,
            Refusal::OverCeiling => 10,
            Refusal::ShortBuffer => 12,
        }
    }
}

// A refusal before any search.
impl From<Refusal> for Denial {
    ghost from_gives = { λ k d. d ≡ record { refusal = k; looked = 0 } };

    fn from(refusal: Refusal) -> Denial {
        Denial { refusal, looked: 0 }
    }
}

// What a request answers.
impl From<Result<Grant, Denial>> for Answer {
    ghost from_gives = { λ r a. a ≡ request_answer r };

    fn from(brought: Result<Grant, Denial>) -> Answer {
        match brought {
            Ok(Grant { offset, looked }) => Answer::Granted { offset, looked },
            Err(Denial { refusal, looked }) => Answer::Denied { refusal, looked },
        }
    }
}

// What a call answers that brings a count.
impl From<Result<u32, Refusal>> for Answer {
    ghost from_gives = { λ r a. a ≡ count_answer r };

    fn from(brought: Result<u32, Refusal>) -> Answer {
        match brought {
            Ok(count) => Answer::Counted(count),
            Err(refusal) => Answer::Refused(refusal),
        }
    }
}

// .. and one that brings nothing.
impl From<Result<(), Refusal>> for Answer {
    ghost from_gives = { λ r a. a ≡ plain_answer r };

    fn from(brought: Result<(), Refusal>) -> Answer {
        match brought {
            Ok(()) => Answer::Done,
            Err(refusal) => Answer::Refused(refusal),
        }
    }
}

// Whether there is such a group.
pub fn group_ok(group: u32) -> bool
    ensures { result ≡ group_ok group }
{
    1 <= group && group <= MOST_GROUP
}

// Whether an answer is a refusal.
pub fn is_refused(answer: Answer) -> bool
    ensures { result ≡ is_refused answer }
{
    matches!(answer, Answer::Denied { .. } | Answer::Refused(_))
}
