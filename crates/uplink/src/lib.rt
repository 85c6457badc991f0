// Lines of input to calls, answers to lines, and a reader that takes the input in fragments. Nothing here reads or writes a file:
// bytes come in lent slices, and texts go into lent buffers.
#![tactic(auto)]

ghost use Rattle.std.specs.Prelude.{◌≤◌};
ghost use Rattle.uplink.specs.declared.TheConstants.{MOST_LINE};

use model::Call;

pub mod answers;
pub mod grammar;
pub mod input;

// A line has at most so many bytes before its LF.
pub const MOST_LINE: usize = 64;

// What a line asks: init with a number of pages, a group's call, trim, query of an offset, or the listing; or nothing that is
// understood.
// `Bad` is a case and no `None`: a bad line is a line with a reply of its own, as the replies and the session are defined.
#[derive(Clone, Copy, PartialEq, Eq, Debug)]
pub enum Line {
    Init(u32),
    Group(Call),
    Trim,
    Query(u32),
    Listing,
    Bad,
}

// The numbers after a line's letter.
#[derive(Clone, Copy, PartialEq, Eq, Debug)]
enum Numbers {
    Zero,
    One(u32),
    Two(u32, u32),
}

// An unfinished line: its first bytes, how many they are, and whether there were more than a line has (a flag,
// and no `Option` of the bytes: where it is set nothing is asked of them).
// An array with its length beside it, since no memory is allocated.
#[derive(Clone, Copy)]
pub struct Reader {
    line: [u8; MOST_LINE],
    len: usize,
    over: bool,
    ghost sound: { len ≤ MOST_LINE },
}

// What a step of the reader answers: the position after the bytes that it took, and the line that they ended, if they ended one.
#[derive(Clone, Copy, PartialEq, Eq, Debug)]
pub struct Fed {
    pub next: usize,
    pub line: Option<Line>,
}
