// A line of input as the call that it asks for.
ghost use Rattle.std.specs.Prelude.{◌≡◌};
ghost use Rattle.uplink.specs.Grammar.{second_at, numbers_at, bare_line, line_of_one, line_of_two, line_with, line_of};

use crate::{Line, Numbers};
use model::{Call, Operation};

// The call that a line is, which is given without its LF.
#[tactic(auto, unfolding(crate::specs::Grammar::line_of))]
pub fn parse(s: &[u8]) -> Line
    ensures { result ≡ line_of s.now }
{
    if s.is_empty() {
        return Line::Bad;
    }
    line_with(s[0], read_numbers(s, 1))
}

// The numbers from a position on, each after one space, up to the line's end.
#[tactic(auto, unfolding(crate::specs::Grammar::numbers_at, crate::specs::Grammar::first_of))]
fn read_numbers(s: &[u8], at: usize) -> Option<Numbers>
    ensures { result ≡ numbers_at s.now at }
{
    if s.len() <= at {
        return Some(Numbers::Zero);
    }
    if s[at] != b' ' {
        return None;
    }
    let first = text::read_number(s, at + 1)?;
    read_second(s, first.next, first.value)
}

// The same, where the first number has been read up to a position.
#[tactic(auto, unfolding(crate::specs::Grammar::second_at, crate::specs::Grammar::second_of))]
fn read_second(s: &[u8], at: usize, first: u32) -> Option<Numbers>
    ensures { result ≡ second_at s.now at first }
{
    if s.len() <= at {
        return Some(Numbers::One(first));
    }
    if s[at] != b' ' {
        return None;
    }
    let second = text::read_number(s, at + 1)?;
    if second.next < s.len() {
        return None;
    }
    Some(Numbers::Two(first, second.value))
}

// The call by its letter and its numbers.
#[tactic(auto, unfolding(crate::specs::Grammar::line_with))]
fn line_with(letter: u8, numbers: Option<Numbers>) -> Line
    ensures { result ≡ line_with letter numbers }
{
    match numbers {
        Some(Numbers::Zero) => bare_line(letter),
        Some(Numbers::One(a)) => line_of_one(letter, a),
        Some(Numbers::Two(a, b)) => line_of_two(letter, a, b),
        None => Line::Bad,
    }
}

#[tactic(auto, unfolding(crate::specs::Grammar::bare_line))]
fn bare_line(letter: u8) -> Line
    ensures { result ≡ bare_line letter }
{
    match letter {
        b't' => Line::Trim,
        b'p' => Line::Listing,
        _ => Line::Bad,
    }
}

#[tactic(auto, unfolding(crate::specs::Grammar::line_of_one))]
fn line_of_one(letter: u8, a: u32) -> Line
    ensures { result ≡ line_of_one letter a }
{
    match letter {
        b's' => Line::Init(a),
        b'x' => Line::Group(Call {
            group: a,
            operation: Operation::Reset,
        }),
        b'b' => Line::Query(a),
        _ => Line::Bad,
    }
}

#[tactic(auto, unfolding(crate::specs::Grammar::line_of_two))]
fn line_of_two(letter: u8, a: u32, b: u32) -> Line
    ensures { result ≡ line_of_two letter a b }
{
    match letter {
        b'q' => Line::Group(Call {
            group: a,
            operation: Operation::Allocate(b),
        }),
        b'r' => Line::Group(Call {
            group: a,
            operation: Operation::Free(b),
        }),
        _ => Line::Bad,
    }
}
