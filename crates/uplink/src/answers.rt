// The line that says an answer.
ghost use Rattle.std.specs.Prelude.{◌+◌, ◌^◌, ◌≤◌, ◌<◌, [], ◌∷◌};
ghost use Rattle.model.specs.Text.{line};
ghost use Rattle.model.specs.Ascii.{ascii};
ghost use Rattle.model.specs.Calls.{number};
ghost use Rattle.text.specs.Writing.{Wrote, named};
ghost use Rattle.uplink.specs.Answers.{answer_text, bad_text, answer_room};

use model::{Answer, Refusal};

// The line that says an answer. (Where it begins is bounded by each writer: positions are numbers, which are added to.)
pub fn put_answer(out: &mut [u8], at: usize, answer: Answer) -> usize
    requires { at < 2 ^ 32 }
    ensures wrote { Wrote out.old at (answer_text answer) result out.new }
    ensures upper_bound { result ≤ at + answer_room }
{
    match answer {
        Answer::Granted { offset, looked: _ } => {
            text::put_named(out, at, b"at", u64::from(offset))
        }
        Answer::Denied { refusal, looked: _ } | Answer::Refused(refusal) => {
            put_refusal(out, at, refusal)
        }
        Answer::Done => text::put_bytes(out, at, b"ok\n"),
        Answer::Counted(count) => text::put_named(out, at, b"ok", u64::from(count)),
        Answer::Block(group, room) => put_block(out, at, group, room),
    }
}

// The line that says a refusal.
fn put_refusal(out: &mut [u8], at: usize, refusal: Refusal) -> usize
    requires { at < 2 ^ 32 }
    ensures wrote { Wrote out.old at (named (ascii "no") (number refusal)) result out.new }
    ensures upper_bound { result ≤ at + answer_room }
{
    text::put_named(out, at, b"no", u64::from(u32::from(refusal)))
}

fn put_block(out: &mut [u8], at: usize, group: u32, room: u32) -> usize
    requires { at < 2 ^ 32 }
    ensures wrote { Wrote out.old at (line (group ∷ room ∷ [])) result out.new }
    ensures upper_bound { result ≤ at + answer_room }
{
    let numbers = [u64::from(group), u64::from(room)];
    text::put_line(out, at, &numbers)
}

// The line that answers a bad one.
#[tactic(auto, unfolding(crate::specs::Answers::bad_text, model::specs::Ascii::ascii))]
pub fn put_bad(out: &mut [u8], at: usize) -> usize
    requires { at < 2 ^ 32 }
    ensures { Wrote out.old at bad_text result out.new }
{
    text::put_bytes(out, at, b"?\n")
}
