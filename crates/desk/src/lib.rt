// Lines served on lent words: a line's call is performed, and its reply goes to the front of a lent buffer. Nothing here reads or
// writes a file. specs/Replies.antt says what each line is answered with and what it leaves; specs/Session.antt the same of all
// lines of an input.
#![tactic(auto)]

ghost use Rattle.std.specs.Prelude.{◌≡◌, length};
ghost use Rattle.uplink.specs.declared.Line.TheVariants as lines;
ghost use Rattle.uplink.specs.Fragments.{fresh, held, last_line};
ghost use Rattle.desk.specs.Replies.{reply_to, words_after, Replied, reply_got, words_got, TurnBy};

use model::Answer;
use uplink::{Fed, Line, Reader};

// What a turn answers: the position after the bytes that it took, and the length of the reply, 0 if there is none (every reply has a byte).
#[derive(Clone, Copy, PartialEq, Eq, Debug)]
pub struct Turn {
    pub next: usize,
    pub len: usize,
}

// Serves a line: the reply stands at the front of the buffer, as far as the buffer reaches, and its length is answered.
pub fn serve(meta: &mut [u32], line: Line, out: &mut [u8]) -> usize
    ensures meta_after { meta.new ≡ words_after meta.old line }
    ensures replied { Replied out.old (reply_to meta.old (length out.old) line) result out.new }
{
    let answer = match line {
        Line::Init(pages) => calls::init(meta, pages),
        Line::Group(call) => calls::call(meta, call),
        Line::Trim => calls::trim(meta),
        Line::Query(offset) => calls::query(meta, offset),
        Line::Listing => return serve_listing(meta, out),
        Line::Bad => return uplink::answers::put_bad(out, 0),
    };
    uplink::answers::put_answer(out, 0, answer)
}

// A listing that is refused leaves the buffer to the refusal's line. No word changes.
fn serve_listing(meta: &mut [u32], out: &mut [u8]) -> usize
    ensures meta_unchanged { meta.new ≡ meta.old }
    ensures replied { Replied out.old (reply_to meta.old (length out.old) lines.Listing) result out.new }
{
    match calls::listing(meta, out) {
        Answer::Counted(count) => count as usize,
        refused => uplink::answers::put_answer(out, 0, refused),
    }
}

// Takes the bytes of a fragment from a position on, up to and with the first LF, and serves the line that it ends. Where there is
// no LF the fragment is used up.
pub fn serve_next(
    reader: &mut Reader,
    meta: &mut [u32],
    fragment: &[u8],
    from: usize,
    out: &mut [u8],
) -> Turn
    ensures { TurnBy (held reader.old) meta.old fragment.now from out.old result (held reader.new) meta.new out.new }
{
    let Fed { next, line } = reader.feed(fragment, from);
    let len = match line {
        Some(line) => serve(meta, line, out),
        None => 0,
    };
    Turn { next, len }
}

// The end of the input: an unfinished line is served if it has a byte, and the length of its reply is answered, as in `Turn`. The reader is
// as new.
pub fn serve_last(reader: &mut Reader, meta: &mut [u32], out: &mut [u8]) -> usize
    ensures ready { held reader.new ≡ fresh }
    ensures meta_after { meta.new ≡ words_got meta.old (last_line (held reader.old)) }
    ensures replied { Replied out.old (reply_got meta.old (length out.old) (last_line (held reader.old))) result out.new }
{
    match reader.finish() {
        Some(line) => serve(meta, line, out),
        None => 0,
    }
}
