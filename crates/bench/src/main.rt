// The bench program (document 01): calls from standard input, a line each, and their replies to standard output. The words of its
// arena are enough for 24 pages, and all zero when it begins. Every line is desk's to serve; here are the reads and the writes.
#![tactic(auto)]

ghost use Rattle.std.specs.Prelude.{◌≡◌, false, ◌≤◌, length, OnOk};
ghost use Rattle.lemmas.specs.Zeros.{zeros};
ghost use Rattle.account.specs.Decoding.{is_account};
ghost use Rattle.uplink.specs.Fragments.{held};
ghost use Rattle.bench.specs.Fragments.{ServedAll};
ghost use Rattle.bench.specs.Numbers.{bench_words, reply_room};

use std::io::Read;
use uplink::Reader;

// The words of the program, enough for 24 pages, and the room for one reply (specs/Numbers.antt).
const WORDS: usize = 13568;

const REPLY: usize = 207;

// The bytes of a read, and those that replies are gathered in.
const BUFFER: usize = 65536;

// What ends the program before its input does: a stream that fails.
#[derive(Clone, Copy, PartialEq, Eq, Debug)]
enum Broken {
    Input,
    Output,
}

// The words that the program begins with, all zero: they encode no valid state.
fn fresh_words() -> [u32; WORDS]
    ensures word_count { bench_words ≡ length result }
    ensures value { result ≡ zeros bench_words }
    ensures encodes_none { is_account result ≡ false }
{
    [0; WORDS]
}

// Writes replies to standard output.
fn write_out(rt: &HostRuntime, replies: &[u8]) -> Result<(), Broken> {
    rt.stdout().write_all(replies).map_err(|_| Broken::Output)
}

// Serves a fragment's lines, a turn each, which goes on by the bytes of one. Replies are gathered, and written when there is no room for
// another and at the fragment's end.
fn serve_fragment(
    rt: &HostRuntime,
    reader: &mut Reader,
    meta: &mut [u32],
    fragment: &[u8],
    out: &mut [u8],
) -> Result<(), Broken>
    requires { reply_room ≤ length out.old }
    ensures { OnOk result (ServedAll (held reader.old) meta.old fragment.now (held reader.new) meta.new) }
{
    let mut at = 0;
    let mut used = 0;
    while at < fragment.len() {
        let end = used + REPLY;
        let turn = desk::serve_next(reader, meta, fragment, at, &mut out[used..end]);
        at = turn.next;
        used += turn.len;
        if out.len() - used < REPLY {
            write_out(rt, &out[..used])?;
            used = 0;
        }
    }
    write_out(rt, &out[..used])
}

// The end of the input: a last line without LF.
fn serve_end(
    rt: &HostRuntime,
    reader: &mut Reader,
    meta: &mut [u32],
    out: &mut [u8],
) -> Result<(), Broken>
    requires { reply_room ≤ length out.old }
{
    let len = desk::serve_last(reader, meta, &mut out[..REPLY]);
    write_out(rt, &out[..len])
}

// Serves one read after another, to the one that brings no byte, which is the input's end. A loop has to end, and nothing says that
// an input does: so this one ends after a number of reads that no run comes to.
fn run(rt: &HostRuntime, meta: &mut [u32], input: &mut [u8], out: &mut [u8]) -> Result<(), Broken>
    requires { reply_room ≤ length out.old }
{
    let mut reader = Reader::new();
    for _ in 0..u64::MAX {
        let n = rt.stdin().read(input).map_err(|_| Broken::Input)?;
        if n == 0 {
            return serve_end(rt, &mut reader, meta, out);
        }
        serve_fragment(rt, &mut reader, meta, &input[..n], out)?;
    }
    Ok(())
}

// Says on standard error which stream failed. Where that fails too, nobody is left to tell.
fn tell(rt: &HostRuntime, broken: Broken) {
    let line: &[u8] = match broken {
        Broken::Input => b"bench: standard input cannot be read\n",
        Broken::Output => b"bench: standard output cannot be written\n",
    };
    let _told = rt.stderr().write_all(line).is_ok();
}

fn main(rt: HostRuntime) {
    let mut meta = fresh_words();
    let mut input = [0; BUFFER];
    let mut out = [0; BUFFER];
    if let Err(broken) = run(&rt, &mut meta, &mut input, &mut out) {
        tell(&rt, broken);
    }
}
