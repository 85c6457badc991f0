// Numbers and lines as bytes: written into a lent buffer, and read back.
//
// A writer skips the bytes that lie past the buffer's end, and answers the position after its text all the same. So a buffer of
// any length may be lent, and on an empty one a writer only measures its text. (Buffer and position stay two parameters, and `Bounded` a
// `requires`: a writer that held both would hold a `&mut`, as `steps` says, and what is bounded is another text at each call.)
#![tactic(auto)]

ghost use Rattle.std.specs.Prelude.{◌≡◌, cond, [], ◌∷◌, ltb};
ghost use Rattle.model.specs.Text.{decimal, line};
ghost use Rattle.text.specs.Writing.{Bounded, Wrote, field, named};
ghost use Rattle.text.specs.Numbers.{number_at};

// A number that stands in a text, and the position after its last digit.
#[derive(Clone, Copy, PartialEq, Eq, Debug)]
pub struct Number {
    pub value: u32,
    pub next: usize,
}

// ---- writers

pub fn put_byte(out: &mut [u8], at: usize, b: u8) -> usize
    requires { Bounded at (b ∷ []) }
    ensures { Wrote out.old at (b ∷ []) result out.new }
{
    if at < out.len() {
        out[at] = b;
    }
    at + 1
}

// (Byte by byte: those past the buffer's end are skipped, which no copy does.)
pub fn put_bytes(out: &mut [u8], at: usize, s: &[u8]) -> usize
    requires { Bounded at s.now }
    ensures { Wrote out.old at s.now result out.new }
{
    let mut next = at;
    for &b in s {
        next = put_byte(out, next, b);
    }
    next
}

// A number in decimal: the digits of n / 10, if there are any, and then the last one.
// By hand and not by `Display`: a public promise, the one writer of every number in every text, into a lent buffer.
pub fn put_number(out: &mut [u8], at: usize, n: u64) -> usize
    requires { Bounded at (decimal n) }
    ensures { Wrote out.old at (decimal n) result out.new }
{
    if n < 10 {
        return put_byte(out, at, b'0' + n as u8);
    }
    let next = put_number(out, at, n / 10);
    put_byte(out, next, b'0' + (n % 10) as u8)
}

// A number and the byte that ends it.
pub fn put_field(out: &mut [u8], at: usize, n: u64, end: u8) -> usize
    requires { Bounded at (field n end) }
    ensures { Wrote out.old at (field n end) result out.new }
{
    let next = put_number(out, at, n);
    put_byte(out, next, end)
}

// A line of numbers, one space between.
pub fn put_line(out: &mut [u8], at: usize, numbers: &[u64]) -> usize
    requires { Bounded at (line numbers.now) }
    ensures { Wrote out.old at (line numbers.now) result out.new }
{
    if numbers.is_empty() {
        return put_byte(out, at, b'\n');
    }
    let mut next = at;
    for (i, &n) in numbers.iter().enumerate() {
        next = put_field(out, next, n, end_of(i + 1, numbers.len()));
    }
    next
}

// What follows a line's number before the i-th of n: a space, or LF after the last.
fn end_of(i: usize, n: usize) -> u8
    ensures { result ≡ cond (ltb i n) 32 10 }
{
    if i < n { b' ' } else { b'\n' }
}

// A line that is led by a name: the name, a space and a number.
pub fn put_named(out: &mut [u8], at: usize, name: &[u8], n: u64) -> usize
    requires { Bounded at (named name.now n) }
    ensures { Wrote out.old at (named name.now n) result out.new }
{
    let i = put_bytes(out, at, name);
    let j = put_byte(out, i, b' ');
    put_field(out, j, n, b'\n')
}

// ---- readers

// The number at a position. Once a digit has been read, v is 0 only after a single `0`, which no digit may follow.
// By hand, since `parse` takes a sign and leading zeros, and needs to know where the digits end.
pub fn read_number(s: &[u8], at: usize) -> Option<Number>
    ensures { result ≡ number_at s.now at }
{
    let first = *s.get(at)?;
    if !first.is_ascii_digit() {
        return None;
    }
    let mut v = u64::from(first - b'0');
    for (i, b) in s[at + 1..].iter().enumerate() {
        if !b.is_ascii_digit() {
            return Some(Number {
                value: v as u32,
                next: at + 1 + i,
            });
        }
        if v == 0 {
            return None;
        }
        v = 10 * v + u64::from(b - b'0');
        if u64::from(u32::MAX) < v {
            return None;
        }
    }
    Some(Number {
        value: v as u32,
        next: s.len(),
    })
}
