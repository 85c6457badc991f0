// Scans over any words: are they all zero, make them zero.
#![tactic(auto)]

ghost use Rattle.std.specs.Prelude.{◌≡◌, length};
ghost use Rattle.lemmas.specs.Every.{every};
ghost use Rattle.lemmas.specs.Zeros.{zeros, is_zero};

// The words between two exits of a scan: few enough that a wrong word is found early, enough for whole vectors.
const BLOCK: usize = 64;

// Whether every word is zero. All of them are read: without an exit the loop runs in vectors.
fn block_is_zero(s: &[u32]) -> bool
    ensures { result ≡ every is_zero s.now }
{
    s.iter().fold(0, |seen, x| seen | *x) == 0
}

// Whether every word is zero, with an exit behind each block. (By `chunks_exact`, since a block's length is then a constant: with `chunks`,
// whose last block may be shorter, a scan of 4,096 words takes twice as long.)
pub fn is_zero(s: &[u32]) -> bool
    ensures { result ≡ every is_zero s.now }
{
    let mut blocks = s.chunks_exact(BLOCK);
    let rest = blocks.remainder();
    blocks.all(block_is_zero) && block_is_zero(rest)
}

// Makes every word zero.
pub fn clear(s: &mut [u32])
    ensures { s.new ≡ zeros (length s.old) }
{
    s.fill(0);
}
