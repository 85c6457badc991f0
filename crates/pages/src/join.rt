// Pages in: the words of a segment and of the runs beside it become those of one run.
ghost use Rattle.std.specs.Prelude.{◌≡◌, [], ◌∷◌, ℕ, ◌+◌, ◌*◌, ◌<◌, ◌≤◌, length, false};
ghost use Rattle.model.specs.Arena.{Segment, run, pages};
ghost use Rattle.model.specs.Zone.{Zone};
ghost use Rattle.model.specs.Valid.{Apart};
ghost use Rattle.model.specs.Pages.{with_run, release};
ghost use Rattle.pages.specs.Encoding.{segment_encoding, segments_encoding};
ghost use Rattle.pages.specs.Decoding.{segments_of, Holds};
ghost use Rattle.lemmas.specs.Zeros.{zeros};
ghost use Rattle.pages.specs.Places.{run_pages, Stands};
ghost use Rattle.model.specs.Numbers.{page_bytes, most_pages};

use crate::find::Pages;
use crate::{Kind, Start};
use model::numbers::PAGE_WORDS;

// The words of a segment become zero. Of a zone any may be other than zero, of a run or a direct block only the first three.
fn erase(part: &mut [u32])
    requires { (x : Segment Zone) × (0 < pages x) × (part.old ≡ segment_encoding x) }
    ensures { part.new ≡ zeros (length part.old) }
{
    match Kind::told_by(part[0]) {
        Kind::Zone => scan::clear(part),
        Kind::Run | Kind::Direct => {
            part[0] = 0;
            part[1] = 0;
            part[2] = 0;
        }
    }
}

// The words of a run, if there is one, become zero.
fn erase_rest(part: &mut [u32])
    requires { (k : ℕ) × (part.old ≡ segments_encoding (with_run k [])) }
    ensures { part.new ≡ zeros (length part.old) }
{
    if part.is_empty() {
        return;
    }
    part[0] = 0;
    part[1] = 0;
}

// The words of a segment of `len` pages between runs of `before` and `after` pages (0: none, as in `Start`) become those of one run.
fn fuse(part: &mut [u32], before: usize, len: usize, after: usize)
    requires { (x : Segment Zone) × (pages x ≡ len) × (0 < len) × (before + len + after ≤ most_pages) × (part.old ≡ segments_encoding (with_run before (x ∷ with_run after []))) }
    ensures { part.new ≡ segment_encoding (run (before + len + after)) }
{
    let m = PAGE_WORDS * before;
    let h = m + PAGE_WORDS * len;
    erase(&mut part[m..h]);
    erase_rest(&mut part[h..]);
    crate::cut::put_run(part, before + len + after);
}

// The pages of the segment that begins at `start`, of `len` pages, which is no run, come back, and are joined with the run that ends
// where it begins and with the run that begins where it ends.
pub fn give_back(words: &mut [u32], n: usize, start: Start, len: usize)
    requires holds { Holds words.old n }
    requires apart { Apart false (segments_of words.old) }
    requires stands { (x : Segment Zone) × Stands (segments_of words.old) start.at start.before x × (pages x ≡ len) × (run_pages x ≡ 0) }
    ensures { words.new ≡ segments_encoding (release (start.at * page_bytes) (segments_of words.old)) }
{
    let pages = Pages {
        words: &words[..],
        count: n,
    };
    let after = pages.run_behind(start.at, len);
    let a = PAGE_WORDS * (start.at - start.before);
    let e = a + PAGE_WORDS * (start.before + len + after);
    fuse(&mut words[a..e], start.before, len, after);
}
