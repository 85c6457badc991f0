// The arena's listing as text, from the words of its pages: three sections, of free runs, direct blocks and zones, each after its
// count. Nothing here changes the words.
#![tactic(auto)]

ghost use Rattle.std.specs.Prelude.{◌≡◌, ℕ, leb, length};
ghost use Rattle.model.specs.Arena.{Segment, zone};
ghost use Rattle.model.specs.Zone.{Zone};
ghost use Rattle.model.specs.PageMap.{shown};
ghost use Rattle.model.specs.Calls.{count_answer};
ghost use Rattle.model.specs.Text.{line, lines};
ghost use Rattle.model.specs.Listing.{listing_text};
ghost use Rattle.zone.specs.Decoding.{zone_of};
ghost use Rattle.pages.specs.Decoding.{segments_of};
ghost use Rattle.pages.specs.Places.{kind_number, Stands};
ghost use Rattle.text.specs.Writing.{Bounded, Wrote};
ghost use Rattle.listing.specs.Rows.{row_of, rows_at, rows_of, section_text};
ghost use Rattle.listing.specs.Into.{list_answer, listed_into};

use model::Refusal;
use pages::Kind;
use pages::find::Pages;
use zone::Part;

// ---- rows

// The row of the zone at page p, whose words are lent.
fn put_zone(out: &mut [u8], at: usize, part: &Part, p: usize) -> usize
    requires { Bounded at (line (row_of p (zone (zone_of part.now.words.now)))) }
    ensures { Wrote out.old at (line (row_of p (zone (zone_of part.now.words.now)))) result out.new }
{
    let numbers = [
        p as u64,
        u64::from(part.class()),
        u64::from(part.live_count()),
    ];
    text::put_line(out, at, &numbers)
}

// The row of the segment at page p, if it is of the kind.
fn put_row(out: &mut [u8], at: usize, pages: &Pages, p: usize, kind: Kind) -> usize
    requires { (b : ℕ) × (x : Segment Zone) × Stands (segments_of pages.now.words.now) p b x × Bounded at (lines (rows_at (kind_number kind) p x)) }
    ensures { (b : ℕ) (x : Segment Zone) → Stands (segments_of pages.now.words.now) p b x → Wrote out.old at (lines (rows_at (kind_number kind) p x)) result out.new }
{
    if pages.kind(p) != kind {
        return at;
    }
    let page = p as u64;
    match kind {
        Kind::Run => text::put_line(out, at, &[page, pages.size(p) as u64]),
        Kind::Direct => {
            let numbers = [page, pages.size(p) as u64, u64::from(pages.group(p))];
            text::put_line(out, at, &numbers)
        }
        Kind::Zone => put_zone(out, at, &pages.zone(p), p),
    }
}

// The rows of the segments of the kind.
fn put_rows(out: &mut [u8], at: usize, pages: &Pages, kind: Kind) -> usize
    requires { Bounded at (lines (rows_of (kind_number kind) 0 (segments_of pages.now.words.now))) }
    ensures { Wrote out.old at (lines (rows_of (kind_number kind) 0 (segments_of pages.now.words.now))) result out.new }
{
    let mut p = 0;
    let mut next = at;
    // (A `while`, here and below: each turn goes on by the pages of a segment.)
    while p < pages.count {
        next = put_row(out, next, pages, p, kind);
        p += pages.size(p);
    }
    next
}

// How many segments are of the kind.
fn count_rows(pages: &Pages, kind: Kind) -> u64
    ensures { result ≡ length (rows_of (kind_number kind) 0 (segments_of pages.now.words.now)) }
{
    let mut p = 0;
    let mut rows = 0;
    while p < pages.count {
        if pages.kind(p) == kind {
            rows += 1;
        }
        p += pages.size(p);
    }
    rows
}

// ---- the listing

// A section: its name and the count of its rows, and the rows.
fn put_section(out: &mut [u8], at: usize, name: &[u8], pages: &Pages, kind: Kind) -> usize
    requires { Bounded at (section_text name.now (rows_of (kind_number kind) 0 (segments_of pages.now.words.now))) }
    ensures { Wrote out.old at (section_text name.now (rows_of (kind_number kind) 0 (segments_of pages.now.words.now))) result out.new }
{
    let rows = count_rows(pages, kind);
    let next = text::put_named(out, at, name, rows);
    put_rows(out, next, pages, kind)
}

// The listing's text at the front of the buffer, as far as the buffer reaches; answers the text's length. On an empty buffer it
// only measures.
pub fn put_listing(out: &mut [u8], pages: &Pages) -> usize
    ensures { Wrote out.old 0 (listing_text (shown (segments_of pages.now.words.now))) result out.new }
{
    let direct = put_section(out, 0, b"runs", pages, Kind::Run);
    let zones = put_section(out, direct, b"direct", pages, Kind::Direct);
    put_section(out, zones, b"zones", pages, Kind::Zone)
}

// Whether a text has room in a buffer, both given by their lengths.
fn has_room(len: usize, room: usize) -> bool
    ensures { result ≡ leb len room }
{
    len <= room
}

// The listing into the buffer if it has room for all of it, and its length, else refusal 12 and nothing written.
pub fn list_into(pages: &Pages, out: &mut [u8]) -> Result<u32, Refusal>
    ensures value { count_answer result ≡ list_answer (length out.old) (listing_text (shown (segments_of pages.now.words.now))) }
    ensures out_after { out.new ≡ listed_into out.old (listing_text (shown (segments_of pages.now.words.now))) }
{
    let len = put_listing(&mut [], pages);
    if !has_room(len, out.len()) {
        return Err(Refusal::ShortBuffer);
    }
    put_listing(out, pages);
    Ok(len as u32)
}
