// The public calls. Any words may be lent: every call but `init` first checks that they begin with the words of a valid account, and is
// refused otherwise. specs/Calls.antt says what each call answers and leaves; proofs/Promises.antt what follows from it. A group's call
// that is not refused steps the figures of that group, and no others; so does the setting of its ceiling.
#![tactic(auto)]

ghost use Rattle.std.specs.Prelude.{◌≡◌, length, Result, Ok, Err, Option, Some, None};
ghost use Rattle.model.specs.Calls as rules;
ghost use Rattle.model.specs.Calls.{told_by, request_answer, count_answer, plain_answer};
ghost use Rattle.model.specs.declared.Operation.TheVariants as operation;
ghost use Rattle.model.specs.declared.Refusal.TheVariants as refusal;
ghost use Rattle.calls.specs.Calls.{state_of, answer_of, meta_after, text_after, list_after};
ghost use Rattle.model.specs.Sizes.{room_for};
ghost use Rattle.classes.specs.Table.{class_for};
ghost use Rattle.account.specs.Decoding.{account_in};
ghost use Rattle.calls.specs.Arena.{pages_of, Arena, Accepted};

use model::groups::Group;
use model::numbers::{FIGURE_WORDS, HEADER_WORDS, MOST_BYTES, MOST_PAGES};
use model::{Answer, Call, Denial, Grant, Holding, Operation, Refusal};
use pages::find::Pages;

// The words in front of those of the pages.
const FIXED_WORDS: usize = FIGURE_WORDS + HEADER_WORDS;

// The pages of the arena with whose words the words begin, if they begin with the words of a valid account.
fn arena_pages(meta: &[u32]) -> Option<usize>
    ensures { result ≡ pages_of (state_of meta.now) }
{
    if !account::check(meta) {
        return None;
    }
    Some(account::pages(meta))
}

// Sets the words up for an arena of so many pages, all free, whatever the words held.
pub fn init(meta: &mut [u32], pages: u32) -> Answer
    ensures value { result ≡ answer_of meta.old (rules.init pages) }
    ensures meta_after { meta.new ≡ meta_after meta.old (rules.init pages) }
{
    if pages == 0 || MOST_PAGES < pages {
        return Answer::Refused(Refusal::BadPages);
    }
    let e = account::words_for(pages as usize);
    if meta.len() < e {
        return Answer::Refused(Refusal::FewWords);
    }
    account::set_up(&mut meta[..e], pages);
    Answer::Done
}

// Gives back every zone that has no live chunk, and answers how many there were.
pub fn trim(meta: &mut [u32]) -> Answer
    ensures value { result ≡ answer_of meta.old (rules.act rules.trim) }
    ensures meta_after { meta.new ≡ meta_after meta.old (rules.act rules.trim) }
{
    let Some(n) = arena_pages(meta) else {
        return Answer::Refused(Refusal::NoState);
    };
    let e = account::words_for(n);
    let count = trim::trim_all(&mut meta[FIGURE_WORDS..e], n);
    Answer::Counted(count)
}

// The group and the room of the live block that begins at the offset. The words are only read. (By `match`: a `From` of what `describe`
// answers would stand in `model`, which does not know it.)
pub fn query(meta: &mut [u32], offset: u32) -> Answer
    ensures value { result ≡ answer_of meta.old (rules.act (rules.query offset)) }
    ensures meta_after { meta.new ≡ meta_after meta.old (rules.act (rules.query offset)) }
{
    let Some(n) = arena_pages(meta) else {
        return Answer::Refused(Refusal::NoState);
    };
    let e = account::words_for(n);
    match blocks::describe(&meta[FIGURE_WORDS..e], n, offset) {
        Ok(told) => Answer::Block(told.group, told.room),
        Err(refusal) => Answer::Refused(refusal),
    }
}

// Writes the arena's listing to the front of the buffer, if it has room for all of it, and answers the listing's bytes. The words are
// only read.
pub fn listing(meta: &mut [u32], text: &mut [u8]) -> Answer
    ensures value { result ≡ answer_of meta.old (rules.act (rules.listing (length text.old))) }
    ensures meta_after { meta.new ≡ meta_after meta.old (rules.act (rules.listing (length text.old))) }
    ensures text_after { text.new ≡ text_after meta.old text.old }
{
    let Some(n) = arena_pages(meta) else {
        return Answer::Refused(Refusal::NoState);
    };
    let e = account::words_for(n);
    let pages = Pages {
        words: &meta[FIXED_WORDS..e],
        count: n,
    };
    Answer::from(listing::list_into(&pages, text))
}

// Writes what each group holds, group 1 first, to the list, if it has as many records as there are groups. The words are only read.
pub fn holdings(meta: &mut [u32], list: &mut [Holding]) -> Answer
    ensures value { result ≡ answer_of meta.old (rules.act (rules.holdings (length list.old))) }
    ensures meta_after { meta.new ≡ meta_after meta.old (rules.act (rules.holdings (length list.old))) }
    ensures list_after { list.new ≡ list_after meta.old list.old }
{
    if account::check(meta) {
        Answer::from(figures::fill(meta, list))
    } else {
        Answer::Refused(Refusal::NoState)
    }
}

// Sets the ceiling of a group, in bytes. What the group holds stays, even where it is more.
pub fn set_ceiling(meta: &mut [u32], group: u32, ceiling: u32) -> Answer
    ensures value { result ≡ answer_of meta.old (rules.act (rules.ceiling group ceiling)) }
    ensures meta_after { meta.new ≡ meta_after meta.old (rules.act (rules.ceiling group ceiling)) }
{
    if arena_pages(meta).is_none() {
        return Answer::Refused(Refusal::NoState);
    }
    let Ok(group) = Group::try_from(group) else {
        return Answer::Refused(Refusal::BadGroup);
    };
    if MOST_BYTES < ceiling {
        return Answer::Refused(Refusal::BadSize);
    }
    figures::steps::cap(&mut meta[..FIGURE_WORDS], group, ceiling);
    Answer::Done
}

// The group is granted a block of so many bytes, if the pages that it needs are found. (A struct of meta and n that holds the fact `Arena`
// would be no plainer: between the step of the state and that of the figures the words are no account's.)
fn grant_in(
    meta: &mut [u32],
    n: usize,
    group: Group,
    size: u32,
    class: u32,
    room: u32,
) -> Result<Grant, Denial>
    requires arena { Arena meta.old n × Accepted (account_in meta.old) group.number size }
    requires size_told { (class ≡ class_for size) × (room ≡ room_for size) }
    ensures value { request_answer result ≡ answer_of meta.old (rules.act (rules.group (record { group = group.number; operation = operation.Allocate size }))) }
    ensures meta_after { meta.new ≡ meta_after meta.old (rules.act (rules.group (record { group = group.number; operation = operation.Allocate size }))) }
{
    let e = account::words_for(n);
    let grant = allocate::supply(&mut meta[FIGURE_WORDS..e], n, group, size, class)?;
    figures::steps::add(&mut meta[..FIGURE_WORDS], group, room);
    Ok(grant)
}

// A group asks for a block of so many bytes: what is refused before any run is looked at, in its order, 4, 5, 10. The class is looked up
// once, for the chunk and for its room.
fn allocate_in(meta: &mut [u32], n: usize, group: u32, size: u32) -> Result<Grant, Denial>
    requires { Arena meta.old n }
    ensures value { request_answer result ≡ answer_of meta.old (rules.act (rules.group (record { group = group; operation = operation.Allocate size }))) }
    ensures meta_after { meta.new ≡ meta_after meta.old (rules.act (rules.group (record { group = group; operation = operation.Allocate size }))) }
{
    let group = Group::try_from(group)?;
    if !allocate::size_ok(size) {
        return Err(Denial::from(Refusal::BadSize));
    }
    let class = classes::class_for(size);
    let room = allocate::room_for(size, class);
    if !figures::within(&meta[..FIGURE_WORDS], group, room) {
        return Err(Denial::from(Refusal::OverCeiling));
    }
    grant_in(meta, n, group, size, class, room)
}

// The group's block that begins at the offset comes back. Its room is told before it does, for the figures; whether there is a
// block, `free` says.
fn free_in(meta: &mut [u32], n: usize, group: u32, offset: u32) -> Result<(), Refusal>
    requires { Arena meta.old n }
    ensures value { plain_answer result ≡ answer_of meta.old (rules.act (rules.group (record { group = group; operation = operation.Free offset }))) }
    ensures meta_after { meta.new ≡ meta_after meta.old (rules.act (rules.group (record { group = group; operation = operation.Free offset }))) }
{
    let asker = Group::try_from(group)?;
    let e = account::words_for(n);
    let told = blocks::describe(&meta[FIGURE_WORDS..e], n, offset);
    free::free(&mut meta[FIGURE_WORDS..e], n, group, offset)?;
    figures::steps::take(&mut meta[..FIGURE_WORDS], asker, told?.room);
    Ok(())
}

// All the group's blocks come back; answers how many there were.
fn reset_in(meta: &mut [u32], n: usize, group: u32) -> Result<u32, Refusal>
    requires { Arena meta.old n }
    ensures value { count_answer result ≡ answer_of meta.old (rules.act (rules.group (record { group = group; operation = operation.Reset }))) }
    ensures meta_after { meta.new ≡ meta_after meta.old (rules.act (rules.group (record { group = group; operation = operation.Reset }))) }
{
    let asker = Group::try_from(group)?;
    let e = account::words_for(n);
    let count = reset::reset(&mut meta[FIGURE_WORDS..e], n, group)?;
    figures::steps::clear(&mut meta[..FIGURE_WORDS], asker);
    Ok(count)
}

// Refusal 3, as the group's call is told it: where a block is asked for, with the count of runs, of which none was looked at.
fn no_state(operation: Operation) -> Answer
    ensures { result ≡ told_by operation refusal.NoState }
{
    match operation {
        Operation::Allocate(_) => Answer::Denied {
            refusal: Refusal::NoState,
            looked: 0,
        },
        Operation::Free(_) | Operation::Reset => Answer::Refused(Refusal::NoState),
    }
}

// A group's call: it asks for a block, gives one back, or gives back all of its blocks.
pub fn call(meta: &mut [u32], call: Call) -> Answer
    ensures value { result ≡ answer_of meta.old (rules.act (rules.group call)) }
    ensures meta_after { meta.new ≡ meta_after meta.old (rules.act (rules.group call)) }
{
    let Call { group, operation } = call;
    let Some(n) = arena_pages(meta) else {
        return no_state(operation);
    };
    match operation {
        Operation::Allocate(size) => Answer::from(allocate_in(meta, n, group, size)),
        Operation::Free(offset) => Answer::from(free_in(meta, n, group, offset)),
        Operation::Reset => Answer::from(reset_in(meta, n, group)),
    }
}
