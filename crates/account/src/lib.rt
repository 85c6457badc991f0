// All the lent words: the groups' figures, and behind them the words of the state. Whether they begin with the words of a valid account
// (`account-iff`). Any words may be lent.
#![tactic(auto)]

ghost use Rattle.std.specs.Prelude.{◌≡◌, true, ◌+◌, ◌≤◌, ◌<◌, length};
ghost use Rattle.lemmas.specs.Below.{all_below};
ghost use Rattle.model.specs.Numbers.{most_group, most_pages, figure_words};
ghost use Rattle.model.specs.Arena.{total};
ghost use Rattle.model.specs.Holdings.{fresh_account};
ghost use Rattle.model.specs.Perform.{all_words};
ghost use Rattle.metadata.specs.Decoding.{decode, is_state};
ghost use Rattle.account.specs.Encoding.{account_encoding};
ghost use Rattle.account.specs.Decoding.{tally_fits, figures_fit, account_in, is_account};

use figures::layout::{AT_CEILING, AT_GREATEST, AT_HELD, AT_REST};
use model::numbers::{FIGURE_WORDS, GROUPS, HEADER_WORDS, MOST_BYTES, PAGE_BYTES};
use pages::find::Pages;

// ---- the check

// Whether the figures of the group at the index are those of the tally, which has the blocks of all groups and then their bytes, its
// greatest is not below what it holds, nor above the bytes of the arena, and its ceiling is not above the largest.
fn record_fits(figures: &[u32], tally: &[u32], index: usize, most: u32) -> bool
    requires { (length figures.now ≡ figure_words) × (length tally.now ≡ most_group + most_group) × (index < most_group) }
    ensures { result ≡ tally_fits figures.now tally.now most index }
{
    let held = figures[AT_HELD + index];
    let greatest = figures[AT_GREATEST + index];
    figures[index] == tally[index]
        && held == tally[GROUPS + index]
        && held <= greatest
        && greatest <= most
        && figures[AT_CEILING + index] <= MOST_BYTES
}

// Whether every group's do.
fn records_fit(figures: &[u32], tally: &[u32], most: u32) -> bool
    requires { (length figures.now ≡ figure_words) × (length tally.now ≡ most_group + most_group) }
    ensures { result ≡ all_below (tally_fits figures.now tally.now most) most_group }
{
    (0..GROUPS).all(|i| record_fits(figures, tally, i, most))
}

// Whether the figures are those of the state behind them. What each group holds is added up once.
fn figures_fit(figures: &[u32], state: &[u32]) -> bool
    requires { (length figures.now ≡ figure_words) × (is_state state.now ≡ true) }
    ensures { result ≡ figures_fit figures.now (decode state.now) }
{
    let n = metadata::pages(state);
    let e = metadata::words_for(n);
    let mut tally = [0u32; GROUPS + GROUPS];
    let pages = Pages {
        words: &state[HEADER_WORDS..e],
        count: n,
    };
    tally::tally(&pages, &mut tally);
    if !records_fit(figures, &tally, n as u32 * PAGE_BYTES) {
        return false;
    }
    scan::is_zero(&figures[AT_REST..FIGURE_WORDS])
}

// Whether the words begin with the encoding of a valid account.
pub fn check(words: &[u32]) -> bool
    ensures { result ≡ is_account words.now }
{
    if words.len() < FIGURE_WORDS {
        return false;
    }
    if !metadata::check(&words[FIGURE_WORDS..]) {
        return false;
    }
    figures_fit(&words[..FIGURE_WORDS], &words[FIGURE_WORDS..])
}

// ---- the words as a whole

// The words of an arena of n pages.
pub fn words_for(n: usize) -> usize
    requires { n ≤ most_pages }
    ensures { result ≡ all_words n }
{
    FIGURE_WORDS + metadata::words_for(n)
}

// The pages of the arena with whose words the words begin.
pub fn pages(words: &[u32]) -> usize
    requires { is_account words.now ≡ true }
    ensures { result ≡ total (account_in words.now).state.segments }
{
    metadata::pages(&words[FIGURE_WORDS..])
}

// Sets the words up for an arena of so many pages, all free, with nothing held and the largest ceilings, whatever they held.
pub fn set_up(words: &mut [u32], pages: u32)
    requires { (length words.old ≡ all_words pages) × (0 < pages) × (pages ≤ most_pages) }
    ensures { words.new ≡ account_encoding (fresh_account pages) }
{
    figures::set_up(&mut words[..FIGURE_WORDS]);
    metadata::set_up(&mut words[FIGURE_WORDS..], pages);
}
