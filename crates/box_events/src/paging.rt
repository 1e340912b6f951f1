//! The pages of a box: room for more, and what the first events fill.
ghost use Rattle.std.specs.Prelude.{◌≡◌, ◌+◌, ◌*◌, ◌<◌, ◌≤◌, ◌∷◌, ◌++◌, [], ℕ, List, OnOk, OnErr, IfOk, length, vec_len, vec_capacity};
ghost use Rattle.box_events.specs.BoxViews.{BoxView, end_of};
ghost use Rattle.box_events.specs.inner.Chains.{joined, AreChained, AreFresh, IsCut, DropsFirst};

use crate::limits::{MAX_END, PAGE_EVENTS};
use crate::page::Page;
use std::mem::replace;
use tl_base::Memory;

/// Takes memory for so many more events: in the last page, and in empty pages for those that it can't hold.
pub fn reserve_events(
    pages: &mut Vec<Page>,
    last: &mut Page,
    spares: &mut Vec<Page>,
    more: usize,
) -> Result<(), Memory>
    requires fresh { AreFresh spares.old.items }
    requires slots { vec_len pages.old + vec_len spares.old ≤ vec_capacity pages.old }
    ensures pages { pages.new.items ≡ pages.old.items }
    ensures first { last.new.first ≡ last.old.first }
    ensures events { last.new.events ≡ last.old.events }
    ensures spare { last.old.spare ≤ last.new.spare }
    ensures fresh { AreFresh spares.new.items }
    ensures slots { vec_len pages.new + vec_len spares.new ≤ vec_capacity pages.new }
    ensures more { length spares.old.items ≤ length spares.new.items }
    ensures ok { OnOk result (more ≤ last.new.spare + PAGE_EVENTS * length spares.new.items) }
{
    let left = PAGE_EVENTS - last.len();
    last.reserve(more.min(left))?;
    let pages_more = more.saturating_sub(left).div_ceil(PAGE_EVENTS);
    reserve_pages(pages, spares, pages_more)
}

// Takes memory for so many empty pages, and for their slots among the others.
fn reserve_pages(pages: &mut Vec<Page>, spares: &mut Vec<Page>, number: usize) -> Result<(), Memory>
    requires fresh { AreFresh spares.old.items }
    requires slots { vec_len pages.old + vec_len spares.old ≤ vec_capacity pages.old }
    ensures pages { pages.new.items ≡ pages.old.items }
    ensures fresh { AreFresh spares.new.items }
    ensures slots { vec_len pages.new + vec_len spares.new ≤ vec_capacity pages.new }
    ensures more { length spares.old.items ≤ length spares.new.items }
    ensures ok { OnOk result (number ≤ length spares.new.items) }
{
    if number <= spares.len() {
        return Ok(());
    }
    pages.reserve(number)?;
    spares.reserve(number - spares.len())?;
    while spares.len() < number {
        let mut page = Page::new(*pages.allocator(), 0);
        page.reserve(PAGE_EVENTS)?;
        spares.push_reserved(page);
    }
    Ok(())
}

/// Gets room for one more event in the last page. It takes memory only where no more is spare.
pub fn make_room(
    pages: &mut Vec<Page>,
    last: &mut Page,
    spares: &mut Vec<Page>,
    spare: u32,
) -> Result<(), Memory>
    requires limit { end_of last.old ≤ MAX_END }
    requires fresh { AreFresh spares.old.items }
    requires room { spare ≤ last.old.spare + PAGE_EVENTS * length spares.old.items }
    requires slots { vec_len pages.old + vec_len spares.old ≤ vec_capacity pages.old }
    ensures events { joined (pages.new.items ++ last.new ∷ []) ≡ joined (pages.old.items ++ last.old ∷ []) }
    ensures chained { (first : ℕ) → AreChained first (pages.old.items ++ last.old ∷ []) → AreChained first (pages.new.items ++ last.new ∷ []) }
    ensures end { end_of last.new ≡ end_of last.old }
    ensures fresh { AreFresh spares.new.items }
    ensures room { spare ≤ last.new.spare + PAGE_EVENTS * length spares.new.items }
    ensures slots { vec_len pages.new + vec_len spares.new ≤ vec_capacity pages.new }
    ensures ok { OnOk result (0 < last.new.spare) }
    ensures err { OnErr result (spare ≡ 0) }
{
    if last.spare() > 0 {
        return Ok(());
    }
    if spare == 0 && last.len() < PAGE_EVENTS {
        return last.reserve(1);
    }
    let next = next_page(pages, spares, last.end())?;
    pages.push_reserved(replace(last, next));
    Ok(())
}

// An empty page that begins at a number, with a slot for the last one. It takes memory only where no page is reserved.
fn next_page(pages: &mut Vec<Page>, spares: &mut Vec<Page>, first: u32) -> Result<Page, Memory>
    requires limit { first ≤ MAX_END }
    requires fresh { AreFresh spares.old.items }
    requires slots { vec_len pages.old + vec_len spares.old ≤ vec_capacity pages.old }
    ensures pages { pages.new.items ≡ pages.old.items }
    ensures first { IfOk result (λ p. p.first ≡ first) }
    ensures empty { IfOk result (λ p. p.events ≡ []) }
    ensures room { IfOk result (λ p. 0 < p.spare) }
    ensures spare { IfOk result (λ p. PAGE_EVENTS * length spares.old.items ≤ p.spare + PAGE_EVENTS * length spares.new.items) }
    ensures slot { OnOk result (vec_len pages.new + vec_len spares.new < vec_capacity pages.new) }
    ensures fresh { AreFresh spares.new.items }
    ensures err { OnErr result (length spares.old.items ≡ 0) }
    ensures err_slots { OnErr result (vec_len pages.new + vec_len spares.new ≤ vec_capacity pages.new) }
{
    if let Some(mut page) = spares.pop() {
        page.begin(first);
        return Ok(page);
    }
    let mut page = Page::new(*pages.allocator(), first);
    page.reserve(1)?;
    pages.reserve(1)?;
    Ok(page)
}

/// Drops the first events of the first page, so many, and answers the number at which the others begin.
pub fn drop_first(pages: &mut Vec<Page>, last: &mut Page, number: usize) -> u32
    requires some { (x : BoxView) (bs : List BoxView) → pages.old.items ++ last.old ∷ [] ≡ x ∷ bs → number ≤ length x.events }
    ensures drops { DropsFirst (pages.old.items ++ last.old ∷ []) (pages.new.items ++ last.new ∷ []) number result }
    ensures spare { last.new.spare ≡ last.old.spare }
    ensures len { vec_len pages.new ≡ vec_len pages.old }
    ensures capacity { vec_capacity pages.new ≡ vec_capacity pages.old }
{
    if pages.is_empty() {
        last.drop_first(number);
        return last.first();
    }
    pages[0].drop_first(number);
    pages[0].first()
}

/// How many whole pages the first `excess` events fill, and how many events are left of these.
pub fn whole_pages(pages: &[Page], excess: usize) -> (usize, usize)
    ensures { IsCut pages.now excess result.0 result.1 }
{
    let mut rest = excess;
    for (whole, page) in pages.iter().enumerate() {
        if rest < page.len() {
            return (whole, rest);
        }
        rest -= page.len();
    }
    (pages.len(), rest)
}
