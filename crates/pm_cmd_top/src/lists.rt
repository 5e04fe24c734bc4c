//! The lists of all islands, and their merge.

ghost use Rattle.std.specs.Prelude.{◌≡◌, ◌≤◌, ◌<◌, ◌^◌, IfNone, IfOk, IfSome, MatchOption, length, map, option_map, reverse};
ghost use Rattle.pm_model.specs.Islands.{Numbering, merged};
ghost use Rattle.pm_islands.specs.Next.{AreInTime};
ghost use Rattle.pm_islands.specs.Numbers.{IsIsland};
ghost use Rattle.pm_cmd_top.specs.Gathering.{AllFinish, EachIsWhole, Finishes, Gathered, IsCutOn, IsFinishedRun, SomeIsCut, lists};

use crate::books::finished;
use pm_base::NoMemory;
use pm_book::Book;
use pm_islands::{islands, merge, part};
use pm_laws::bounds::lines_are_of_plan;
use pm_laws::islands::merge_is_lawful;
use pm_model::{Line, Plan};
use std::alloc::Global;

// The finished book of an island, from the one that came from behind its lock; none where it has all lines
// that the plan allows and isn't finished.
fn finish_island(
    alloc: Global,
    plan: &Plan,
    island: u32,
    book: Book,
) -> Result<Option<Book>, NoMemory>
    requires { IsIsland plan.now island }
    ensures { IfOk result (λ o. MatchOption o (IsCutOn plan.now island book) (Finishes plan.now island book)) }
{
    let part = part(alloc, plan, island)?;
    finished(alloc, part, book)
}

// The finished books of the islands, in their order; none where one has all lines that the plan allows and
// isn't finished.
fn finish_all(
    alloc: Global,
    plan: &Plan,
    count: u32,
    books: Vec<Book>,
) -> Result<Option<Vec<Book>>, NoMemory>
    requires numbering { Numbering plan.now count }
    requires one_each { length books.items ≡ count }
    ensures { IfOk result (λ o. MatchOption o (SomeIsCut plan.now books.items)
        (λ done. AllFinish plan.now books.items done.items)) }
{
    let mut done = Vec::new(alloc);
    for book in books {
        let island = done.len() as u32;
        match finish_island(alloc, plan, island, book)? {
            Some(book) => done.push(book)?,
            None => return Ok(None),
        }
    }
    Ok(Some(done))
}

// The lines of a book, in order.
#[tactic(auto, using(crate::proofs::GatherLemmas::reverse_back))]
fn lines_of(book: &Book) -> &[Line]
    ensures { result.now ≡ reverse book.now.lines }
{
    book.lines()
}

// The lists of books.
fn lists_of(alloc: Global, books: &[Book]) -> Result<Vec<&[Line]>, NoMemory>
    ensures { IfOk result (λ all. map (λ lines. lines.now) all.items ≡ lists books.now) }
{
    let mut all = Vec::new(alloc);
    for book in books {
        all.push(lines_of(book))?;
    }
    Ok(all)
}

// The lines of the books, merged; none where there are more than this.
fn merge_within(alloc: Global, books: &[Book], most: usize) -> Result<Option<Vec<Line>>, NoMemory>
    requires small { most < 2 ^ 32 }
    requires in_time { AreInTime (lists books.now) }
    ensures few { IfOk result (λ o. IfSome o (λ lines. length lines.items ≤ most)) }
    ensures merged { IfOk result (λ o. IfSome o (λ lines. lines.items ≡ merged (lists books.now))) }
    ensures more { IfOk result (λ o. IfNone o (most < length (merged (lists books.now)))) }
{
    let all = lists_of(alloc, books)?;
    let lines = merge(alloc, all.as_slice(), most + 1)?;
    if lines.len() > most {
        return Ok(None);
    }
    Ok(Some(lines))
}

// The lines of finished books of all islands, merged; none where the plan doesn't allow so many.
fn gather_whole(
    alloc: Global,
    plan: &Plan,
    count: u32,
    books: &[Book],
) -> Result<Option<Vec<Line>>, NoMemory>
    requires numbering { Numbering plan.now count }
    requires one_each { length books.now ≡ count }
    requires each { EachIsWhole plan.now books.now }
    ensures run { IfOk result (λ o. IfSome o (λ lines. IsFinishedRun plan.now lines.items)) }
    ensures few { IfOk result (λ o. IfSome o (λ lines. length lines.items ≤ plan.now.lines)) }
    ensures merged { IfOk result (λ o. IfSome o (λ lines. lines.items ≡ merged (lists books.now))) }
    ensures more { IfOk result (λ o. IfNone o (plan.now.lines < length (merged (lists books.now)))) }
{
    merge_is_lawful();
    lines_are_of_plan();
    merge_within(alloc, books, plan.lines as usize)
}

/// The lines of a finished run of the plan, merged from the books of its islands, one for each, in their
/// order, as they come from behind their locks. A book that isn't of its island's part, or that there isn't
/// time for, is replaced by a fresh one; each is drained. There are none exactly where an island's run isn't
/// finished with all the lines that the plan allows, where the merge has more than those, or where there
/// aren't as many books as islands. Fails where memory runs out.
pub fn gather(alloc: Global, plan: &Plan, books: Vec<Book>) -> Result<Option<Vec<Line>>, NoMemory>
    ensures run { IfOk result (λ o. IfSome o (λ lines. IsFinishedRun plan.now lines.items)) }
    ensures gathered { IfOk result (λ o. Gathered plan.now books.items (option_map (λ lines. lines.items) o)) }
{
    let count = islands(plan);
    if books.len() != count as usize {
        return Ok(None);
    }
    let Some(done) = finish_all(alloc, plan, count, books)? else {
        return Ok(None);
    };
    gather_whole(alloc, plan, count, done.as_slice())
}
