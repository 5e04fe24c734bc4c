//! What is told of each expectation in a run.

ghost use Rattle.std.specs.Prelude.{◌≡◌, ◌++◌, IfOk, OnOk, reverse};
ghost use Rattle.pm_expect_report.specs.trace.Items.{answers_in, ends_in, items_in, uses_in};
ghost use Rattle.pm_expect.specs.Over.{AreOver};
ghost use Rattle.pm_expect.specs.verdicts.Calls.{returns};

use pm_base::NoMemory;
use pm_book::Book;
use pm_expect::Expectations;
use pm_expect::text::{Item, answer_items, end_items, use_items};
use pm_expect::uses::uses;
use pm_expect::verdicts::{Return, answers, ends, returns};
use pm_laws::bounds::lines_are_bounded;
use std::alloc::Global;

/// What is told of the answers, by the calls that have returned.
fn answers_in(
    alloc: Global,
    book: &Book,
    all: &[Return],
    expected: &Expectations,
) -> Result<Vec<Item>, NoMemory>
    requires { all.now ≡ returns book.now.lines }
    ensures { IfOk result (λ items. items.items ≡ answers_in book.now.plan book.now.lines expected.now) }
{
    let plan = book.plan();
    let judged = answers(alloc, plan, all, expected.answers.as_slice())?;
    answer_items(alloc, plan, &judged)
}

/// What is told of the ends.
fn ends_in(alloc: Global, book: &Book, expected: &Expectations) -> Result<Vec<Item>, NoMemory>
    requires { AreOver book.now.plan expected.now }
    ensures { IfOk result (λ items. items.items ≡ ends_in book.now.plan book.now.lines expected.now) }
{
    lines_are_bounded();
    let plan = book.plan();
    let number = book.lines().len() as u32;
    let judged = ends(
        alloc,
        plan,
        book.parts(),
        number,
        book.finished(),
        expected.ends.as_slice(),
    )?;
    end_items(alloc, plan, &judged)
}

/// What is told of the uses, by the calls that have returned.
fn uses_in(
    alloc: Global,
    book: &Book,
    all: &[Return],
    expected: &Expectations,
) -> Result<Vec<Item>, NoMemory>
    requires over { AreOver book.now.plan expected.now }
    requires returned { all.now ≡ returns book.now.lines }
    ensures { IfOk result (λ items. items.items ≡ uses_in book.now.plan book.now.lines expected.now) }
{
    lines_are_bounded();
    let plan = book.plan();
    let judged = uses(alloc, plan, book.lines(), all, expected.uses.as_slice())?;
    use_items(alloc, plan, &judged)
}

/// Appends items.
fn append(items: &mut Vec<Item>, more: Vec<Item>) -> Result<(), NoMemory>
    ensures { OnOk result (items.new.items ≡ items.old.items ++ more.items) }
{
    let mut more = more;
    items.append(&mut more)?;
    Ok(())
}

/// What is told of each expectation in the run of a book. Fails where memory runs out.
pub(crate) fn items_in(
    alloc: Global,
    book: &Book,
    expected: &Expectations,
) -> Result<Vec<Item>, NoMemory>
    requires { AreOver book.now.plan expected.now }
    ensures { IfOk result (λ items. items.items ≡ items_in book.now.plan book.now.lines expected.now) }
{
    lines_are_bounded();
    let all = returns(alloc, book.plan(), book.lines())?;
    let mut items = answers_in(alloc, book, &all, expected)?;
    append(&mut items, ends_in(alloc, book, expected)?)?;
    append(&mut items, uses_in(alloc, book, &all, expected)?)?;
    Ok(items)
}
