//! What several groups of cases use.

ghost use Rattle.std.specs.Prelude.{◌≡◌, [], IfOk};

use pm_base::NoMemory;
use pm_book::Book;
use pm_gate::Ticker;
use pm_io::MemFiles;
use pm_model::Plan;
use pm_planread::PlanFault;
use std::alloc::{AllocError, Global};
use std::io;
use std::io::Print;

/// What is shown, and what the case came to.
pub type Tried = (&'static str, Result<bool, PlanFault>);

/// What a case came to.
pub fn word(case: Result<bool, PlanFault>) -> &'static str {
    match case {
        Ok(true) => "yes",
        Ok(false) => "no",
        Err(_) => "not tried, for want of memory or of a plan",
    }
}

/// Tells what is shown, and what the case came to.
pub fn tell<P: Print>(rt: &P, shown: &str, case: Result<bool, PlanFault>) -> io::Result<()> {
    println!(rt; "{shown}: {}", word(case))
}

/// The words between blanks.
pub fn words_of(alloc: Global, line: &str) -> Result<Vec<String>, AllocError> {
    let mut words = Vec::new(alloc);
    for word in line.split_whitespace() {
        words.push(String::from_str(alloc, word)?)?;
    }
    Ok(words)
}

/// The files `plan` and `trace`, whose call with this number fails; none does where it is 0.
pub fn memory_files(
    alloc: Global,
    plan: Vec<u8>,
    trace: Vec<u8>,
    fail: u64,
) -> Result<MemFiles, AllocError> {
    let fail = Vec::from_slice(alloc, &[fail])?;
    let plan = (String::from_str(alloc, "plan")?, plan);
    let trace = (String::from_str(alloc, "trace")?, trace);
    Ok(MemFiles::new(vec![in alloc; plan, trace]?, fail))
}

/// A clock that goes on by a second at each reading.
pub fn ticker(alloc: Global) -> Result<Ticker, AllocError> {
    Ok(Ticker::new(Vec::from_slice(alloc, &[0])?))
}

/// A book of the plan without lines.
pub fn fresh_book(alloc: Global, plan: Plan) -> Result<Book, NoMemory>
    ensures { IfOk result (λ book. book.lines ≡ []) }
{
    match Book::start(alloc, plan) {
        Ok(book) => Ok(book),
        Err((_plan, error)) => Err(error),
    }
}
