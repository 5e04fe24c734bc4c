//! What is told of a file.

ghost use Rattle.std.specs.Prelude.{◌≡◌, ◌≤◌, All, IfOk, length};
ghost use Rattle.pm_say_driver.specs.Told.{SaysFile, TellsOwn, TellsRefusal, kind_told, warned_told};

use crate::counts::driver_counts;
use crate::lints::lint_notes;
use crate::refused::driver_refused_text;
use crate::tree_words::has_driver_words;
use pm_base::NoMemory;
use pm_driver_read::{Driver, DriverFault, DriverRefusal, read_driver};
use pm_messages::located::{Located, of_note, push_each};
use pm_messages::notes::Note;
use pm_planread::tree::document;
use pm_say::{Kind, Said, say};
use pm_spans::source::push;
use std::alloc::Global;

/// Warnings that are told, at most.
const MOST: usize = 100;

/// Whether bytes have a driver's words, and not a plan's alone.
fn is_of_driver(alloc: Global, bytes: &[u8]) -> Result<bool, NoMemory> {
    match document(alloc, bytes)? {
        Some(tree) => Ok(has_driver_words(&tree)),
        None => Ok(false),
    }
}

/// The warnings of a driver with their places.
fn warnings_of(alloc: Global, bytes: &[u8], driver: &Driver) -> Result<Vec<Located>, NoMemory>
    ensures in_text { IfOk result (λ all. All (λ located. located.span.end ≤ length bytes.now) all.items) }
    ensures few { IfOk result (λ all. length all.items ≤ 100) }
{
    let mut all = all_warnings(alloc, bytes, driver)?;
    all.truncate(MOST);
    Ok(all)
}

fn all_warnings(alloc: Global, bytes: &[u8], driver: &Driver) -> Result<Vec<Located>, NoMemory>
    ensures { IfOk result (λ all. All (λ located. located.span.end ≤ length bytes.now) all.items) }
{
    match document(alloc, bytes)? {
        Some(tree) => located_in(alloc, bytes, lint_notes(alloc, &tree, driver)?),
        None => Ok(Vec::new(alloc)),
    }
}

/// Notes with their places.
fn located_in(alloc: Global, bytes: &[u8], notes: Vec<Note>) -> Result<Vec<Located>, NoMemory>
    ensures { IfOk result (λ all. All (λ located. located.span.end ≤ length bytes.now) all.items) }
{
    let mut all = Vec::new(alloc);
    for note in notes {
        all.push(of_note(alloc, bytes, note)?)?;
    }
    Ok(all)
}

/// The kind of a driver with these warnings.
fn kind_of(warnings: &[Located]) -> Kind
    ensures { result ≡ kind_told warnings.now }
{
    if warnings.is_empty() {
        Kind::Clean
    } else {
        Kind::Warned
    }
}

/// The text of warnings, and behind the name of the file how much it has.
fn warned_text(
    alloc: Global,
    file: &[u8],
    bytes: &[u8],
    warnings: &[Located],
    counts: &[u8],
) -> Result<Vec<u8>, NoMemory>
    requires { All (λ located. located.span.end ≤ length bytes.now) warnings.now }
    ensures { IfOk result (λ text. text.items ≡ warned_told file.now bytes.now warnings.now counts.now) }
{
    let mut text = Vec::new(alloc);
    push_each(alloc, &mut text, file, bytes, "warning", warnings)?;
    push(&mut text, file)?;
    push(&mut text, counts)?;
    Ok(text)
}

/// Tells of a driver, whose text these bytes are.
fn told_driver(alloc: Global, file: &[u8], bytes: &[u8], driver: &Driver) -> Result<Said, NoMemory>
    ensures { IfOk result (TellsOwn file.now bytes.now) }
{
    let warnings = warnings_of(alloc, bytes, driver)?;
    let counts = driver_counts(alloc, driver)?;
    let seen = warnings.as_slice();
    let text = warned_text(alloc, file, bytes, seen, counts.as_slice())?;
    Ok(Said {
        text,
        kind: kind_of(seen),
    })
}

/// Tells of a refusal.
fn told_refusal(
    alloc: Global,
    file: &[u8],
    bytes: &[u8],
    refusal: DriverRefusal,
) -> Result<Said, NoMemory>
    ensures { IfOk result (TellsRefusal file.now bytes.now refusal) }
{
    Ok(Said {
        text: driver_refused_text(alloc, file, bytes, refusal)?,
        kind: Kind::Refused,
    })
}

/// Tells of the bytes of a plan's or a driver's file: of a refused driver the first refusal, which is that of
/// `read_driver`, with its place, the line that it stands on and what may have been meant; of a driver what looks wrong in
/// it, and how much it has; and of any other file what `say` of `pm_say` tells. `file` is how the file is called. Fails
/// where memory runs out.
#[tactic(auto, using(crate::proofs::TellsLemmas::says_refusal, crate::proofs::TellsLemmas::says_own, crate::proofs::TellsLemmas::says_plan, crate::proofs::TellsLemmas::says_other))]
pub fn say_file(alloc: Global, file: &[u8], bytes: &[u8]) -> Result<Said, NoMemory>
    ensures { IfOk result (SaysFile file.now bytes.now) }
{
    match read_driver(alloc, bytes) {
        Ok(driver) => {
            if driver.is_plan {
                say(alloc, file, bytes)
            } else {
                told_driver(alloc, file, bytes, &driver)
            }
        }
        Err(DriverFault::Refused { refusal }) => {
            if is_of_driver(alloc, bytes)? {
                told_refusal(alloc, file, bytes, refusal)
            } else {
                say(alloc, file, bytes)
            }
        }
        Err(DriverFault::NoMemory) => Err(NoMemory),
    }
}
