//! The text of a refusal.

ghost use Rattle.std.specs.Prelude.{◌≡◌, ◌≤◌, ◌++◌, All, IfOk, OnOk, length};
ghost use Rattle.pm_say_driver.specs.Refused.{TellsDriver, refused_told, device_word, key_word, numbered, program_word, refusal_line, script_word};

use crate::devices::device_note;
use crate::keys::{own_key_note, own_kind_note, words_note};
use crate::scripts::{devm_note, flag_note, script_note};
use crate::steps::step_note;
use pm_base::NoMemory;
use pm_driver_read::{
    DeviceRefusal, DeviceWhy, DriverRefusal, KeyRefusal, KeyWhy, ProgramRefusal, ProgramWhy,
    further_refusals,
};
use pm_driver_script::ScriptWhy;
use pm_messages::located::{Located, of_long_text, of_no_toml, of_note, push_each, push_located};
use pm_messages::notes::{Note, item_path, list};
use pm_planread::tree::{Section, document};
use pm_planread::{PlanWhy, refusal_message};
use pm_say::further::Refusal;
use pm_say::notes::note_of;
use pm_spans::source::{push, push_number};
use std::alloc::Global;
use toml::Table;

/// The key of this number of an item, in byte order.
fn key_of(tree: &Table, section: Section, item: usize, number: usize) -> Option<&str> {
    let table = list(tree, section).get(item)?.as_table()?;
    let mut left = number;
    for key in table.keys() {
        if left == 0 {
            return Some(key.as_str());
        }
        left -= 1;
    }
    None
}

/// The note on a plan's refusal.
fn plan_note<'a>(
    alloc: Global,
    tree: &'a Table,
    why: PlanWhy,
    section: Section,
    item: u32,
    part: u32,
) -> Result<Note<'a>, NoMemory> {
    if let PlanWhy::Key = why {
        if let Some(key) = key_of(tree, section, item as usize, part as usize) {
            if let Some(note) = own_key_note(alloc, tree, section, item as usize, key)? {
                return Ok(note);
            }
        }
    }
    if let PlanWhy::Kind = why {
        if let Some(key) = key_of(tree, section, item as usize, part as usize) {
            if let Some(note) = own_kind_note(alloc, tree, section, item as usize, key)? {
                return Ok(note);
            }
        }
    }
    if let PlanWhy::Repeat = why {
        if let Section::Device = section {
            if list(tree, Section::Device).len() <= item as usize {
                return flag_note(alloc, tree);
            }
        }
    }
    let refusal = Refusal {
        why,
        section,
        item,
        part,
    };
    note_of(alloc, tree, refusal)
}

/// The note on a refusal of scripts.
fn program_note<'a>(
    alloc: Global,
    tree: &'a Table,
    refusal: ProgramRefusal,
) -> Result<Note<'a>, NoMemory> {
    let (caller, step) = (refusal.caller, refusal.step);
    let message = match refusal.why {
        ProgramWhy::Step { fault } => return step_note(alloc, tree, caller, step, fault),
        ProgramWhy::Script { why } => return script_note(alloc, tree, caller, step, why),
        ProgramWhy::Devm => return devm_note(alloc, tree, caller, step),
        ProgramWhy::ManyDevm => format!(in alloc; "more than 64 steps that are undone by devm")?,
        ProgramWhy::ManyForced => format!(in alloc;
            "more than 64 devices that are resumed by force"
        )?,
        ProgramWhy::ManyFlags => format!(in alloc; "more flags than devices may be left of 1024")?,
        ProgramWhy::ManyMarks => format!(in alloc; "more than 64 marks")?,
        ProgramWhy::ManyLocks => format!(in alloc; "more than 64 locks")?,
        ProgramWhy::ManyPlaces => {
            let message = format!(in alloc;
                "a script with more than 1000 places, which are its steps once for each turn and for each way that has come differently far"
            )?;
            return Ok(Note::on_key(alloc, message, item_path(Section::Caller, caller)));
        }
    };
    Ok(Note::on_text(alloc, message))
}

/// The note on a refusal of a tree.
fn driver_note<'a>(
    alloc: Global,
    tree: &'a Table,
    refusal: DriverRefusal,
) -> Result<Note<'a>, NoMemory> {
    match refusal {
        DriverRefusal::Plan {
            why,
            section,
            item,
            part,
        } => plan_note(alloc, tree, why, section, item, part),
        DriverRefusal::Key { refusal } => words_note(alloc, tree, refusal),
        DriverRefusal::Program { refusal } => program_note(alloc, tree, refusal),
        DriverRefusal::Device { refusal } => device_note(alloc, tree, refusal),
    }
}

/// What is told of a refusal of these bytes, with its token. Fails where memory runs out.
fn locate(alloc: Global, bytes: &[u8], refusal: DriverRefusal) -> Result<Located, NoMemory>
    ensures { IfOk result (λ located. located.span.end ≤ length bytes.now) }
{
    if let DriverRefusal::Plan {
        why: PlanWhy::TooLong,
        ..
    } = refusal
    {
        return of_long_text(alloc, bytes);
    }
    match document(alloc, bytes)? {
        Some(tree) => {
            let note = driver_note(alloc, &tree, refusal)?;
            of_note(alloc, bytes, note)
        }
        None => of_no_toml(alloc, bytes),
    }
}

/// Refusals that are told besides the first, at most.
const MOST: usize = 19;

/// What is told of refusals of these bytes besides the one that is told already, in the order of the text.
fn others(alloc: Global, bytes: &[u8], told: DriverRefusal) -> Result<Vec<Located>, NoMemory>
    ensures in_text { IfOk result (λ all. All (λ located. located.span.end ≤ length bytes.now) all.items) }
    ensures few { IfOk result (λ all. length all.items ≤ 19) }
{
    let mut all = all_others(alloc, bytes, told)?;
    all.sort_by_key(|located| located.span.start)?;
    all.truncate(MOST);
    Ok(all)
}

fn all_others(alloc: Global, bytes: &[u8], told: DriverRefusal) -> Result<Vec<Located>, NoMemory>
    ensures { IfOk result (λ all. All (λ located. located.span.end ≤ length bytes.now) all.items) }
{
    if let DriverRefusal::Plan { .. } = told {
        return Ok(Vec::new(alloc));
    }
    match document(alloc, bytes)? {
        Some(tree) => {
            let refusals = further_refusals(alloc, &tree, told)?;
            located_in(alloc, bytes, &tree, refusals.as_slice())
        }
        None => Ok(Vec::new(alloc)),
    }
}

/// What is told of refusals of a tree, one after the other.
fn located_in(
    alloc: Global,
    bytes: &[u8],
    tree: &Table,
    refusals: &[DriverRefusal],
) -> Result<Vec<Located>, NoMemory>
    ensures { IfOk result (λ all. All (λ located. located.span.end ≤ length bytes.now) all.items) }
{
    let mut all = Vec::new(alloc);
    for refusal in refusals {
        let note = driver_note(alloc, tree, *refusal)?;
        all.push(of_note(alloc, bytes, note)?)?;
    }
    Ok(all)
}

/// Appends a line of a word and two numbers.
fn push_line(out: &mut Vec<u8>, word: &[u8], item: usize, part: usize) -> Result<(), NoMemory>
    ensures { OnOk result (out.new.items ≡ out.old.items ++ numbered word.now item part) }
{
    push(out, b"driver: ")?;
    push(out, word)?;
    push(out, b" ")?;
    push_number(out, item)?;
    push(out, b" ")?;
    push_number(out, part)?;
    push(out, b"\n")
}

fn key_word(why: KeyWhy) -> &'static [u8]
    ensures { result.now ≡ key_word why }
{
    match why {
        KeyWhy::Times => b"times",
        KeyWhy::Role => b"role",
        KeyWhy::Bus => b"bus",
        KeyWhy::Binds => b"binds",
        KeyWhy::Alone => b"alone",
        KeyWhy::Adopts => b"adopts",
        KeyWhy::After => b"after",
        KeyWhy::Mark => b"mark",
        KeyWhy::Circle => b"circle",
    }
}

fn script_word(why: ScriptWhy) -> &'static [u8]
    ensures { result.now ≡ script_word why }
{
    match why {
        ScriptWhy::Twice => b"twice",
        ScriptWhy::NoCaller => b"no_caller",
        ScriptWhy::NoLabel => b"no_label",
        ScriptWhy::Behind => b"behind",
    }
}

fn program_word(why: ProgramWhy) -> &'static [u8]
    ensures { result.now ≡ program_word why }
{
    match why {
        ProgramWhy::Step { .. } => b"step",
        ProgramWhy::Devm => b"devm",
        ProgramWhy::ManyDevm => b"many_devm",
        ProgramWhy::ManyForced => b"many_forced",
        ProgramWhy::ManyFlags => b"many_flags",
        ProgramWhy::ManyMarks => b"many_marks",
        ProgramWhy::ManyLocks => b"many_locks",
        ProgramWhy::Script { why } => script_word(why),
        ProgramWhy::ManyPlaces => b"many_places",
    }
}

fn device_word(why: DeviceWhy) -> &'static [u8]
    ensures { result.now ≡ device_word why }
{
    match why {
        DeviceWhy::Fails => b"fails",
        DeviceWhy::Codes => b"codes",
    }
}

/// Appends the line of a refusal, by which a program can go.
fn push_refusal(out: &mut Vec<u8>, refusal: DriverRefusal) -> Result<(), NoMemory>
    ensures { OnOk result (out.new.items ≡ out.old.items ++ refusal_line refusal) }
{
    match refusal {
        DriverRefusal::Plan {
            why,
            section,
            item,
            part,
        } => push(out, refusal_message(why, section, item, part).as_slice()),
        DriverRefusal::Key {
            refusal: KeyRefusal { why, caller, part },
        } => push_line(out, key_word(why), caller, part),
        DriverRefusal::Program {
            refusal: ProgramRefusal { caller, step, why },
        } => push_line(out, program_word(why), caller, step),
        DriverRefusal::Device {
            refusal: DeviceRefusal { why, device, part },
        } => push_line(out, device_word(why), device, part),
    }
}

/// The text of a refusal and of others, each with its token, and as the last line the refusal's own.
fn text_of(
    alloc: Global,
    file: &[u8],
    bytes: &[u8],
    refusal: DriverRefusal,
    located: &Located,
    others: &[Located],
) -> Result<Vec<u8>, NoMemory>
    requires own { located.now.span.end ≤ length bytes.now }
    requires others { All (λ located. located.span.end ≤ length bytes.now) others.now }
    ensures { IfOk result (λ text. text.items ≡ refused_told file.now bytes.now refusal located.now others.now) }
{
    let mut out = Vec::new(alloc);
    push_located(alloc, &mut out, file, bytes, "error", located)?;
    push_each(alloc, &mut out, file, bytes, "error", others)?;
    push_refusal(&mut out, refusal)?;
    Ok(out)
}

/// The text that is told of a refusal of these bytes: its place as `FILE:LINE:COLUMN: error:`, a message, the line with
/// the token underlined and lines that help; the same of other refusals; and as the last line a word and two numbers.
/// `file` is how the file is called. Fails where memory runs out.
#[tactic(auto, using(crate::proofs::TellsLemmas::tells_refusal))]
pub fn driver_refused_text(
    alloc: Global,
    file: &[u8],
    bytes: &[u8],
    refusal: DriverRefusal,
) -> Result<Vec<u8>, NoMemory>
    ensures { IfOk result (λ text. TellsDriver file.now bytes.now refusal text.items) }
{
    let located = locate(alloc, bytes, refusal)?;
    let others = others(alloc, bytes, refusal)?;
    let seen = others.as_slice();
    text_of(alloc, file, bytes, refusal, &located, seen)
}
