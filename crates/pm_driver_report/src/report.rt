//! What is reported of a driver's file.

ghost use Rattle.std.specs.Prelude.{◌≡◌, ◌<◌, ◌≤◌, [], ◌∷◌, ◌++◌, ◌^◌, All, IfOk, OnOk, codes, flat_map, length, map};
ghost use Rattle.std.specs.List.{list_all};
ghost use Rattle.pm_driver_report.specs.Lines.{is_note};
ghost use Rattle.pm_driver_report.specs.Report.{IsRefusedPlan, IsReport, IsReportOf, ReportsDriver, is_unended, kind_reported, placed_text, placed_texts};
ghost use Rattle.pm_driver_report.specs.Rules.{IsExamined};
ghost use Rattle.pm_messages.specs.located.Told.{token_told};
ghost use Rattle.pm_spans.specs.source.Excerpts.{hint_text};
ghost use Rattle.pm_spans.specs.source.Lines.{place_text};
ghost use Rattle.pm_spans.specs.source.Visible.{visible};
ghost use Rattle.pm_driver_report.specs.Texts.{message_text, shown_text};

use crate::lines::{DriverLine, LineAt, is_note};
use crate::passes::DriverPass;
use crate::rules::{all_begin_needs, all_caller_rules, all_origins};
use crate::searched::{lists_message, may_be_searched, search_driver};
use crate::texts::{push_last, push_message, push_shown};
use crate::ways::way_of;
use pm_base::NoMemory;
use pm_driver_find::ExaminedDriver;
use pm_driver_read::Driver;
use pm_driver_rules::DriverRules;
use pm_find::text::weight_word;
use pm_lab_words::DriverBounds;
use pm_linetext::push;
use pm_messages::located::of_note;
use pm_messages::notes::{Note, element_path, key_path};
use pm_planread::tree::{Section, document};
use pm_spans::source::{Span, push_excerpt, push_hint, push_place, push_visible};
use std::alloc::Global;
use toml::Table;

/// What a driver's file came to.
#[derive(Clone, Copy)]
pub enum ReportKind {
    /// Nothing is wrong in what was gone through.
    Clean,
    /// Something is wrong.
    Found,
    /// Nothing is wrong in what was gone through, and that isn't even the schedules with no preemption.
    AtLimit,
    /// It is a plan whose callbacks answer lists of codes, which isn't gone through.
    Refused,
}

/// What is reported of a driver.
#[derive(Drop)]
pub struct DriverReport {
    pub text: Vec<u8>,
    pub kind: ReportKind,
}

/// What is reported, with its token in the file, and the calls that lead there.
#[derive(Drop)]
pub struct PlacedLine {
    pub line: DriverLine,
    pub span: Span,
    pub way: Vec<u8>,
}

// The token of what is reported: the string of its step, or the name of its device.
fn span_of(alloc: Global, bytes: &[u8], at: LineAt) -> Result<Span, NoMemory>
    ensures { IfOk result (λ span. span.end ≤ length bytes.now) }
{
    let path = match at {
        LineAt::Step { caller, step } => {
            element_path(Section::Caller, caller as usize, "script", step as usize)
        }
        LineAt::Device { dev } => key_path(Section::Device, dev.0 as usize, "name"),
    };
    let note = Note::on_value(alloc, format!(in alloc; "")?, path);
    Ok(of_note(alloc, bytes, note)?.span)
}

// What is reported, each with its token and the calls that lead there.
fn all_placed(
    alloc: Global,
    bytes: &[u8],
    driver: &Driver,
    tree: &Table,
    passes: &[DriverPass],
    lines: &[DriverLine],
) -> Result<Vec<PlacedLine>, NoMemory>
    ensures lines { IfOk result (λ placed. map (λ p. p.line) placed.items ≡ lines.now) }
    ensures within { IfOk result (λ placed. All (λ p. p.span.end ≤ length bytes.now) placed.items) }
{
    let mut placed = Vec::new(alloc);
    for line in lines {
        let span = span_of(alloc, bytes, line.at)?;
        let way = way_of(alloc, driver, tree, passes, line)?;
        placed.push(PlacedLine {
            line: *line,
            span,
            way,
        })?;
    }
    Ok(placed)
}

// Appends two lines that help.
fn push_hints(
    text: &mut Vec<u8>,
    bytes: &[u8],
    at: usize,
    first: &[u8],
    second: &[u8],
) -> Result<(), NoMemory>
    requires { at ≤ length bytes.now }
    ensures { OnOk result (text.new.items ≡ text.old.items ++ flat_map (hint_text bytes.now at) (first.now ∷ second.now ∷ [])) }
{
    push_hint(text, bytes, at, first)?;
    push_hint(text, bytes, at, second)
}

// Appends a place, a word and a message.
fn push_head(
    text: &mut Vec<u8>,
    file: &[u8],
    bytes: &[u8],
    at: usize,
    word: &[u8],
    message: &[u8],
) -> Result<(), NoMemory>
    requires { at ≤ length bytes.now }
    ensures { OnOk result (text.new.items ≡ text.old.items ++ (place_text file.now bytes.now at ++ codes ": " ++ word.now ++ codes ": " ++ visible message.now ++ codes "\n")) }
{
    push_place(text, file, bytes, at)?;
    push(text, b": ")?;
    push(text, word)?;
    push(text, b": ")?;
    push_visible(text, message)?;
    push(text, b"\n")
}

// Appends what is told of a token, with two lines that help.
#[tactic(auto, unfolding(pm_messages::specs::located::Told::token_told))]
fn push_token(
    alloc: Global,
    text: &mut Vec<u8>,
    file: &[u8],
    bytes: &[u8],
    span: Span,
    word: &[u8],
    message: &[u8],
    first: &[u8],
    second: &[u8],
) -> Result<(), NoMemory>
    requires { span.end ≤ length bytes.now }
    ensures { OnOk result (text.new.items ≡ text.old.items ++ token_told file.now bytes.now span.start span.end word.now message.now (first.now ∷ second.now ∷ [])) }
{
    push_head(text, file, bytes, span.start, word, message)?;
    push_excerpt(alloc, text, bytes, span)?;
    push_hints(text, bytes, span.start, first, second)
}

// Appends a line with its token, the line of the file, which finding it is, how it shows first and the calls that lead there.
fn push_placed(
    alloc: Global,
    text: &mut Vec<u8>,
    file: &[u8],
    bytes: &[u8],
    driver: &Driver,
    number: usize,
    placed: &PlacedLine,
) -> Result<(), NoMemory>
    requires { placed.now.span.end ≤ length bytes.now }
    ensures { OnOk result (text.new.items ≡ text.old.items ++ placed_text file.now bytes.now driver.now number placed.now) }
{
    let message = message_of(alloc, driver, &placed.line)?;
    let shown = shown_of(alloc, number, &placed.line)?;
    push_token(
        alloc,
        text,
        file,
        bytes,
        placed.span,
        weight_word(placed.line.weight),
        message.as_slice(),
        shown.as_slice(),
        placed.way.as_slice(),
    )
}

fn message_of(alloc: Global, driver: &Driver, line: &DriverLine) -> Result<Vec<u8>, NoMemory>
    ensures { IfOk result (λ text. text.items ≡ message_text driver.now line.now) }
{
    let mut text = Vec::new(alloc);
    push_message(&mut text, driver, line)?;
    Ok(text)
}

fn shown_of(alloc: Global, number: usize, line: &DriverLine) -> Result<Vec<u8>, NoMemory>
    ensures { IfOk result (λ text. text.items ≡ shown_text number line.now) }
{
    let mut text = Vec::new(alloc);
    push_shown(&mut text, number, line)?;
    Ok(text)
}

// Appends these lines, from this number on.
#[tactic(auto, using(crate::proofs::ReportLemmas::all_in))]
fn push_all_placed(
    alloc: Global,
    text: &mut Vec<u8>,
    file: &[u8],
    bytes: &[u8],
    driver: &Driver,
    number: usize,
    all: &[PlacedLine],
) -> Result<(), NoMemory>
    requires { All (λ p. p.span.end ≤ length bytes.now) all.now }
    ensures { OnOk result (text.new.items ≡ text.old.items ++ placed_texts file.now bytes.now driver.now number all.now) }
{
    let [placed, all @ ..] = all else {
        return Ok(());
    };
    push_placed(alloc, text, file, bytes, driver, number, placed)?;
    let next = number.saturating_add(1);
    push_all_placed(alloc, text, file, bytes, driver, next, all)
}

fn is_unended(passes: &[DriverPass]) -> bool
    ensures { result ≡ is_unended passes.now }
{
    match passes {
        [] => true,
        [pass, ..] => pass.all.found.rounds.len() == 0,
    }
}

fn are_notes(lines: &[DriverLine]) -> bool
    ensures { result ≡ list_all is_note lines.now }
{
    lines.iter().all(is_note)
}

fn kind_reported(passes: &[DriverPass], lines: &[DriverLine]) -> ReportKind
    ensures { result ≡ kind_reported passes.now lines.now }
{
    if !are_notes(lines) {
        ReportKind::Found
    } else if is_unended(passes) {
        ReportKind::AtLimit
    } else {
        ReportKind::Clean
    }
}

// The tree of the file; an empty one, where the bytes are no TOML.
fn tree_of(alloc: Global, bytes: &[u8]) -> Result<Table, NoMemory> {
    match document(alloc, bytes)? {
        Some(tree) => Ok(tree),
        None => Ok(Table::new(alloc)),
    }
}

// The report of lines that were gone through.
#[tactic(auto, using(crate::proofs::ReportLemmas::is_report_of))]
fn report_lines(
    alloc: Global,
    file: &[u8],
    bytes: &[u8],
    driver: &Driver,
    passes: &[DriverPass],
    lines: &[DriverLine],
) -> Result<DriverReport, NoMemory>
    ensures { IfOk result (IsReportOf file.now bytes.now driver.now passes.now lines.now) }
{
    let tree = tree_of(alloc, bytes)?;
    let placed = all_placed(alloc, bytes, driver, &tree, passes, lines)?;
    let mut text = Vec::new(alloc);
    push_all_placed(alloc, &mut text, file, bytes, driver, 1, placed.as_slice())?;
    push_last(&mut text, passes, lines)?;
    Ok(DriverReport {
        text,
        kind: kind_reported(passes, lines),
    })
}

// Goes through the schedules of a driver, and reports what they show.
#[tactic(auto, using(crate::proofs::ReportLemmas::is_report))]
fn report_examined(
    alloc: Global,
    file: &[u8],
    bytes: &[u8],
    driver: &Driver,
    examined: &ExaminedDriver,
    bounds: DriverBounds,
    notes: bool,
) -> Result<DriverReport, NoMemory>
    requires of_driver { IsExamined driver.now examined.now }
    requires callers { length examined.now.rules.now.callers.now < 2 ^ 32 }
    ensures { IfOk result (IsReport file.now bytes.now driver.now bounds notes) }
{
    let search = search_driver(alloc, driver, examined, bounds, notes)?;
    report_lines(
        alloc,
        file,
        bytes,
        driver,
        search.passes.as_slice(),
        search.told.as_slice(),
    )
}

/// The report of a plan with lists of codes.
fn lists_report(alloc: Global, file: &[u8]) -> Result<DriverReport, NoMemory>
    ensures { IfOk result (IsRefusedPlan file.now) }
{
    Ok(DriverReport {
        text: lists_message(alloc, file)?,
        kind: ReportKind::Refused,
    })
}

/// Goes through the schedules of a driver, and reports what is wrong in them, by the steps of its file, and what was gone
/// through; what happens in a driver that is right is told with notes alone. A plan is a driver whose programs run straight on; one
/// whose callbacks answer lists of codes isn't gone through. `file` is how the file is called, and `bytes` is its text. Fails where
/// memory runs out.
#[tactic(auto, using(crate::proofs::ReportLemmas::reports_lists, crate::proofs::ReportLemmas::reports_searched, crate::proofs::RuleLemmas::few_rules))]
pub fn report_driver(
    alloc: Global,
    file: &[u8],
    bytes: &[u8],
    driver: &Driver,
    bounds: DriverBounds,
    notes: bool,
) -> Result<DriverReport, NoMemory>
    ensures { IfOk result (ReportsDriver file.now bytes.now driver.now bounds notes) }
{
    if !may_be_searched(driver) {
        return Ok(lists_report(alloc, file)?);
    }
    let callers = driver.callers.as_slice();
    let needs = all_begin_needs(alloc, callers)?;
    let rows = all_caller_rules(alloc, callers, needs.as_slice())?;
    let origins = all_origins(alloc, callers)?;
    let rules = DriverRules {
        plan: &driver.plan,
        callers: rows.as_slice(),
    };
    let examined = ExaminedDriver {
        rules: &rules,
        origins: origins.as_slice(),
    };
    report_examined(alloc, file, bytes, driver, &examined, bounds, notes)
}
