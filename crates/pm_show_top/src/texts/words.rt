//! Cases of the words that name commands.

use crate::common::words_of;
use crate::texts::rows::stored;
use crate::texts::told::{Case, Told};
use pm_cmd_ends::{Request, read_words};
use pm_io::Files;
use pm_planread::PlanFault;
use std::alloc::Global;

pub fn cases<F: Files>(alloc: Global, files: &mut F) -> Result<Vec<Case>, PlanFault> {
    let refused = stored(alloc, files, "words.refused")?;
    let cases = [
        ("the words of each command are read", are_read(alloc)?),
        (
            "other words are none of the commands",
            are_refused(alloc, refused.as_str())?,
        ),
    ];
    Ok(Vec::from_slice(alloc, &cases)?)
}

/// Whether these words name that, or nothing.
fn is_read(alloc: Global, line: &str, named: Option<Request<'_>>) -> Result<bool, PlanFault> {
    let words = words_of(alloc, line)?;
    Ok(read_words(&words) == named)
}

fn are_read(alloc: Global) -> Result<Told, PlanFault> {
    let mut told = Told::All(0);
    for (line, named) in &NAMED {
        told.note(is_read(alloc, *line, Some(*named))?);
    }
    Ok(told)
}

/// The words of each line name nothing.
fn are_refused(alloc: Global, lines: &str) -> Result<Told, PlanFault> {
    let mut told = Told::All(0);
    for line in lines.lines() {
        if !line.starts_with('#') {
            told.note(is_read(alloc, line, None)?);
        }
    }
    Ok(told)
}

macro_rules! named {
    ($words:literal $command:ident $($fields:tt)*) => {
        ($words, Request::$command { $($fields)* })
    };
}

/// Words with a blank between them, and what they name.
static NAMED: [(&str, Request); 31] = [
    named!("serial p" Serial plan: "p"),
    named!("serial -- p" Serial plan: "p"),
    named!("serial p --" Serial plan: "p"),
    named!("serial -" Serial plan: "-"),
    named!("serial -- --" Serial plan: "--"),
    named!("serial -- -p" Serial plan: "-p"),
    named!("check p" Check plan: "p"),
    named!("desk p" Desk plan: "p"),
    named!("run p" Run plan: "p", hands: 4),
    named!("run p --hands 1" Run plan: "p", hands: 1),
    named!("run --hands 16 p" Run plan: "p", hands: 16),
    named!("run --hands=2 p" Run plan: "p", hands: 2),
    named!("run p --hands=2" Run plan: "p", hands: 2),
    named!("run --hands 3 -- p" Run plan: "p", hands: 3),
    named!("run p --hands=3 --" Run plan: "p", hands: 3),
    named!("run -- --hands" Run plan: "--hands", hands: 4),
    named!("run --hands 00000000000000000016 p" Run plan: "p", hands: 16),
    named!("audit p t" Audit plan: "p", trace: "t"),
    named!("audit p -- -t" Audit plan: "p", trace: "-t"),
    named!("audit -- p t" Audit plan: "p", trace: "t"),
    named!("convert p t" Convert plan: "p", trace: "t"),
    named!("times p t" Times plan: "p", trace: "t"),
    named!("times - -" Times plan: "-", trace: "-"),
    named!("why p t d" Why plan: "p", trace: "t", device: "d"),
    named!("why p t -- d" Why plan: "p", trace: "t", device: "d"),
    named!("why p -- t --" Why plan: "p", trace: "t", device: "--"),
    named!("make 0 1" Make number: 0, devices: 1),
    named!("make 7 1024" Make number: 7, devices: 1024),
    named!("make 18446744073709551615 3" Make number: u64::MAX, devices: 3),
    named!("make 00000000000000000007 01" Make number: 7, devices: 1),
    named!("make -- 7 2" Make number: 7, devices: 2),
];
