//! Runs the cases of the folder `data` through the commands of `pm_lab`, and tells of each whether it wrote what is
//! stored for it; then each of some commands over sinks that fail, and over files that are too long.

use anyhow::Result;
use pm_base::PLAN_BYTES;
use pm_cmd_lab::others::top;
use pm_io::{FileFault, Files, MemFiles, MemSink, read_all};
use std::alloc::{AllocError, Global};
use std::io::Print;

/// The bytes that a sink takes at a call, at most.
const MOST: usize = 1_000;

/// The bytes that a file of expectations may have, and the tables of a kind.
const EXPECT_BYTES: usize = 262_144;

const EXPECT_TABLES: usize = 1_000;

/// A table of such a file.
const TABLE: &[u8] = b"[[end]]\ndevice = \"cam\"\nstatus = \"active\"\n";

/// Tells of each case.
pub fn show<R: Print, F: Files>(rt: &R, alloc: Global, files: &mut F) -> Result<()> {
    show_stored(rt, alloc, files)?;
    show_failing(rt, alloc, files)?;
    show_long(rt, alloc, files)?;
    show_expecting(rt, alloc, files)
}

/// Tells of each stored case, and of no words.
fn show_stored<R: Print, F: Files>(rt: &R, alloc: Global, files: &mut F) -> Result<()> {
    let commands = stored(alloc, files, "commands.list")?;
    for case in str::from_utf8(&commands)?.lines() {
        if let Some((kept, words)) = case_in(case) {
            let words = words_of(alloc, words)?;
            let told = run_command(alloc, files, kept, &words, &[], &[])?;
            println!(rt; "{words:?}: {told}")?;
        }
    }
    let none = run_command(alloc, files, "-", &[], &[], &[])?;
    println!(rt; "no words: {none}")?;
    Ok(())
}

/// What fails, and the calls of `out` and of `err` that do.
static FAILING: [(&str, &[u64], &[u64]); 3] = [
    ("out fails", &[1], &[]),
    ("out fails at its third call", &[3], &[]),
    ("both fail", &[1], &[1]),
];

/// Tells of commands over sinks that fail.
fn show_failing<R: Print, F: Files>(rt: &R, alloc: Global, files: &mut F) -> Result<()> {
    for words in [
        "kernel touch.toml",
        "say typos.toml",
        "find kept_count.toml kept_count.trace",
        "help",
        "kernel no_such.toml",
    ] {
        let words = words_of(alloc, words)?;
        for (what, out_fails, err_fails) in &FAILING {
            let told = run_command(alloc, files, "-", &words, *out_fails, *err_fails)?;
            println!(rt; "{words:?}, {what}: {told}")?;
        }
    }
    Ok(())
}

/// Tells of commands over a file that is too long, and which sink took what is stored for it.
fn show_long<R: Print, F: Files>(rt: &R, alloc: Global, files: &mut F) -> Result<()> {
    let kept = stored(alloc, files, "say_long.txt")?;
    for words in [
        "say long.toml",
        "kernel long.toml",
        "find long.toml no_such.trace",
    ] {
        let words = words_of(alloc, words)?;
        let ended = run_over(alloc, &mut long_file(alloc)?, &words, &[], &[])?;
        let told = told_as(alloc, &ended, kept.as_slice())?;
        println!(rt; "{words:?}: {told}")?;
    }
    Ok(())
}

/// Tells of commands over files of expectations that are as long as they may be, and longer: in bytes, and in tables.
fn show_expecting<R: Print, F: Files>(rt: &R, alloc: Global, files: &mut F) -> Result<()> {
    for (length, kept) in [
        (EXPECT_BYTES, "expect_nothing.txt"),
        (EXPECT_BYTES + 1, "refused_long.txt"),
    ] {
        let blanks = vec![in alloc; b' '; length]?;
        let told = run_expecting(alloc, files, blanks, kept)?;
        println!(rt; "a file of expectations of {length} bytes: {told}")?;
    }
    for (count, kept) in [
        (EXPECT_TABLES, "expect_tables.txt"),
        (EXPECT_TABLES + 1, "refused_many.txt"),
    ] {
        let tables = repeated(alloc, TABLE, count)?;
        let told = run_expecting(alloc, files, tables, kept)?;
        println!(rt; "a file of expectations of {count} tables: {told}")?;
    }
    Ok(())
}

/// Bytes, so many times.
fn repeated(alloc: Global, bytes: &[u8], count: usize) -> Result<Vec<u8>, AllocError> {
    let mut all = Vec::new(alloc);
    for _turn in 0..count {
        all.extend_from_slice(bytes)?;
    }
    Ok(all)
}

/// Tells what is told of a run with these expectations, which the file `made.toml` has.
fn run_expecting<F: Files>(
    alloc: Global,
    files: &mut F,
    expectations: Vec<u8>,
    kept: &str,
) -> Result<String> {
    let plan = stored(alloc, files, "kept_count.toml")?;
    let trace = stored(alloc, files, "kept_count.trace")?;
    let mut made = MemFiles::new(
        vec![in alloc;
            (String::from_str(alloc, "plan.toml")?, plan),
            (String::from_str(alloc, "run.trace")?, trace),
            (String::from_str(alloc, "made.toml")?, expectations),
        ]?,
        Vec::new(alloc),
    );
    let words = words_of(alloc, "find plan.toml run.trace --expect made.toml")?;
    let ended = run_over(alloc, &mut made, &words, &[], &[])?;
    let kept = stored(alloc, files, kept)?;
    Ok(told_as(alloc, &ended, kept.as_slice())?)
}

/// A file with one byte more than a plan may have.
fn long_file(alloc: Global) -> Result<MemFiles, AllocError> {
    let name = String::from_str(alloc, "long.toml")?;
    let file = (name, vec![in alloc; b' '; PLAN_BYTES + 1]?);
    Ok(MemFiles::new(vec![in alloc; file]?, Vec::new(alloc)))
}

/// The bytes of a file of the folder.
fn stored<F: Files>(alloc: Global, files: &mut F, name: &str) -> Result<Vec<u8>, FileFault> {
    read_all(alloc, files, name, PLAN_BYTES)
}

/// The file with what is stored, and the words behind its name. A line that begins with `#` is no case.
fn case_in(line: &str) -> Option<(&str, &str)> {
    if line.as_bytes().starts_with(b"#") {
        return None;
    }
    line.split_once(' ')
}

/// How a command ended: its status, and what the sinks took.
#[derive(Drop)]
struct Ended {
    status: u8,
    out: MemSink,
    err: MemSink,
}

/// Runs the command that the words name, over sinks that fail at these calls.
fn run_over<F: Files>(
    alloc: Global,
    files: &mut F,
    words: &[String],
    out_fails: &[u64],
    err_fails: &[u64],
) -> Result<Ended> {
    let mut out = MemSink::new(alloc, MOST, Vec::from_slice(alloc, out_fails)?);
    let mut err = MemSink::new(alloc, MOST, Vec::from_slice(alloc, err_fails)?);
    let status = top(alloc, words, files, &mut out, &mut err);
    Ok(Ended { status, out, err })
}

/// Runs the command that the words name, over sinks that fail at these calls, and tells its status, its message
/// and how its output compares with what is stored.
fn run_command<F: Files>(
    alloc: Global,
    files: &mut F,
    kept: &str,
    words: &[String],
    out_fails: &[u64],
    err_fails: &[u64],
) -> Result<String> {
    let Ended { status, out, err } = run_over(alloc, files, words, out_fails, err_fails)?;
    let told = verdict(alloc, files, out.taken(), kept)?;
    if err.taken() == stored(alloc, files, "usage.txt")?.as_slice() {
        return Ok(format!(in alloc; "status {status}, err as in usage.txt, out {told}")?);
    }
    let message = str::from_utf8(err.taken())?;
    Ok(format!(in alloc; "status {status}, err {message:?}, out {told}")?)
}

/// Which sink took these bytes.
fn told_as(alloc: Global, ended: &Ended, bytes: &[u8]) -> Result<String, AllocError> {
    let Ended { status, out, err } = ended;
    let (out, err) = (out.taken() == bytes, err.taken() == bytes);
    format!(in alloc; "status {status}, out took it {out}, err took it {err}")
}

/// How the bytes compare with those of the file `kept`, or how many there are where that is `-`.
fn verdict<F: Files>(alloc: Global, files: &mut F, found: &[u8], kept: &str) -> Result<String> {
    if kept == "-" {
        let count = found.len();
        return Ok(format!(in alloc; "{count} bytes")?);
    }
    if found == stored(alloc, files, kept)?.as_slice() {
        Ok(format!(in alloc; "as in {kept}")?)
    } else {
        Ok(format!(in alloc; "other than {kept}")?)
    }
}

/// The words between blanks.
fn words_of(alloc: Global, line: &str) -> Result<Vec<String>, AllocError> {
    let mut words = Vec::new(alloc);
    for word in line.split_whitespace() {
        words.push(String::from_str(alloc, word)?)?;
    }
    Ok(words)
}
