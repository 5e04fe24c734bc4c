//! Cases of `pm_io`: files and sinks in memory and of the system.

ghost use Rattle.std.specs.Prelude.{◌≤◌};

use crate::texts::told::{Case, Told};
use pm_io::{
    DiskFiles, FileFault, Files, MemFiles, MemSink, StdErr, StdOut, read_all, write_whole,
};
use pm_planread::PlanFault;
use std::alloc::Global;
use std::fs;
use std::rt::Files as FileSystem;
use std::time::Clock;

pub fn memory_cases(alloc: Global) -> Result<Vec<Case>, PlanFault> {
    let cases = [
        (
            "a file of two pieces takes three reads",
            are_read(alloc, &READS)?,
        ),
        (
            "a file is no longer than the limit",
            are_read(alloc, &LIMITS)?,
        ),
        ("files are told apart by their names", tells_apart(alloc)?),
        (
            "a piece is written in short writes",
            are_written(alloc, 0, &SHORT)?,
        ),
        (
            "a failed write leaves a prefix",
            are_written(alloc, 2, &PREFIX)?,
        ),
        ("a fault says what happened", say(alloc)?),
    ];
    Ok(Vec::from_slice(alloc, &cases)?)
}

/// Which call fails, or 0, how many bytes a file has, how many it may have, and the fault of its reading.
type Reading = (u64, usize, u32, Option<FileFault>);

/// The calls are the start, 65,536 bytes, one byte, and the end.
static READS: [Reading; 5] = [
    (5, 65_537, 100_000, None),
    (1, 65_537, 100_000, Some(FileFault::Failed)),
    (2, 65_537, 100_000, Some(FileFault::Failed)),
    (3, 65_537, 100_000, Some(FileFault::Failed)),
    (4, 65_537, 100_000, Some(FileFault::Failed)),
];

static LIMITS: [Reading; 4] = [
    (0, 0, 0, None),
    (0, 1, 0, Some(FileFault::TooLong)),
    (0, 9, 9, None),
    (0, 10, 9, Some(FileFault::TooLong)),
];

/// Whether this is read of a file, or its reading has this fault.
fn is_read<F: Files>(
    alloc: Global,
    files: &mut F,
    name: &str,
    limit: usize,
    wanted: Result<&[u8], FileFault>,
) -> Result<bool, PlanFault>
    requires { limit ≤ 100000 }
{
    match read_all(alloc, files, name, limit) {
        Ok(bytes) => Ok(wanted == Ok(bytes.as_slice())),
        Err(FileFault::NoMemory) => Err(PlanFault::NoMemory),
        Err(fault) => Ok(wanted == Err(fault)),
    }
}

/// Each file comes back, or its reading has its fault.
fn are_read(alloc: Global, table: &[Reading]) -> Result<Told, PlanFault> {
    let mut told = Told::All(0);
    for (fail, len, limit, fault) in table {
        if *limit > 100_000 {
            return Ok(Told::One(false));
        }
        let bytes = vec![in alloc; 7u8; *len]?;
        let file = (String::from_str(alloc, "plan.toml")?, bytes.clone()?);
        let mut files = MemFiles::new(vec![in alloc; file]?, vec![in alloc; *fail]?);
        let wanted = match fault {
            Some(fault) => Err(*fault),
            None => Ok(bytes.as_slice()),
        };
        told.note(is_read(alloc, &mut files, "plan.toml", *limit as usize, wanted)?);
    }
    Ok(told)
}

/// Each of two files is found, and none by the start of a name.
fn tells_apart(alloc: Global) -> Result<Told, PlanFault> {
    let plan = (String::from_str(alloc, "plan")?, vec![in alloc; 1u8]?);
    let trace = (String::from_str(alloc, "trace")?, vec![in alloc; 2u8, 3]?);
    let mut files = MemFiles::new(vec![in alloc; plan, trace]?, vec![in alloc]?);
    let trace = is_read(alloc, &mut files, "trace", 9, Ok(&[2, 3]))?;
    let plan = is_read(alloc, &mut files, "plan", 9, Ok(&[1]))?;
    let is_missing = is_read(alloc, &mut files, "pla", 9, Err(FileFault::Failed))?;
    Ok(Told::One(trace && plan && is_missing))
}

/// A piece, whether it is written whole, and what the sink has taken then.
type Writing = (&'static [u8], bool, &'static [u8]);

static SHORT: [Writing; 3] = [
    (b"get_sync", true, b"get_sync"),
    (b"", true, b"get_sync"),
    (b" dev0\n", true, b"get_sync dev0\n"),
];

/// The write goes on behind the prefix.
static PREFIX: [Writing; 2] = [
    (b"get_sync", false, b"get_"),
    (b"go on", true, b"get_go on"),
];

/// The pieces are written so to a sink that takes 4 bytes at a call, and of which this call fails.
fn are_written(alloc: Global, fail: u64, table: &[Writing]) -> Result<Told, PlanFault> {
    let mut sink = MemSink::new(alloc, 4, vec![in alloc; fail]?);
    let mut are_so = true;
    for (piece, is_whole, taken) in table {
        are_so &= write_whole(&mut sink, *piece).is_ok() == *is_whole && sink.taken() == *taken;
    }
    Ok(Told::One(are_so))
}

static FAULTS: [(FileFault, &str); 3] = [
    (FileFault::Failed, "reading failed"),
    (FileFault::TooLong, "the file is too long"),
    (FileFault::NoMemory, "out of memory"),
];

fn say(alloc: Global) -> Result<Told, PlanFault> {
    let mut told = Told::All(0);
    for (fault, text) in &FAULTS {
        told.note(format!(in alloc; "{fault}")?.as_str() == *text);
    }
    Ok(told)
}

/// A file that is written here comes back, keeps to the limit, and is a fault where it is missing.
pub fn disk_cases<R: FileSystem>(rt: &R, alloc: Global) -> Result<Vec<Case>, PlanFault> {
    let path = "pm_io_disk_files.tmp";
    let mut written = Vec::new(alloc);
    for i in 0..70_000u32 {
        written.push((i % 251) as u8)?;
    }
    let is_there = fs::write(rt, path, written.as_slice()).is_ok();
    let mut files = DiskFiles::new(rt);
    let comes_back = is_read(alloc, &mut files, path, 70_000, Ok(written.as_slice()))?;
    let too_long = is_read(alloc, &mut files, path, 69_999, Err(FileFault::TooLong))?;
    let removed = fs::remove_file(rt, path).is_ok();
    let missing = is_read(alloc, &mut files, path, 70_000, Err(FileFault::Failed))?;
    let cases = [
        (
            "a file of the disk comes back",
            Told::One(is_there && comes_back),
        ),
        ("a file of the disk keeps to the limit", Told::One(too_long)),
        ("a missing file is a fault", Told::One(removed && missing)),
    ];
    Ok(Vec::from_slice(alloc, &cases)?)
}

/// A piece is taken whole.
pub fn stream_cases<R: Clock + Drop>(
    alloc: Global,
    mut out: StdOut<R>,
    mut err: StdErr,
) -> Result<Vec<Case>, PlanFault> {
    let to_out = write_whole(&mut out, b"to standard output\n").is_ok();
    let to_err = write_whole(&mut err, b"to standard error\n").is_ok();
    let cases = [
        ("standard output takes a piece", Told::One(to_out)),
        ("standard error takes a piece", Told::One(to_err)),
    ];
    Ok(Vec::from_slice(alloc, &cases)?)
}
