//! The files and streams of the system. By the traits of this crate they tell no content; what `std` tells of theirs,
//! their own clauses hand on.
ghost use Rattle.std.specs.Prelude.{◌≡◌, ◌+◌, ◌^◌, ◌<◌, ◌≤◌, length, take, false, true, None, IfOk, IfSome, MatchOption, OnOk, OnErr};
ghost use Rattle.std.specs.Io.KnownBytes.{Appends, Consumes, Keeps, WriteAppends};
ghost use Rattle.pm_io.specs.Faults.{Rose};

use crate::faults::fault;
use crate::reading::Files;
use crate::writing::Sink;
use pm_base::Failed;
use std::io::{ErrorKind, Read, Stderr, Stdout, Write};
use std::marker::Model;
use std::rt::Files as FileSystem;
use std::time::{Clock, Duration};
use std::{fs, io, thread};

/// The files of a file system, by their paths.
#[derive(Drop)]
pub struct DiskFiles<R: FileSystem + Drop> {
    rt: R,
    file: Option<R::File>,
    place: u64,
    faults: u64,
}

impl<R: FileSystem + Drop> Model for DiskFiles<R> {
    ghost use Rattle.std.specs.Prelude.{is_some};
    ghost use Rattle.std.specs.Option.{option_and_then};
    ghost use Rattle.pm_io.specs.Real.{DiskState};

    ghost Value = { DiskState };

    ghost view = { λ d. record {
      is_started = is_some d.file;
      left = option_and_then R.File.remaining d.file;
      place = d.place;
      faults = d.faults;
    } };
}

impl<R: FileSystem + Drop> DiskFiles<R> {
    /// No file is started.
    pub fn new(rt: R) -> DiskFiles<R>
        ensures { result ≡ record {
          is_started = false;
          left = None;
          place = 0;
          faults = 0;
        } }
    {
        DiskFiles {
            rt,
            file: None,
            place: 0,
            faults: 0,
        }
    }
}

impl<R: FileSystem + Drop> Files for DiskFiles<R> {
    ghost told = { λ _ _. None };

    ghost tells_all = { false };

    ghost is_started = { λ d. d.is_started };

    ghost place = { λ d. d.place };

    ghost unread = { λ _. None };

    ghost faults = { λ d. d.faults };

    ghost asked = { λ _. record { count = 0; last = None } };

    fn start_file(&mut self, name: &str) -> Result<(), Failed> {
        self.place = 0;
        self.file = open_file(&self.rt, name);
        match &self.file {
            Some(_) => Ok(()),
            None => Err(fault(&mut self.faults)),
        }
    }

    fn read(&mut self, buf: &mut [u8]) -> Result<usize, Failed>
        requires started { self.old.is_started ≡ true }
        requires room { 0 < length buf.old }
        requires in_range { self.old.place + length buf.old < 2 ^ 64 }

        ensures within { IfOk result (λ n. n ≤ length buf.old) }
        ensures next { IfOk result (λ n. Consumes self.old.left self.new.left (take n buf.new)) }
        ensures none_lost { OnErr result (Keeps self.old.left self.new.left) }
        ensures moves { IfOk result (λ n. self.new.place ≡ self.old.place + n) }
        ensures length { length buf.new ≡ length buf.old }

        ensures stays { OnErr result (self.new.place ≡ self.old.place) }
        ensures failed { OnErr result (Rose self.old.faults self.new.faults) }

        ensures still_started { self.new.is_started ≡ true }
        ensures calm { OnOk result (self.new.faults ≡ self.old.faults) }
        ensures never_falls { self.old.faults ≤ self.new.faults }
    {
        let Some(file) = &mut self.file else {
            unreachable!()
        };
        match read_some(file, buf) {
            Some(count) => {
                self.place += count as u64;
                Ok(count)
            }
            None => Err(fault(&mut self.faults)),
        }
    }
}

/// Whether the system interrupted a call. It is made again then.
fn is_interrupted(error: &io::Error) -> bool {
    error.kind() == ErrorKind::Interrupted
}

/// The file of this name; `None` where it can't be opened.
fn open_file<R: FileSystem>(rt: &R, name: &str) -> Option<R::File> {
    for _ in 0..u64::MAX {
        match fs::open(rt, name) {
            Ok(file) => return Some(file),
            Err(error) if is_interrupted(&error) => {}
            Err(_) => return None,
        }
    }
    None
}

/// Reads some bytes into the buffer; `None` where that fails.
fn read_some<F: Read>(file: &mut F, buf: &mut [u8]) -> Option<usize>
    ensures bytes { MatchOption result
        (Keeps (F.remaining file.old) (F.remaining file.new))
        (λ n. Consumes (F.remaining file.old) (F.remaining file.new) (take n buf.new)) }
    ensures within { IfSome result (λ n. n ≤ length buf.old) }
    ensures length { length buf.new ≡ length buf.old }
{
    for _ in 0..u64::MAX {
        match file.read(buf) {
            Ok(count) => return Some(count),
            Err(error) if is_interrupted(&error) => {}
            Err(_) => return None,
        }
    }
    None
}

/// For how many milliseconds in all a standard output is waited for that takes nothing for now.
const PATIENCE: u32 = 1_000;

/// The standard output. Where it takes nothing for now, as a full pipe whose writer is not to block, it is waited
/// for, for a second in all.
#[derive(Drop)]
pub struct StdOut<R: Clock + Drop, W: Write + Drop = Stdout> {
    rt: R,
    stream: W,
    patience: u32,
    faults: u64,
}

impl<R: Clock + Drop, W: Write + Drop> Model for StdOut<R, W> {
    ghost use Rattle.pm_io.specs.Real.{StreamState};

    ghost Value = { StreamState };

    ghost view = { λ s. record { taken = W.contents s.stream; faults = s.faults } };
}

impl<R: Clock + Drop, W: Write + Drop> StdOut<R, W> {
    /// It has not failed yet.
    pub fn new(rt: R, stream: W) -> StdOut<R, W>
        ensures { result ≡ record { taken = W.contents stream; faults = 0 } }
    {
        StdOut {
            rt,
            stream,
            patience: PATIENCE,
            faults: 0,
        }
    }
}

impl<R: Clock + Drop, W: Write + Drop> Sink for StdOut<R, W> {
    ghost taken = { λ _. None };

    ghost faults = { λ s. s.faults };

    #[inline(always)]
    fn write(&mut self, piece: &[u8]) -> Result<usize, Failed>
        ensures within { IfOk result (λ n. n ≤ length piece.now) }
        ensures some { IfOk result (λ n. 0 < length piece.now → 0 < n) }
        ensures takes { IfOk result (λ n. Appends self.old.taken self.new.taken (take n piece.now)) }
        ensures keeps { OnErr result (Keeps self.old.taken self.new.taken) }
        ensures failed { OnErr result (Rose self.old.faults self.new.faults) }
        ensures never_falls { self.old.faults ≤ self.new.faults }
    {
        match write_waiting(&self.rt, &mut self.stream, piece, &mut self.patience) {
            Ok(count) => Ok(count),
            Err(_) => Err(fault(&mut self.faults)),
        }
    }
}

/// The standard error.
#[derive(Drop)]
pub struct StdErr<W: Write + Drop = Stderr> {
    stream: W,
    faults: u64,
}

impl<W: Write + Drop> Model for StdErr<W> {
    ghost use Rattle.pm_io.specs.Real.{StreamState};

    ghost Value = { StreamState };

    ghost view = { λ s. record { taken = W.contents s.stream; faults = s.faults } };
}

impl<W: Write + Drop> StdErr<W> {
    /// It has not failed yet.
    pub fn new(stream: W) -> StdErr<W>
        ensures { result ≡ record { taken = W.contents stream; faults = 0 } }
    {
        StdErr { stream, faults: 0 }
    }
}

impl<W: Write + Drop> Sink for StdErr<W> {
    ghost taken = { λ _. None };

    ghost faults = { λ s. s.faults };

    fn write(&mut self, piece: &[u8]) -> Result<usize, Failed>
        ensures within { IfOk result (λ n. n ≤ length piece.now) }
        ensures some { IfOk result (λ n. 0 < length piece.now → 0 < n) }
        ensures takes { IfOk result (λ n. Appends self.old.taken self.new.taken (take n piece.now)) }
        ensures keeps { OnErr result (Keeps self.old.taken self.new.taken) }
        ensures failed { OnErr result (Rose self.old.faults self.new.faults) }
        ensures never_falls { self.old.faults ≤ self.new.faults }
    {
        match write_some(&mut self.stream, piece) {
            Ok(count) => Ok(count),
            Err(_) => Err(fault(&mut self.faults)),
        }
    }
}

/// Why a stream took nothing.
#[derive(Clone, Copy, PartialEq, Eq)]
enum Refused {
    /// It takes nothing for now.
    ForNow,
    /// Writing failed, or nothing was taken of a piece that isn't empty.
    ForGood,
}

/// Writes some of the piece.
#[inline(always)]
fn write_some<W: Write>(stream: &mut W, piece: &[u8]) -> Result<usize, Refused>
    ensures within { IfOk result (λ n. n ≤ length piece.now) }
    ensures some { IfOk result (λ n. 0 < length piece.now → 0 < n) }
    ensures bytes { WriteAppends (W.contents stream.old) (W.contents stream.new) result piece.now }
{
    for _ in 0..u64::MAX {
        match stream.write(piece) {
            Ok(count) if count > 0 || piece.is_empty() => return Ok(count),
            Err(error) if is_interrupted(&error) => {}
            Err(error) if error.kind() == ErrorKind::WouldBlock => return Err(Refused::ForNow),
            _ => return Err(Refused::ForGood),
        }
    }
    Err(Refused::ForGood)
}

/// Writes some of the piece, and waits for a stream that takes nothing for now, for so many milliseconds at most,
/// which become fewer by those that it waited.
#[inline(always)]
fn write_waiting<R: Clock, W: Write>(
    rt: &R,
    stream: &mut W,
    piece: &[u8],
    patience: &mut u32,
) -> Result<usize, Refused>
    ensures within { IfOk result (λ n. n ≤ length piece.now) }
    ensures some { IfOk result (λ n. 0 < length piece.now → 0 < n) }
    ensures bytes { WriteAppends (W.contents stream.old) (W.contents stream.new) result piece.now }
{
    for _ in 0..PATIENCE {
        match write_some(stream, piece) {
            Err(Refused::ForNow) if *patience > 0 => {
                *patience -= 1;
                thread::sleep(rt, Duration::from_millis(1));
            }
            answer => return answer,
        }
    }
    write_some(stream, piece)
}
