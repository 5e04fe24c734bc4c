//! Files that are read, one at a time.
ghost use Rattle.std.specs.Prelude.{◌≡◌, ℕ, ◌+◌, ◌^◌, ◌<◌, ◌≤◌, ◌↔◌, List, [], length, take, Bool, true, false, Option, IsTrue, IsSome, IfSome, IfOk, OnOk, OnErr, IsErrOf, vec_len, vec_capacity};
ghost use Rattle.std.specs.Io.KnownBytes.{prepend_known};
ghost use Rattle.pm_io.specs.Asks.{AskedOnly, Asks, one_more};
ghost use Rattle.pm_io.specs.Faults.{Rose};
ghost use Rattle.pm_io.specs.declared.reading.FileFault.TheVariants.{Failed as FailedFault, NoMemory as NoMemoryFault};

use pm_base::{Failed, PIECE_BYTES, TRACE_BYTES};
use std::alloc::{AllocError, Global};
use std::error::Error;
use std::fmt;

/// Reads one file at a time, from its first byte to its end.
pub trait Files {
    /// The bytes of the file under a name, where it tells them.
    ghost told: { Self → List ℕ → Option (List ℕ) };

    /// Whether it tells of every file: then a name under which it tells no bytes has no file.
    ghost tells_all: { Bool };

    /// Whether a file is started.
    ghost is_started: { Self → Bool };

    /// How many bytes of the started file were read since it was started.
    ghost place: { Self → ℕ };

    /// The bytes of the started file from that place on, where it tells them.
    ghost unread: { Self → Option (List ℕ) };

    /// How often a call failed.
    ghost faults: { Self → ℕ };

    /// Which files were asked for, of those whose bytes it tells.
    ghost asked: { Self → Asks };

    /// Goes to the first byte of the named file. A missing file is a fault.
    ///
    /// After `Failed` no file is started.
    fn start_file(&mut self, name: &str) -> Result<(), Failed>
        ensures started { OnOk result (is_started self.new ≡ true) }
        ensures whole { OnOk result (unread self.new ≡ told self.old name.now) }
        ensures there { OnOk result (IsTrue tells_all → IsSome (told self.old name.now)) }
        ensures first_byte { place self.new ≡ 0 }

        ensures none_started { OnErr result (is_started self.new ≡ false) }
        ensures failed { OnErr result (Rose (faults self.old) (faults self.new)) }

        ensures asked { IsSome (told self.old name.now) → asked self.new ≡ one_more (asked self.old) name.now }
        ensures calm { OnOk result (faults self.new ≡ faults self.old) }
        ensures never_falls { faults self.old ≤ faults self.new }
        ensures same { told self.new ≡ told self.old };

    /// Puts the next bytes of the started file at the front of `buf` and answers how many. 0 is the
    /// end of the file. As with a read of `std`, nothing is said of what `buf` has behind them.
    ///
    /// After `Failed` the file is still started, at the same place, and nothing is said of what `buf` has.
    fn read(&mut self, buf: &mut [u8]) -> Result<usize, Failed>
        requires started { is_started self.old ≡ true }
        requires room { 0 < length buf.old }
        requires in_range { place self.old + length buf.old < 2 ^ 64 }

        ensures within { IfOk result (λ n. n ≤ length buf.old) }
        ensures bytes { IfOk result
            (λ n. unread self.old ≡ prepend_known (take n buf.new) (unread self.new)) }
        ensures end { IfOk result
            (λ n. IfSome (unread self.old) (λ bytes. (n ≡ 0) ↔ (bytes ≡ []))) }
        ensures moves { IfOk result (λ n. place self.new ≡ place self.old + n) }
        ensures length { length buf.new ≡ length buf.old }

        ensures none_read { OnErr result (unread self.new ≡ unread self.old) }
        ensures stays { OnErr result (place self.new ≡ place self.old) }
        ensures failed { OnErr result (Rose (faults self.old) (faults self.new)) }

        ensures still_started { is_started self.new ≡ true }
        ensures calm { OnOk result (faults self.new ≡ faults self.old) }
        ensures never_falls { faults self.old ≤ faults self.new }
        ensures asked { asked self.new ≡ asked self.old }
        ensures same { told self.new ≡ told self.old };
}

/// Why a file was not read whole.
#[derive(Clone, Copy, Debug, PartialEq, Eq)]
pub enum FileFault {
    /// It couldn't be started, or a read failed.
    Failed,
    /// It has more bytes than the limit.
    TooLong,
    /// Memory ran out.
    NoMemory,
}

impl fmt::Display for FileFault {
    fn fmt<W: fmt::Write>(&self, f: &mut fmt::Formatter<W>) -> fmt::Result {
        f.write_str(match self {
            FileFault::Failed => "reading failed",
            FileFault::TooLong => "the file is too long",
            FileFault::NoMemory => "out of memory",
        })
    }
}

impl Error for FileFault {}

impl From<Failed> for FileFault {
    ghost from_gives = { λ _ fault. fault ≡ FailedFault };

    fn from(_failed: Failed) -> FileFault {
        FileFault::Failed
    }
}

impl From<AllocError> for FileFault {
    ghost from_gives = { λ _ fault. fault ≡ NoMemoryFault };

    fn from(_error: AllocError) -> FileFault {
        FileFault::NoMemory
    }
}

/// Reads the named file to its end, where it has at most `limit` bytes.
///
/// It takes one buffer, with room for one byte more than `limit`, before it starts the file, and
/// reads pieces of at most `PIECE_BYTES` into it.
pub fn read_all<F: Files>(
    alloc: Global,
    files: &mut F,
    name: &str,
    limit: usize,
) -> Result<Vec<u8>, FileFault>
    requires { limit ≤ TRACE_BYTES }

    ensures bytes { IfOk result
        (λ bytes. IfSome (F.told files.old name.now) (λ told. bytes.items ≡ told)) }
    ensures there { OnOk result (IsTrue F.tells_all → IsSome (F.told files.old name.now)) }
    ensures within { IfOk result (λ bytes. vec_len bytes ≤ limit) }
    ensures count { IfOk result (λ bytes. F.place files.new ≡ vec_len bytes) }

    // It is too long exactly where more bytes than `limit` were read, and then it was one more.
    ensures too_long { IsErrOf result FileFault.TooLong → F.place files.new ≡ limit + 1 }
    ensures longer { IsErrOf result FileFault.TooLong
        → IfSome (F.told files.old name.now) (λ told. limit < length told) }
    ensures longer_there { IsErrOf result FileFault.TooLong → IsTrue F.tells_all → IsSome (F.told files.old name.now) }

    ensures failed { IsErrOf result FileFault.Failed
        → Rose (F.faults files.old) (F.faults files.new) }
    ensures not_longer { IsErrOf result FileFault.Failed → F.place files.new ≤ limit }
    ensures no_memory { IsErrOf result FileFault.NoMemory → files.new ≡ files.old }

    ensures asked { IsSome (F.told files.old name.now) → AskedOnly name.now (F.asked files.old) (F.asked files.new) }
    ensures calm { ¬ IsErrOf result FileFault.Failed → F.faults files.new ≡ F.faults files.old }
    ensures never_falls { F.faults files.old ≤ F.faults files.new }
    ensures same { F.told files.new ≡ F.told files.old }
{
    let mut bytes = Vec::with_capacity(alloc, limit + 1)?;
    files.start_file(name)?;
    while bytes.len() <= limit {
        if read_piece(files, &mut bytes, limit + 1)? == 0 {
            return Ok(bytes);
        }
    }
    Err(FileFault::TooLong)
}

/// Reads the next piece of the started file behind the bytes read before: at most `PIECE_BYTES`,
/// and no more than `most` bytes in all. 0 is the end of the file.
///
/// After `Failed` the bytes are of no use.
fn read_piece<F: Files>(files: &mut F, bytes: &mut Vec<u8>, most: usize) -> Result<usize, Failed>
    requires started { F.is_started files.old ≡ true }
    requires count { F.place files.old ≡ vec_len bytes.old }
    requires short { vec_len bytes.old < most }
    requires bounded { most ≤ TRACE_BYTES + 1 }
    requires room { most ≤ vec_capacity bytes.old }

    ensures piece { IfOk result (λ n. n ≤ PIECE_BYTES) }
    ensures longer { IfOk result (λ n. vec_len bytes.new ≡ vec_len bytes.old + n) }
    ensures within { OnOk result (vec_len bytes.new ≤ most) }
    ensures bytes { OnOk result (prepend_known bytes.new.items (F.unread files.new)
        ≡ prepend_known bytes.old.items (F.unread files.old)) }
    ensures end { IfOk result (λ n. IfSome (F.unread files.old) (λ bytes. (n ≡ 0) ↔ (bytes ≡ []))) }
    ensures count { OnOk result (F.place files.new ≡ vec_len bytes.new) }

    ensures stays { OnErr result (F.place files.new ≡ F.place files.old) }
    ensures failed { OnErr result (Rose (F.faults files.old) (F.faults files.new)) }

    ensures room { most ≤ vec_capacity bytes.new }
    ensures still_started { F.is_started files.new ≡ true }
    ensures calm { OnOk result (F.faults files.new ≡ F.faults files.old) }
    ensures never_falls { F.faults files.old ≤ F.faults files.new }
    ensures asked { F.asked files.new ≡ F.asked files.old }
    ensures same { F.told files.new ≡ F.told files.old }
{
    let mut piece = [0; PIECE_BYTES];
    let want = (most - bytes.len()).min(PIECE_BYTES);
    let got = files.read(&mut piece[..want])?;
    bytes.extend_from_slice(&piece[..got]).unwrap();
    Ok(got)
}
