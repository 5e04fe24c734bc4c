//! Files in memory, for tests.
ghost use Rattle.std.specs.Prelude.{◌≡◌, ◌+◌, ◌^◌, ◌<◌, ◌≤◌, length, take, drop, min, map, option_map, true, not, is_ok, is_some, IsSome, IfSome, IfOk, OnErr, All};
ghost use Rattle.std.specs.Io.KnownBytes.{prepend_known};
ghost use Rattle.pm_io.specs.Faults.{counted, fails_next};
ghost use Rattle.pm_io.specs.MemFiles.{HasDistinctNames, after_start, bytes_at, bytes_under, file_entry, name_at, starts, unread_bytes};

use crate::faults::fault;
use crate::reading::Files;
use pm_base::Failed;
use std::marker::Model;

/// Holds the bytes of a few files, and fails at the calls that were chosen.
#[derive(Drop)]
pub struct MemFiles {
    files: Vec<(String, Vec<u8>)>,
    fail: Vec<u64>,
    calls: u64,
    faults: u64,
    asks: u64,
    asked: Option<usize>,
    started: Option<usize>,
    place: usize,
}

impl Model for MemFiles {
    ghost use Rattle.std.specs.Prelude.{◌<◌, ◌≤◌, length, map, vec_len};
    ghost use Rattle.std.specs.Option.{ForSome};
    ghost use Rattle.pm_io.specs.MemFiles.{Shelf, bytes_at, file_entry, name_at};

    ghost Value = { Shelf };

    ghost view = { λ m. record {
      files = map file_entry m.files.items;
      fail = m.fail.items;
      calls = m.calls;
      faults = m.faults;
      asked = record { count = m.asks; last = name_at m.files.items m.asked };
      started = bytes_at m.files.items m.started;
      place = m.place;
    } };

    ghost invariant = { λ m. ForSome m.started (λ i. i < vec_len m.files)
        × ForSome (bytes_at m.files.items m.started) (λ bytes. m.place ≤ length bytes) };
}

impl MemFiles {
    /// Files by their names. The calls of `start_file` and `read` are numbered together from 1, and
    /// those whose number is in `fail` fail.
    pub fn new(files: Vec<(String, Vec<u8>)>, fail: Vec<u64>) -> MemFiles
        requires { HasDistinctNames (map file_entry files.items) }
        ensures fresh { result ≡ record {
          files = map file_entry files.items;
          fail = fail.items;
          calls = 0;
          faults = 0;
          asked = record { count = 0; last = None };
          started = None;
          place = 0;
        } }
        ensures each { All (λ file. bytes_under result.files file.0 ≡ Some file.1) result.files }
    {
        MemFiles {
            files,
            fail,
            calls: 0,
            faults: 0,
            asks: 0,
            asked: None,
            started: None,
            place: 0,
        }
    }
}

impl Files for MemFiles {
    ghost told = { λ m. bytes_under m.files };

    ghost tells_all = { true };

    ghost is_started = { λ m. is_some m.started };

    ghost place = { λ m. m.place };

    ghost unread = { unread_bytes };

    ghost faults = { λ m. m.faults };

    ghost asked = { λ m. m.asked };

    fn start_file(&mut self, name: &str) -> Result<(), Failed>
        ensures answer { is_ok result ≡ starts self.old name.now }
        ensures after { self.new ≡ after_start self.old name.now }
        ensures never_falls { self.old.faults ≤ self.new.faults }
    {
        self.calls = self.calls.saturating_add(1);
        self.asks = self.asks.saturating_add(1);
        self.place = 0;
        self.asked = find_name(&self.files, name);
        self.started = if self.fail.contains(&self.calls) {
            None
        } else {
            self.asked
        };
        match self.started {
            Some(_) => Ok(()),
            None => Err(fault(&mut self.faults)),
        }
    }

    fn read(&mut self, buf: &mut [u8]) -> Result<usize, Failed>
        requires started { IsSome self.old.started }
        requires room { 0 < length buf.old }
        requires in_range { self.old.place + length buf.old < 2 ^ 64 }

        ensures answer { is_ok result ≡ not (fails_next self.old.fail self.old.calls) }
        ensures count { IfOk result (λ n. IfSome (unread_bytes self.old)
            (λ bytes. n ≡ min (length bytes) (length buf.old))) }
        ensures bytes { IfOk result
            (λ n. unread_bytes self.old ≡ prepend_known (take n buf.new) (unread_bytes self.new)) }
        ensures behind { IfOk result (λ n. drop n buf.new ≡ drop n buf.old) }
        ensures ok { IfOk result (λ n. self.new ≡ record self.old {
          calls = counted self.old.calls;
          place = self.old.place + n;
        }) }
        ensures err { OnErr result (self.new ≡ record self.old {
          calls = counted self.old.calls;
          faults = counted self.old.faults;
        }) }
        ensures length { length buf.new ≡ length buf.old }
        ensures no_bytes { OnErr result (buf.new ≡ buf.old) }
        ensures never_falls { self.old.faults ≤ self.new.faults }
    {
        self.calls = self.calls.saturating_add(1);
        if self.fail.contains(&self.calls) {
            return Err(fault(&mut self.faults));
        }
        let Some(at) = self.started else {
            unreachable!()
        };
        let count = copy_front(self.files[at].1.as_slice().split_at(self.place).1, buf);
        self.place += count;
        Ok(count)
    }
}

/// Copies as much of `from` to the front of `to` as both have, and answers how much.
fn copy_front(from: &[u8], to: &mut [u8]) -> usize
    ensures count { result ≡ min (length from.now) (length to.old) }
    ensures front { take result to.new ≡ take result from.now }
    ensures behind { drop result to.new ≡ drop result to.old }
    ensures length { length to.new ≡ length to.old }
{
    let count = from.len().min(to.len());
    to[..count].copy_from_slice(&from[..count]);
    count
}

/// Which of the files has the name.
fn find_name(files: &[(String, Vec<u8>)], name: &str) -> Option<usize>
    ensures within { IfSome result (λ i. i < length files.now) }
    ensures bytes { bytes_at files.now result ≡ bytes_under (map file_entry files.now) name.now }
    ensures name { name_at files.now result
        ≡ option_map (λ _. name.now) (bytes_under (map file_entry files.now) name.now) }
{
    for (i, file) in files.iter().enumerate() {
        if name == file.0.as_str() {
            return Some(i);
        }
    }
    None
}
