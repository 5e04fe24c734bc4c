//! A sink in memory, for tests.
ghost use Rattle.std.specs.Prelude.{◌≡◌, ◌<◌, ◌≤◌, [], ◌++◌, length, take, min, Some, IsTrue, IsErr, IfOk, OnErr};
ghost use Rattle.pm_io.specs.Faults.{counted, fails_next};

use crate::faults::fault;
use crate::writing::Sink;
use pm_base::Failed;
use std::alloc::Global;
use std::marker::Model;

/// Keeps the bytes that it takes, takes few at a time, and fails at the calls that were chosen.
#[derive(Drop)]
pub struct MemSink {
    taken: Vec<u8>,
    most: usize,
    fail: Vec<u64>,
    calls: u64,
    faults: u64,
}

impl Model for MemSink {
    ghost use Rattle.std.specs.Prelude.{◌<◌};
    ghost use Rattle.pm_io.specs.MemSink.{Bucket};

    ghost Value = { Bucket };

    ghost view = { λ s. record {
      taken = s.taken.items;
      most = s.most;
      fail = s.fail.items;
      calls = s.calls;
      faults = s.faults;
    } };

    ghost invariant = { λ s. 0 < s.most };
}

impl MemSink {
    /// A sink that holds nothing and takes at most `most` bytes at each call of `write`. The calls
    /// are numbered from 1, and those whose number is in `fail` fail.
    pub fn new(alloc: Global, most: usize, fail: Vec<u64>) -> MemSink
        requires { 1 ≤ most }
        ensures { result ≡ record {
          taken = [];
          most = most;
          fail = fail.items;
          calls = 0;
          faults = 0;
        } }
    {
        MemSink {
            taken: Vec::new(alloc),
            most,
            fail,
            calls: 0,
            faults: 0,
        }
    }

    /// The bytes taken so far.
    pub fn taken(&self) -> &[u8]
        ensures { result.now ≡ self.now.taken }
    {
        self.taken.as_slice()
    }
}

impl Sink for MemSink {
    ghost taken = { λ s. Some s.taken };

    ghost faults = { λ s. s.faults };

    /// It also fails where it finds no memory for the bytes.
    fn write(&mut self, piece: &[u8]) -> Result<usize, Failed>
        ensures planned { IsTrue (fails_next self.old.fail self.old.calls) → IsErr result }
        ensures count { IfOk result (λ n. n ≡ min self.old.most (length piece.now)) }
        ensures some { IfOk result (λ n. 0 < length piece.now → 0 < n) }
        ensures ok { IfOk result (λ n. self.new ≡ record self.old {
          taken = self.old.taken ++ take n piece.now;
          calls = counted self.old.calls;
        }) }
        ensures err { OnErr result (self.new ≡ record self.old {
          calls = counted self.old.calls;
          faults = counted self.old.faults;
        }) }
        ensures never_falls { self.old.faults ≤ self.new.faults }
    {
        self.calls = self.calls.saturating_add(1);
        let count = piece.len().min(self.most);
        let planned = self.fail.contains(&self.calls);
        if planned || self.taken.extend_from_slice(&piece[..count]).is_err() {
            return Err(fault(&mut self.faults));
        }
        Ok(count)
    }
}
