//! Sinks that are written.
ghost use Rattle.std.specs.Prelude.{◌≡◌, ℕ, ◌<◌, ◌≤◌, List, length, take, Option, IfOk, OnOk, OnErr};
ghost use Rattle.std.specs.Io.KnownBytes.{append_known};
ghost use Rattle.pm_io.specs.Faults.{Rose};
ghost use Rattle.pm_io.specs.Sink.{TookPrefix};

use pm_base::Failed;

/// Takes bytes behind those that it took before.
pub trait Sink {
    /// The bytes taken so far, where it tells them.
    ghost taken: { Self → Option (List ℕ) };

    /// How often a call failed.
    ghost faults: { Self → ℕ };

    /// Takes some bytes from the front of the piece and answers how many.
    ///
    /// At `Failed` nothing was taken.
    fn write(&mut self, piece: &[u8]) -> Result<usize, Failed>
        ensures within { IfOk result (λ n. n ≤ length piece.now) }
        ensures bytes { IfOk result
            (λ n. taken self.new ≡ append_known (taken self.old) (take n piece.now)) }
        ensures no_bytes { OnErr result (taken self.new ≡ taken self.old) }

        ensures failed { OnErr result (Rose (faults self.old) (faults self.new)) }
        ensures took_none { IfOk result
            (λ n. n ≡ 0 → 0 < length piece.now → Rose (faults self.old) (faults self.new)) }
        ensures never_falls { faults self.old ≤ faults self.new };
}

/// Writes the whole piece, in as many writes as the sink needs.
///
/// At `Failed` the sink took a prefix of the piece, which may be none or all of it. It takes no
/// memory.
#[tactic(auto, using(crate::proofs::Taken::append_known_take))]
#[inline(always)]
pub fn write_whole<S: Sink>(sink: &mut S, piece: &[u8]) -> Result<(), Failed>
    ensures bytes { OnOk result (S.taken sink.new ≡ append_known (S.taken sink.old) piece.now) }
    ensures prefix { OnErr result (TookPrefix (S.taken sink.old) (S.taken sink.new) piece.now) }
    ensures failed { OnErr result (Rose (S.faults sink.old) (S.faults sink.new)) }
    ensures never_falls { S.faults sink.old ≤ S.faults sink.new }
{
    let mut at = 0;
    while at < piece.len() {
        let count = sink.write(piece.split_at(at).1)?;
        if count == 0 {
            return Err(Failed);
        }
        at += count;
    }
    Ok(())
}
