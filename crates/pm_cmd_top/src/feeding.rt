//! Traces that are judged as they are read.

ghost use Rattle.std.specs.Prelude.{◌≡◌, ℕ, ◌+◌, ◌^◌, ◌<◌, ◌≤◌, List, [], length, true, Option, IfErr, IfOk, IfSome, IsErrOf, OnErr, OnOk};
ghost use Rattle.pm_audit.specs.Auditing.{AuditorStandsFor, verdict_of};
ghost use Rattle.pm_base.specs.declared.limits.TheConstants.{PIECE_BYTES, TRACE_BYTES};
ghost use Rattle.pm_io.specs.Faults.{Rose};
ghost use Rattle.pm_cmd_ends.specs.Reading.{IsTooLong};
ghost use Rattle.pm_cmd_top.specs.Feeding.{IsFed, IsJudged, IsTold};
ghost use Rattle.pm_cmd_top.specs.Traces.{IsTraceUnread};

use crate::trace_fault::trace_fault;
use pm_audit::{Auditor, LineTaker, Verdict};
use pm_base::{Failed, PIECE_BYTES, TRACE_BYTES};
use pm_cmd_ends::Fault;
use pm_io::{FileFault, Files};
use pm_model::Plan;
use std::alloc::Global;

/// Reads the trace from its file, and says what it is by the plan. All memory is taken before the file is
/// started.
pub(crate) fn judge_trace<F: Files>(
    alloc: Global,
    plan: Plan,
    trace: &str,
    files: &mut F,
) -> Result<Verdict, Fault>
    ensures judged { IfOk result
        (λ verdict. IsJudged F.tells_all (F.told files.old trace.now) plan (verdict_of verdict)) }
    ensures unread { IfErr result (IsTraceUnread F.tells_all (F.told files.old trace.now)
        (Rose (F.faults files.old) (F.faults files.new))) }
    ensures calm { ¬ IsErrOf result Fault.ReadFailed → F.faults files.new ≡ F.faults files.old }
{
    let Ok(mut auditor) = Auditor::new(alloc, plan) else {
        return Err(Fault::NoMemory);
    };
    match feed_trace(alloc, files, trace, &mut auditor) {
        Ok(()) => Ok(auditor.end()),
        Err(fault) => Err(fault),
    }
}

/// Feeds the auditor the bytes of the trace's file to its end, or says why it can't. The memory for a piece is
/// taken before the file is started.
pub(crate) fn feed_trace<F: Files, T: LineTaker>(
    alloc: Global,
    files: &mut F,
    trace: &str,
    auditor: &mut Auditor<T>,
) -> Result<(), Fault>
    requires unfed { AuditorStandsFor T.StandsFor auditor.old [] }
    ensures told { OnOk result (IsTold T.StandsFor F.tells_all (F.told files.old trace.now) auditor.new) }
    ensures plan { auditor.new.reader.judge.plan ≡ auditor.old.reader.judge.plan }
    ensures same { auditor.new.reader.subject ≡ auditor.old.reader.subject }
    ensures unread { IfErr result (IsTraceUnread F.tells_all (F.told files.old trace.now)
        (Rose (F.faults files.old) (F.faults files.new))) }
    ensures calm { ¬ IsErrOf result Fault.ReadFailed → F.faults files.new ≡ F.faults files.old }
{
    let mut piece = vec![in alloc; 0; PIECE_BYTES]?;
    match read_trace(files, trace, &mut piece, auditor) {
        Ok(()) => Ok(()),
        Err(fault) => Err(trace_fault(fault)),
    }
}

/// Feeds the auditor the bytes of the trace's file, in pieces, to its end. It is too long where one byte
/// more than a trace may have was read.
fn read_trace<F: Files, T: LineTaker>(
    files: &mut F,
    trace: &str,
    piece: &mut [u8],
    auditor: &mut Auditor<T>,
) -> Result<(), FileFault>
    requires piece { length piece.old ≡ PIECE_BYTES }
    requires unfed { AuditorStandsFor T.StandsFor auditor.old [] }
    ensures told { OnOk result (IsTold T.StandsFor F.tells_all (F.told files.old trace.now) auditor.new) }
    ensures plan { auditor.new.reader.judge.plan ≡ auditor.old.reader.judge.plan }
    ensures same { auditor.new.reader.subject ≡ auditor.old.reader.subject }
    ensures too_long { IsErrOf result FileFault.TooLong → IsTooLong F.tells_all (F.told files.old trace.now) TRACE_BYTES }
    ensures failed { IsErrOf result FileFault.Failed → Rose (F.faults files.old) (F.faults files.new) }
    ensures calm { ¬ IsErrOf result FileFault.Failed → F.faults files.new ≡ F.faults files.old }
    ensures never_falls { F.faults files.old ≤ F.faults files.new }
{
    files.start_file(trace)?;
    let mut count = 0;
    while count <= TRACE_BYTES {
        let most = (TRACE_BYTES + 1 - count).min(PIECE_BYTES);
        let got = feed_piece(files, &mut piece[..most], auditor)?;
        if got == 0 {
            return Ok(());
        }
        count += got;
    }
    Err(FileFault::TooLong)
}

/// Reads the next piece of the started file, feeds it to the auditor and answers how many bytes it has. 0
/// is the end of the file.
fn feed_piece<F: Files, T: LineTaker>(
    files: &mut F,
    piece: &mut [u8],
    auditor: &mut Auditor<T>,
) -> Result<usize, Failed>
    requires started { F.is_started files.old ≡ true }
    requires room { 0 < length piece.old }
    requires in_range { F.place files.old + length piece.old < 2 ^ 64 }

    ensures within { IfOk result (λ n. n ≤ length piece.old) }
    ensures fed { IfOk result (λ n. (told : Option (List ℕ)) (count : ℕ) → IsFed T.StandsFor told auditor.old count (F.unread files.old)
        → IsFed T.StandsFor told auditor.new (count + n) (F.unread files.new)) }
    ensures end { IfOk result (λ n. n ≡ 0 → IfSome (F.unread files.new) (λ more. more ≡ [])) }
    ensures moves { IfOk result (λ n. F.place files.new ≡ F.place files.old + n) }
    ensures plan { auditor.new.reader.judge.plan ≡ auditor.old.reader.judge.plan }
    ensures same { auditor.new.reader.subject ≡ auditor.old.reader.subject }
    ensures failed { OnErr result (Rose (F.faults files.old) (F.faults files.new)) }

    ensures still_started { F.is_started files.new ≡ true }
    ensures calm { OnOk result (F.faults files.new ≡ F.faults files.old) }
    ensures never_falls { F.faults files.old ≤ F.faults files.new }
{
    let got = files.read(piece)?;
    auditor.feed(&piece[..got]);
    Ok(got)
}
