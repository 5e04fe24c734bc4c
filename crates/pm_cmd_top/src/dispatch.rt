//! Which command the words name.

ghost use Rattle.std.specs.Prelude.{◌≡◌, ◌≢◌, ◌↔◌, map, string_bytes, IfSome, IsNone};
ghost use Rattle.pm_io.specs.Faults.{Rose};
ghost use Rattle.pm_cmd_top.specs.Commands.{AskedEnds, AsksInOrder};
ghost use Rattle.pm_cmd_ends.specs.Request.{asked_by};
ghost use Rattle.pm_cmd_ends.specs.Ending.{Answered, Told, taking, usage};

use crate::check::check_top;
use crate::make::make_top;
use crate::{audit_top, convert_top, desk_top, run_top, serial_top, times_top, why_top};
use pm_cmd_ends::{Request, WRONG_WORDS, read_words, refuse_words};
use pm_gate::{Clock, Gate};
use pm_io::{Files, Sink};
use std::alloc::Global;
use std::sync::Wait;
use std::thread::Threads;

/// Runs the command that the words name: they are those after the program's name. The answer is the status
/// that the program ends with. Wrong words are answered by the usage text, which goes to `err`.
///
/// `run` and `desk` hand `clock` and `gate` on to their threads and may wait for them; no other command does.
pub fn top<R: Threads + Wait + Sync, F: Files, O: Sink, E: Sink, C: Clock + Sync, G: Gate + Sync>(
    rt: &R,
    alloc: Global,
    words: &[String],
    files: &mut F,
    out: &mut O,
    err: &mut E,
    clock: &C,
    gate: &G,
) -> u8
    ensures words { (result ≡ 2) ↔ IsNone (asked_by (map string_bytes words.now)) }
    ensures untouched { result ≡ 2 → (files.new ≡ files.old) × (out.new ≡ out.old) }
    ensures usage { result ≡ 2 → Told (taking E.taken E.faults err.old err.new) usage }

    // Else the clause of the command that they name.
    ensures answer { IfSome (asked_by (map string_bytes words.now)) (λ asked.
        Answered (AskedEnds F.tells_all (F.told files.old) asked) result
        (Rose (F.faults files.old) (F.faults files.new))
        (taking O.taken O.faults out.old out.new) (taking E.taken E.faults err.old err.new)) }

    // Status 4 comes exactly where a read failed, and a file that isn't needed is not asked for.
    ensures calm { result ≢ 4 → F.faults files.new ≡ F.faults files.old }
    ensures alone { IfSome (asked_by (map string_bytes words.now))
        (λ asked. AsksInOrder (F.told files.old) asked (F.asked files.old) (F.asked files.new)) }
{
    match read_words(words) {
        Some(Request::Serial { plan }) => serial_top(alloc, plan, files, out, err),
        Some(Request::Run { plan, hands }) => {
            run_top(rt, alloc, plan, hands, files, out, err, clock, gate)
        }
        Some(Request::Check { plan }) => check_top(alloc, plan, files, out, err),
        Some(Request::Audit { plan, trace }) => audit_top(alloc, plan, trace, files, out, err),
        Some(Request::Convert { plan, trace }) => convert_top(alloc, plan, trace, files, out, err),
        Some(Request::Times { plan, trace }) => times_top(alloc, plan, trace, files, out, err),
        Some(
            Request::Why {
                plan,
                trace,
                device,
            },
        ) => why_top(alloc, plan, trace, device, files, out, err),
        Some(Request::Make { number, devices }) => make_top(alloc, number, devices, out, err),
        Some(Request::Desk { plan }) => desk_top(rt, alloc, plan, files, out, err, clock, gate),
        None => refuse_words(err),
    }
}
