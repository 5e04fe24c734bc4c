//! Which command the words name.

ghost use Rattle.std.specs.Prelude.{◌≡◌, ◌↔◌, map, string_bytes, IfSome, IsNone};
ghost use Rattle.pm_cmd_ends.specs.Ending.{Told, taking};
ghost use Rattle.pm_io.specs.Asks.{AskedOnly};
ghost use Rattle.pm_io.specs.Faults.{Rose};
ghost use Rattle.pm_cmd_lab.specs.others.Commands.{AskedEnds, AskedUnread};
ghost use Rattle.pm_cmd_lab.specs.ends.Ending.{Answered, usage};
ghost use Rattle.pm_lab_words.specs.Request.{asked, asked_by};

use crate::ends::refuse_words;
use crate::find::{check_top, find_driver_top, find_top};
use crate::order::{FindingAsked, failing_top, finding_top, order_top};
use crate::orders::{expect_top, orders_top, seen_top};
use crate::others::help::{help_top, page_top, version_top};
use crate::others::kernel::kernel_top;
use crate::others::say::say_top;
use crate::picture::picture_top;
use pm_io::{Files, Sink};
use pm_lab_words::{Request, read_words};
use std::alloc::Global;

/// Runs a command.
fn answer<F: Files, O: Sink, E: Sink>(
    alloc: Global,
    request: Request<'_>,
    files: &mut F,
    out: &mut O,
    err: &mut E,
) -> u8
    ensures { Answered (AskedEnds F.tells_all (F.told files.old) (asked request.entry)) result
        (AskedUnread F.tells_all (F.told files.old) (asked request.entry)
        (λ name. AskedOnly name (F.asked files.old) (F.asked files.new))
        (Rose (F.faults files.old) (F.faults files.new)))
        (taking O.taken O.faults out.old out.new) (taking E.taken E.faults err.old err.new) }
{
    match request {
        Request::Help => help_top(out, err),
        Request::HelpOn(command) => page_top(command, out, err),
        Request::Version => version_top(out, err),
        Request::Say { plan } => say_top(alloc, plan, files, out, err),
        Request::Find { plan, trace, notes } => find_top(
            alloc, plan, trace, notes, files, out, err,
        ),
        Request::Check {
            plan,
            trace,
            expect,
            ktap,
            notes,
        } => check_top(alloc, plan, trace, expect, ktap, notes, files, out, err),
        Request::FindDriver {
            file,
            bounds,
            notes,
        } => find_driver_top(alloc, file, bounds, notes, files, out, err),
        Request::Picture { plan, trace, json } => {
            picture_top(alloc, plan, trace, json, files, out, err)
        }
        Request::Orders {
            plan,
            bounds,
            differ,
            seen: Some(log),
        } => seen_top(alloc, plan, log, bounds, differ, files, out, err),
        Request::Orders {
            plan,
            bounds,
            differ,
            seen: None,
        } => orders_top(alloc, plan, bounds, differ, files, out, err),
        Request::OrdersExpected {
            plan,
            expect,
            bounds,
            differ,
        } => expect_top(alloc, plan, expect, bounds, differ, files, out, err),
        Request::OrderFailing {
            plan,
            expect,
            bounds,
            index,
        } => failing_top(alloc, plan, expect, bounds, index, files, out, err),
        Request::Order {
            plan,
            bounds,
            sought,
        } => order_top(alloc, plan, bounds, sought, files, out, err),
        Request::OrderFinding {
            file,
            bounds,
            notes,
            plan,
            number,
        } => {
            let asked = FindingAsked {
                bounds,
                notes,
                plan,
                number,
            };
            finding_top(alloc, file, asked, files, out, err)
        }
        Request::Kernel { plan } => kernel_top(alloc, plan, files, out, err),
    }
}

/// Runs the command that the words name: they are those after the program's name. The answer is the status
/// that the program ends with. Wrong words are answered by the usage text, which goes to `err`.
pub fn top<F: Files, O: Sink, E: Sink>(
    alloc: Global,
    words: &[String],
    files: &mut F,
    out: &mut O,
    err: &mut E,
) -> u8
    ensures words { (result ≡ 2) ↔ IsNone (asked_by (map string_bytes words.now)) }
    ensures untouched { result ≡ 2 → (files.new ≡ files.old) × (out.new ≡ out.old) }
    ensures usage { result ≡ 2 → Told (taking E.taken E.faults err.old err.new) usage }

    // Else the clause of the command that they name.
    ensures answer { IfSome (asked_by (map string_bytes words.now)) (λ asked.
        Answered (AskedEnds F.tells_all (F.told files.old) asked) result
        (AskedUnread F.tells_all (F.told files.old) asked
        (λ name. AskedOnly name (F.asked files.old) (F.asked files.new))
        (Rose (F.faults files.old) (F.faults files.new)))
        (taking O.taken O.faults out.old out.new) (taking E.taken E.faults err.old err.new)) }
{
    match read_words(words) {
        Some(request) => answer(alloc, request, files, out, err),
        None => refuse_words(err),
    }
}
