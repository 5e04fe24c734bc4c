//! `help`, and `help COMMAND`: what the commands are.

ghost use Rattle.std.specs.Prelude.{[], ◌≡◌};
ghost use Rattle.pm_cmd_ends.specs.Ending.{taking};
ghost use Rattle.pm_cmd_lab.specs.others.Commands.{page_of};
ghost use Rattle.pm_cmd_lab.specs.ends.Coming.{Writes};
ghost use Rattle.pm_cmd_lab.specs.ends.Ending.{Answered, OfThis};

use crate::ends::{Outcome, finish, write_text};
use pm_io::Sink;
use pm_lab_words::Command;

/// The answer of `--version`: the program's name and its number.
pub const VERSION: &[u8] = b"pm_lab 1.35\n";

/// The answer of `help`.
pub const HELP: &[u8] =
    b"usage: pm_lab say PLAN | find PLAN TRACE [--expect FILE] [--ktap] [--notes] | find FILE [--eager|--late] [--most K] [--fail F] [--states N] [--notes] | picture PLAN TRACE [--json] | orders PLAN [--late] [--most K] [--states N] [--differ] [--expect FILE|--seen LOG] | order PLAN [--late] [--most K] [--states N] CALLER N CODE|end DEVICE STATUS USAGE ERROR|--expect FILE fails INDEX | order FILE [--plan] finding N, with the options of find FILE | kernel PLAN | help [COMMAND] | --version

say PLAN            what is wrong with a plan, and where
find PLAN TRACE     what stands out in a run, and whether what is expected holds
find FILE           what is wrong in a driver, in every order of its calls and with
                    callbacks that fail
picture PLAN TRACE  a run as a picture, or as a timeline for a viewer
orders PLAN         what each call may return, and how each device may end, and
                    whether what is expected holds in every order
order PLAN ..       the trace of a run in which a call returns a code, or that
                    leaves a device so, or that breaks what is expected
order FILE ..       the trace of a run that shows what is told of a driver
kernel PLAN         the plan as a C file: a module that runs it on a kernel
";

/// The answer of `help say`.
pub const SAY_PAGE: &[u8] = b"pm_lab say PLAN

Tells of a plan that is refused what is wrong, where in the file, and what may
have been meant:

    touch.toml:9:1: error: device \"hid\": no key \"suspend_msec\"
       |
     9 | suspend_msec = 5
       | ^^^^^^^^^^^^
       = did you mean \"suspend_ms\"?
    plan: key device 1 3

FILE:LINE:COLUMN comes first, so that an editor or a CI job jumps there; lines
and columns count from 1, columns in characters. A long line is cut to 120
columns around the token. The first refusal is that of `pm_top check`, whose
line stands last: its word, the section, the item and the part, which count
from 0. Others, at most 19, follow in the order of the text, each looked at by
itself.

Of a plan that is one it tells what looks wrong, with `warning:` in the same
form, and then how much the plan has:

    touch.toml: devices 2 domains 0 links 0 callers 1 islands 1

All this goes to the output; a file that can't be read is named on standard
error.

A driver file (docs/DRIVER-FORMAT.md) is told of so too:

    hi846.toml: devices 1 flags 0 callers 4 steps 22 places 18 ways 24 guards 4

Status 0: it is a plan or a driver, and nothing in it looks wrong. 1: warnings
are told. 2: wrong words. 3: it is refused, or the file is longer than 1,048,576
bytes. 4: it couldn't be read. 5: writing failed. 7: no memory.
";

/// The answer of `help find`.
pub const FIND_PAGE: &[u8] = b"pm_lab find PLAN TRACE [--expect FILE] [--ktap] [--notes]

Tells what stands out in a run, in the order of its lines, and how much that is:

    cam.trace:12: error: leak: sensor never gives back the count of imx that get_sync took here (cam.toml:40:4)
    1 finding in 130 lines

FILE:LINE comes first, so that an editor or a CI job jumps there; behind it
stands the command in the plan. At most 200 findings are told; the last line
counts them all. The trace is read in either format.

    error    leak          a get whose count is never put, in a finished run
             answer        a call that answers an error; of a failing callback
                           only where the count that it keeps isn't put next
             refused put   a put that has no count to give back
    warning  left on       at the end of a finished run a device is active and
                           no caller holds it, and it is enabled, or disabling
                           it dropped a suspend that was still to come; or a
                           domain is on though no device of it is active
             stolen        a put that takes away another caller's count
             refused status  a set_active or set_suspended that answers -11
                           or -16
             unmarked      a put_autosuspend or put_sync_autosuspend whose
                           device was used since it was marked as busy
             never on      a count under which its device was never active
             off domain    a device is active and a domain of it is off
             off parent, off supplier  the same of its parent, or of the
                           supplier of a link, and why that may be
    note     refused, no count, failed, poisoned   what a right driver meets

Notes, also of what only follows from another finding, are told, and counted,
with --notes alone. Of a trace that isn't the text of a lawful run the first bad
line is told, and why:

    cam.trace:26: not lawful: step

With --expect FILE it tells too which of the expectations in the file fail,
each at its line there, and how many there are:

    cam.expect.toml:14: failed: end imx suspended: cam.trace:130: imx is active at the end, usage 1
    expectations 3 failed 1 open 0

An expectation is a table: [[answer]], a call answers a code; [[end]], a device
ends so; [[use]], during a call a device is active, with all that it needs. One
that a run decides only later is open. With --ktap they alone are told, in the
format of the kernel's own tests. A refused file is told of as `say` does it.

Status 0: no error or warning stands out, and no expectation fails. 1: one does,
or the trace isn't lawful; with --ktap the expectations alone decide. 2: wrong
words. 3: the plan or the expectations are refused, or a file is too long. 4:
one couldn't be read; its name is on standard error. 5: writing failed.
7: no memory.

pm_lab find FILE [--eager|--late] [--most K] [--fail F] [--states N] [--notes]

Goes through the schedules of a driver file (docs/DRIVER-FORMAT.md), each with at
most F failing callbacks, 0 to 3, one where --fail isn't given, and tells what is
wrong in them at its step or its device, by a number that `order FILE finding N`
takes, how it shows first, and which calls have returned before:

    hi846.toml:24:3: warning: disabled: stream: get_sync hi846 answers -13 (EACCES)
        |
     24 |   \"get_sync hi846 or err\",
        |   ^^^^^^^^^^^^^^^^^^^^^^^
        = finding 1: eager, 1 preemption, no failing callback
        = calls: probe do power_on or out, probe do init or out, ..
    1 finding; gone through: all eager schedules with at most 1 failing callback, all late schedules with at most 1 failing callback (95788 states)

First come the eager schedules with no failing callback, then those with at most
1, 2 .. F, then the late ones, each with 0, 1, 2 .. preemptions one after another,
up to K where --most is given. N states are looked at, 1 to 10,000,000, 200,000
where --states isn't given: each pass but the last has a quarter of what is left.
The last line says what was gone through. --eager or --late: that pace alone.
Paces and preemptions are those of `help orders`. A plan without lists of codes is
a driver too.

    error    disabled      a get or resume answers -13 for a disabled device; a
                           warning where its step has another exit
             unread        a get or resume fails, its step has no exit for that,
                           and the device is used behind it
             touched off   a device is used while it, or its domain, is off
             refused put   a put finds no count to give back
             leak          at the end a count isn't given back; what a probe
                           keeps is to be given back by a remove
             hangs         a caller waits, and nothing more comes
    warning  refused status  a set_active or set_suspended answers -11 or -16,
                           and its step has no exit
             left on       at the end a device is active and enabled, and nobody
                           holds it
             left enabled, left forbidden   behind a probe that failed, or a
                           remove, what the probe set up stands
    note     autosuspend left in use   the same

Status 0: nothing is wrong in what was gone through. 1: something is, but for
notes. 2: wrong words. 3: the file is refused, or too long. 4: it couldn't be
read. 5: writing failed. 6: not even the schedules without preemption were gone
through, and nothing is wrong in the part that was. 7: no memory.
";

/// The answer of `help picture`.
pub const PICTURE_PAGE: &[u8] = b"pm_lab picture PLAN TRACE [--json]

Draws a run as an SVG file, without script, for a browser:

    pm_lab picture cam.toml cam.trace >cam.svg

On top stands what stands out, as `find` tells it. Below come the callers, each
call a bar with its words and its code; the domains; the devices, children under
their parents: suspended, resuming, active or suspending, the usage where it
changes, callbacks as dark bars, work items and timers underneath; and the links
that are held. At the right stands how each device ends. Point at a shape to see
its line. From left to right go the lines of the trace, and where time passes a
step is wider. A run of more than 400 such steps is drawn as an overview, with
no words.

With --json it writes the run as trace events, for Perfetto and
chrome://tracing. Times are in microseconds: the milliseconds of a line, and one
more for each line before it in the same millisecond. Each event has its line.

Of a trace that isn't the text of a lawful run the first bad line is told, as
`find` tells it.

Status 0: written. 1: the trace isn't lawful. 2: wrong words. 3: the plan is
refused, or a file is too long. 4: one couldn't be read. 5: writing failed.
7: no memory.
";

/// The answer of `help orders`.
pub const ORDERS_PAGE: &[u8] = b"pm_lab orders PLAN [--late] [--most K] [--states N] [--differ]
                   [--expect FILE|--seen LOG]

Goes through the schedules of the plan, the orders in which the lines of its runs
may come, and tells what each call returns and how each device ends:

    probe 5 get_sync cam: 0 / 1 after 1
    user 1 get_sync cam: -13 / 1 / 0 after 1
    end cam: active usage 1 error 0
    within 2, 1844 states

A line of a call has its caller, its number in the script and its codes, a line
of a device its status, usage and error at the end of a finished run. `never`
says that no schedule has one.

The schedules are eager: a line comes as soon as some actor may write. With --late
an actor's line may also come later than another's. `after K` is the least number
of preemptions with which it shows: of lines at which another writes, or time
moves, though the writer of the last line, or anybody, may write. Schedules of at
most K are gone through, 0 to 99, two where --most isn't given; and at most N
states, 1 to 10,000,000, a million where --states isn't given. A state is what
decides how a schedule goes on.

Callers and devices that no script, parent, link or domain connects run apart,
and are gone through apart. So a schedule has the lines of one island alone, as
they may stand in a run of the whole plan; K, N and the moments at which a line
may come late are the island's own, and the states are counted together.

The last line says how far this is exact: `all`, of all schedules of that pace;
`within K`, of those with at most K preemptions; `limit`, where the states or
the lines of the plan came first, of as many as it names. It is the least that
holds of each island.

With --expect FILE a line for each expectation of the file comes first, of its
answers, its ends and its uses, each in the file's order:

    race.expect.toml:2: holds in every schedule of at most 2 preemptions
    race.expect.toml:7: fails after 1: end cam suspended: cam is active at the end, usage 1

`help find` says what is expected. It fails where some schedule breaks it, and
`order` writes the trace of one. Where a limit came first it may be broken in a
round that isn't complete: `after more than K`. A use may need a device of
another island, so with --expect the schedules have the lines of the whole plan.

With --differ only commands and devices are told that have more than one. With
--seen LOG a line says behind the last one whether each code and end that the
log of a kernel's run tells is listed, or names the first that isn't; `kernel`
makes the module. A device's error isn't told there, nor asked for.

Status 0: each has one, or, with --expect, each expectation holds. 1: one has
more, or what was seen isn't listed; with --expect an expectation fails. 2: wrong
words. 3: the plan or the expectations are refused, or the log is too long or
tells of no whole run. 4: one couldn't be read. 5: writing failed. 6: a limit
came first. 7: no memory.
";

/// The answer of `help order`.
pub const ORDER_PAGE: &[u8] = b"pm_lab order PLAN [--late] [--most K] [--states N] CALLER N CODE
pm_lab order PLAN [--late] [--most K] [--states N] end DEVICE STATUS USAGE ERROR
pm_lab order PLAN [--late] [--most K] [--states N] --expect FILE fails INDEX
pm_lab order FILE [--eager|--late] [--most K] [--fail F] [--states N] [--notes] [--plan] finding N

Writes the trace of a run in which the N-th command of CALLER, counted from 1,
returns CODE; or that leaves DEVICE so, with that error; or that breaks an
expectation of FILE, counted from 1 as `orders --expect` tells them:

    pm_lab order race.toml irq 5 -22 >race.trace
    pm_lab order race.toml end hid suspended 0 0 >race.trace
    pm_lab order race.toml --expect race.expect.toml fails 2 >race.trace

What `orders` lists or says to fail has a run here, with the same options: one of
the schedules, of as few preemptions as `orders` says; from there on the whole plan
goes by one thread to its end. For a return or an end the schedule is of the island
of the caller or the device alone. It is the text of a lawful run, in the plan's
format.

Of a driver's file it writes the run that shows the N-th finding of those that
`find FILE` tells with the same options; with --plan the plan of that run, whose
scripts are what the callers called on the way there and whose codes are what the
callbacks answered:

    pm_lab order hi846.toml finding 1 >bug.trace
    pm_lab order hi846.toml finding 1 --plan >bug.toml
    pm_top audit bug.toml bug.trace

Behind the step that shows the finding no caller calls anything more: what has
begun goes by one thread to its end.

Status 0: written. 1: no schedule has it, of those that were gone through; a
message says how far that is. 2: wrong words. 3: the plan, the driver or the
expectations are refused, or there is no such caller, command, device, expectation
or finding. 4: one couldn't be read. 5: writing failed. 6: a limit of states or of
lines came first, or the run has as many lines as the plan allows and isn't
finished. 7: no memory.
";

/// The answer of `help kernel`.
pub const KERNEL_PAGE: &[u8] = b"pm_lab kernel PLAN

Writes the plan as one C file: a module for Linux 6.1 to 6.12. It makes the
plan's power domains, devices and links, runs the script of each caller on a
thread of its own, and tells what came of it.

    pm_lab kernel touch.toml >pm_lab.c
    echo 'obj-m := pm_lab.o' >Makefile
    make -C /lib/modules/$(uname -r)/build M=$PWD modules
    echo 1 >/sys/kernel/tracing/events/rpm/enable
    insmod pm_lab.ko

Each call and callback goes into the trace (pm_call, pm_ret, pm_begin, pm_end,
pm_domain), beside the kernel's own rpm_* events. At the end the log and the
trace have a line for each command and for each device, in the plan's order:

    pm_lab: answer CALLER N CODE
    pm_lab: end DEVICE STATUS USAGE
    pm_lab: done

A caller that does nothing for a minute has the line `pm_lab: hangs CALLER N`,
and the module stays. A kernel answers otherwise than pm_top in a few places.

Status 0: written. 2: wrong words. 3: the plan is refused. 4: it couldn't be
read. 5: writing failed. 7: no memory.
";

/// The page of a command.
fn page_of(command: Command) -> &'static [u8]
    ensures { result.now ≡ page_of command }
{
    match command {
        Command::Say => SAY_PAGE,
        Command::Find => FIND_PAGE,
        Command::Picture => PICTURE_PAGE,
        Command::Orders => ORDERS_PAGE,
        Command::Order => ORDER_PAGE,
        Command::Kernel => KERNEL_PAGE,
    }
}

/// `help`: the usage and a line for each command.
pub(crate) fn help_top<O: Sink, E: Sink>(out: &mut O, err: &mut E) -> u8
    ensures { Answered (Writes Outcome.Done HELP.now) result (OfThis [] ⊥)
        (taking O.taken O.faults out.old out.new) (taking E.taken E.faults err.old err.new) }
{
    tell(HELP, out, err)
}

/// `help COMMAND`: the page of a command.
pub(crate) fn page_top<O: Sink, E: Sink>(command: Command, out: &mut O, err: &mut E) -> u8
    ensures { Answered (Writes Outcome.Done (page_of command)) result (OfThis [] ⊥)
        (taking O.taken O.faults out.old out.new) (taking E.taken E.faults err.old err.new) }
{
    tell(page_of(command), out, err)
}

/// `--version`: the program's name and its number.
pub(crate) fn version_top<O: Sink, E: Sink>(out: &mut O, err: &mut E) -> u8
    ensures { Answered (Writes Outcome.Done VERSION.now) result (OfThis [] ⊥)
        (taking O.taken O.faults out.old out.new) (taking E.taken E.faults err.old err.new) }
{
    tell(VERSION, out, err)
}

/// Answers a text.
fn tell<O: Sink, E: Sink>(text: &[u8], out: &mut O, err: &mut E) -> u8
    ensures { Answered (Writes Outcome.Done text.now) result (OfThis [] ⊥)
        (taking O.taken O.faults out.old out.new) (taking E.taken E.faults err.old err.new) }
{
    finish(write_text(text, Outcome::Done, out), "", err)
}
