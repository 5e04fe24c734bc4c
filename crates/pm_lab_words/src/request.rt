//! The command that the words name.

ghost use Rattle.std.specs.Prelude.{◌≡◌, map, option_map, string_bytes};
ghost use Rattle.pm_lab_words.specs.Read.{given_of, options_of};
ghost use Rattle.pm_lab_words.specs.Request.{asked, asked_by, asked_of, asked_or_help, asked_with, bounds_of, end_behind, end_of, failing_of, fails_behind, find_driver_of, find_of, find_with, finding_behind, finding_of, help_on, is_help, order_finding, order_of, order_plan, order_with, schedules_of, orders_with, return_of, sought_in, sought_of, version_of};

use crate::driver::{DriverBounds, driver_bounds_of, has_no_trace, is_of_plan, is_of_trace};
use crate::given::given_by;
use crate::names::{Command, command_of};
use crate::numbers::{code_in, number_between, number_or, status_in};
use crate::options::Options;
use pm_base::Status;

/// How far the schedules of a plan are looked through.
#[derive(Clone, Copy, PartialEq, Eq)]
pub struct Bounds {
    /// Whether anybody may be late.
    pub late: bool,
    /// How many lines preempt, at most: 0 to 99.
    pub most: u32,
    /// How many states each search looks at, at most: 1 to 10,000,000. `orders` searches each island for itself.
    pub states: u32,
}

/// What a schedule is to show.
#[derive(Clone, Copy, PartialEq, Eq)]
pub enum Sought<'a> {
    /// The `number`-th command of a caller's script, counted from 1, returns this code.
    Return {
        caller: &'a str,
        number: u32,
        code: i32,
    },
    /// At the end a device stands so, with this error stored.
    End {
        device: &'a str,
        status: Status,
        usage: u32,
        error: i32,
    },
}

/// A command, with what its words name. Files are named by their paths.
#[derive(Clone, Copy, PartialEq, Eq)]
pub enum Request<'a> {
    /// `help` or `--help`: the usage and a line for each command.
    Help,
    /// `help COMMAND` or `COMMAND --help`: the page of a command.
    HelpOn(Command),
    /// `--version`: the program's name and number.
    Version,
    /// `say PLAN`: tells what is wrong with the plan.
    Say {
        plan: &'a str,
    },
    /// `find PLAN TRACE`, with `--notes` or without: tells what stands out in the run.
    Find {
        plan: &'a str,
        trace: &'a str,
        notes: bool,
    },
    /// `find PLAN TRACE --expect FILE`, with `--ktap` or without: tells too whether what the file expects holds.
    Check {
        plan: &'a str,
        trace: &'a str,
        expect: &'a str,
        ktap: bool,
        notes: bool,
    },
    /// `find FILE`: tells what is wrong in the schedules of a driver.
    FindDriver {
        file: &'a str,
        bounds: DriverBounds,
        notes: bool,
    },
    /// `picture PLAN TRACE`: draws the run, or writes it for a viewer of traces, with `--json`.
    Picture {
        plan: &'a str,
        trace: &'a str,
        json: bool,
    },
    /// `orders PLAN`: tells what the schedules of the plan show.
    Orders {
        plan: &'a str,
        bounds: Bounds,
        differ: bool,
        /// The log of a kernel's run.
        seen: Option<&'a str>,
    },
    /// `orders PLAN --expect FILE`: tells too which expectations hold in all of them.
    OrdersExpected {
        plan: &'a str,
        expect: &'a str,
        bounds: Bounds,
        differ: bool,
    },
    /// `order PLAN SOUGHT`: writes the trace of a schedule that shows what is sought.
    Order {
        plan: &'a str,
        bounds: Bounds,
        sought: Sought<'a>,
    },
    /// `order PLAN --expect FILE fails INDEX`: writes the trace of a schedule that breaks the expectation of this number, counted
    /// from 1.
    OrderFailing {
        plan: &'a str,
        expect: &'a str,
        bounds: Bounds,
        index: u32,
    },
    /// `order FILE finding N`: writes the trace of a run that shows the finding of this number of those that `find FILE` tells, counted
    /// from 1, or its plan, with `--plan`.
    OrderFinding {
        file: &'a str,
        bounds: DriverBounds,
        notes: bool,
        plan: bool,
        number: u32,
    },
    /// `kernel PLAN`: writes the plan as a module for a kernel.
    Kernel {
        plan: &'a str,
    },
}

/// How far the schedules are looked through.
fn bounds_of(options: &Options<'_>) -> Option<Bounds>
    ensures { result ≡ bounds_of (options_of options.now) }
{
    let most = number_or(0, 99, 2, options.most)?;
    let states = number_or(1, 10_000_000, 1_000_000, options.states)?;
    Some(Bounds {
        late: options.late,
        most,
        states,
    })
}

/// The command `find` of a plan and a trace. `--ktap` is of no use without a file of expectations, and refused.
fn find_with<'a>(
    plan: &'a str,
    trace: &'a str,
    notes: bool,
    expect: Option<&'a str>,
    ktap: bool,
) -> Option<Request<'a>>
    ensures { option_map asked result ≡ find_with plan.now trace.now notes (option_map (λ w. w.now) expect.entry) ktap }
{
    match (expect, ktap) {
        (Some(expect), ktap) => Some(Request::Check {
            plan,
            trace,
            expect,
            ktap,
            notes,
        }),
        (None, false) => Some(Request::Find { plan, trace, notes }),
        (None, true) => None,
    }
}

/// The command `find` of a plan and a trace. What is of a search alone is refused.
fn find_of<'a>(plan: &'a str, trace: &'a str, options: &Options<'a>) -> Option<Request<'a>>
    ensures { option_map asked result ≡ find_of plan.now trace.now (options_of options.now) }
{
    if is_of_trace(options) {
        find_with(plan, trace, options.notes, options.expect, options.ktap)
    } else {
        None
    }
}

/// The command `find` of a driver's file. What is of a trace alone is refused.
fn find_driver_of<'a>(file: &'a str, options: &Options<'a>) -> Option<Request<'a>>
    ensures { option_map asked result ≡ find_driver_of file.now (options_of options.now) }
{
    if !has_no_trace(options) {
        return None;
    }
    let bounds = driver_bounds_of(options)?;
    Some(Request::FindDriver {
        file,
        bounds,
        notes: options.notes,
    })
}

/// The command `orders` of a plan, with these options.
fn orders_with<'a>(
    plan: &'a str,
    bounds: Bounds,
    differ: bool,
    expect: Option<&'a str>,
    seen: Option<&'a str>,
) -> Option<Request<'a>>
    ensures { option_map asked result ≡ orders_with plan.now bounds differ (option_map (λ w. w.now) expect.entry) (option_map (λ w. w.now) seen.entry) }
{
    match (expect, seen) {
        (None, seen) => Some(Request::Orders {
            plan,
            bounds,
            differ,
            seen,
        }),
        (Some(expect), None) => Some(Request::OrdersExpected {
            plan,
            expect,
            bounds,
            differ,
        }),
        (Some(_), Some(_)) => None,
    }
}

/// The command `orders` of a plan. A file of expectations and a log are looked at one by one.
fn schedules_of<'a>(plan: &'a str, options: &Options<'a>) -> Option<Request<'a>>
    ensures { option_map asked result ≡ schedules_of plan.now (options_of options.now) }
{
    let bounds = bounds_of(options)?;
    orders_with(plan, bounds, options.differ, options.expect, options.seen)
}

/// The code that a command of a caller is to return.
fn return_of<'a>(caller: &'a str, number: &str, code: &str) -> Option<Sought<'a>>
    ensures { option_map sought_in result ≡ return_of caller.now number.now code.now }
{
    let number = number_between(1, u32::MAX, number.as_bytes())?;
    let code = code_in(code.as_bytes())?;
    Some(Sought::Return {
        caller,
        number,
        code,
    })
}

/// How a device is to end.
fn end_of<'a>(device: &'a str, status: &str, usage: &str, error: &str) -> Option<Sought<'a>>
    ensures { option_map sought_in result ≡ end_of device.now status.now usage.now error.now }
{
    let status = status_in(status.as_bytes())?;
    let usage = number_between(0, u32::MAX, usage.as_bytes())?;
    let error = code_in(error.as_bytes())?;
    Some(Sought::End {
        device,
        status,
        usage,
        error,
    })
}

/// How a device is to end, where the first word is `end`.
fn end_behind<'a>(
    end: &str,
    device: &'a str,
    status: &str,
    usage: &str,
    error: &str,
) -> Option<Sought<'a>>
    ensures { option_map sought_in result ≡ end_behind end.now device.now status.now usage.now error.now }
{
    if end == "end" {
        end_of(device, status, usage, error)
    } else {
        None
    }
}

/// What the words behind that of the plan seek.
fn sought_of<'a>(words: &[&'a str]) -> Option<Sought<'a>>
    ensures { option_map sought_in result ≡ sought_of (map (λ w. w.now) words.now) }
{
    match words {
        [caller, number, code] => return_of(caller, number, code),
        [end, device, status, usage, error] => end_behind(end, device, status, usage, error),
        _ => None,
    }
}

/// The number of an expectation, where the first word is `fails`.
fn fails_behind(fails: &str, index: &str) -> Option<u32>
    ensures { result ≡ fails_behind fails.now index.now }
{
    if fails == "fails" {
        number_between(1, u32::MAX, index.as_bytes())
    } else {
        None
    }
}

/// The number of the expectation that the words behind that of the plan name.
fn failing_of(words: &[&str]) -> Option<u32>
    ensures { result ≡ failing_of (map (λ w. w.now) words.now) }
{
    match words {
        [fails, index] => fails_behind(fails, index),
        _ => None,
    }
}

/// The command `order` of a plan and what it seeks, with these options.
fn order_with<'a>(
    plan: &'a str,
    words: &[&'a str],
    bounds: Bounds,
    expect: Option<&'a str>,
) -> Option<Request<'a>>
    ensures { option_map asked result ≡ order_with plan.now (map (λ w. w.now) words.now) bounds (option_map (λ w. w.now) expect.entry) }
{
    match expect {
        None => {
            let sought = sought_of(words)?;
            Some(Request::Order {
                plan,
                bounds,
                sought,
            })
        }
        Some(expect) => {
            let index = failing_of(words)?;
            Some(Request::OrderFailing {
                plan,
                expect,
                bounds,
                index,
            })
        }
    }
}

/// The number of a finding, where the first word is `finding`.
fn finding_behind(finding: &str, number: &str) -> Option<u32>
    ensures { result ≡ finding_behind finding.now number.now }
{
    if finding == "finding" {
        number_between(1, u32::MAX, number.as_bytes())
    } else {
        None
    }
}

/// The number of the finding that the words behind that of the file name.
fn finding_of(words: &[&str]) -> Option<u32>
    ensures { result ≡ finding_of (map (λ w. w.now) words.now) }
{
    match words {
        [finding, number] => finding_behind(finding, number),
        _ => None,
    }
}

/// The command `order` of a driver's file and a finding. A file of expectations is refused.
fn order_finding<'a>(file: &'a str, number: u32, options: &Options<'a>) -> Option<Request<'a>>
    ensures { option_map asked result ≡ order_finding file.now number (options_of options.now) }
{
    if options.expect.is_some() {
        return None;
    }
    let bounds = driver_bounds_of(options)?;
    Some(Request::OrderFinding {
        file,
        bounds,
        notes: options.notes,
        plan: options.plan,
        number,
    })
}

/// The command `order` of a plan. What is of a driver's file alone is refused.
fn order_plan<'a>(plan: &'a str, words: &[&'a str], options: &Options<'a>) -> Option<Request<'a>>
    ensures { option_map asked result ≡ order_plan plan.now (map (λ w. w.now) words.now) (options_of options.now) }
{
    if !is_of_plan(options) {
        return None;
    }
    let bounds = bounds_of(options)?;
    order_with(plan, words, bounds, options.expect)
}

/// The command `order` of a plan, or of a driver's file.
fn order_of<'a>(words: &[&'a str], options: &Options<'a>) -> Option<Request<'a>>
    ensures { option_map asked result ≡ order_of (map (λ w. w.now) words.now) (options_of options.now) }
{
    let [plan, words @ ..] = words else {
        return None;
    };
    match finding_of(words) {
        Some(number) => order_finding(plan, number, options),
        None => order_plan(plan, words, options),
    }
}

/// The command of these positional words and options.
fn asked_of<'a>(command: Command, words: &[&'a str], options: &Options<'a>) -> Option<Request<'a>>
    ensures { option_map asked result ≡ asked_of command (map (λ w. w.now) words.now) (options_of options.now) }
{
    match (command, words) {
        (Command::Say, [plan]) => Some(Request::Say { plan }),
        (Command::Find, [plan, trace]) => find_of(plan, trace, options),
        (Command::Find, [file]) => find_driver_of(file, options),
        (Command::Picture, [plan, trace]) => Some(Request::Picture {
            plan,
            trace,
            json: options.json,
        }),
        (Command::Orders, [plan]) => schedules_of(plan, options),
        (Command::Order, words) => order_of(words, options),
        (Command::Kernel, [plan]) => Some(Request::Kernel { plan }),
        _ => None,
    }
}

/// `help`, or `help` with the word of a command.
fn help_on(words: &[String]) -> Option<Request<'_>>
    ensures { option_map asked result ≡ help_on (map string_bytes words.now) }
{
    match words {
        [] => Some(Request::Help),
        [word] => Some(Request::HelpOn(command_of(word.as_str())?)),
        _ => None,
    }
}

/// `--version`, with nothing behind it.
fn version_of(words: &[String]) -> Option<Request<'_>>
    ensures { option_map asked result ≡ version_of (map string_bytes words.now) }
{
    match words {
        [] => Some(Request::Version),
        _ => None,
    }
}

/// Whether these words are `--help` alone.
fn is_help(words: &[String]) -> bool
    ensures { result ≡ is_help (map string_bytes words.now) }
{
    match words {
        [word] => word.as_str() == "--help",
        _ => false,
    }
}

/// The command of a word with the words behind it, or its page, where that is `--help`.
fn asked_or_help(words: &[String], command: Command) -> Option<Request<'_>>
    ensures { option_map asked result ≡ asked_or_help (map string_bytes words.now) command }
{
    if is_help(words) {
        Some(Request::HelpOn(command))
    } else {
        asked_with(words, command)
    }
}

/// The command of a word with the words behind it.
fn asked_with(words: &[String], command: Command) -> Option<Request<'_>>
    ensures { option_map asked result ≡ asked_with (map string_bytes words.now) command }
{
    let given = given_by(command, words)?;
    asked_of(command, given.plain.as_slice(), &given.options)
}

/// The command that the words name: they are those after the program's name. `None` comes exactly where
/// they are none of the commands. It takes no memory.
#[tactic(auto, unfolding(crate::specs::Request::asked_by))]
pub fn read_words(words: &[String]) -> Option<Request<'_>>
    ensures { option_map asked result ≡ asked_by (map string_bytes words.now) }
{
    let [word, words @ ..] = words else {
        return None;
    };
    let word = word.as_str();
    if word == "help" || word == "--help" {
        return help_on(words);
    }
    if word == "--version" {
        return version_of(words);
    }
    let command = command_of(word)?;
    asked_or_help(words, command)
}
