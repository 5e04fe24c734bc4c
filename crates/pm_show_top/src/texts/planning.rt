//! Cases of `pm_planread`: plans that are read, and plans that are refused at a place.

use crate::texts::rows::stored;
use crate::texts::told::{Case, Told};
use pm_base::{DevId, DomId};
use pm_io::Files;
use pm_model::{Command, DeviceRow, Helper, LinkRow, Plan};
use pm_planread::{PlanFault, PlanWhy, Section, read_plan, refusal_message};
use std::alloc::Global;

pub fn cases<F: Files>(alloc: Global, files: &mut F) -> Result<Vec<Case>, PlanFault> {
    let plans = stored(alloc, files, "plans.list")?;
    let no_text = is_said(alloc, b"\xff", "plan: not_toml top 0 0")?;
    let few_codes = is_said(alloc, CODES, "plan: too_many device 0 64")?;
    let cases = [
        (
            "plans are read, or refused at a place",
            are_said(alloc, plans.as_str())?,
        ),
        ("bytes that are no text are refused", Told::One(no_text)),
        ("limits are kept", have_limits(alloc)?),
        ("a device has 64 codes at most", Told::One(few_codes)),
        ("length is looked at first", have_lengths(alloc)?),
        ("faults have messages", Told::One(have_messages())),
        ("a plan is what its text says", is_whole(alloc)?),
        ("starts of a text are read or refused", cut_off(alloc)?),
    ];
    Ok(Vec::from_slice(alloc, &cases)?)
}

/// Whether this is said of a text: `ok`, or the message of its fault. It alone owns a plan.
fn is_said(alloc: Global, text: &[u8], wanted: &str) -> Result<bool, PlanFault> {
    match read_plan(alloc, text) {
        Ok(_plan) => Ok(wanted == "ok"),
        Err(PlanFault::NoMemory) => Err(PlanFault::NoMemory),
        Err(fault) => {
            let message = fault.message();
            Ok(message.as_slice().strip_suffix(b"\n") == Some(wanted.as_bytes()))
        }
    }
}

/// Each text is one that this is said of. What is said stands in a line behind `== `, and the text in the
/// lines below.
fn are_said(alloc: Global, plans: &str) -> Result<Told, PlanFault> {
    let plans = plans.strip_suffix("\n").unwrap_or(plans);
    let mut told = Told::All(0);
    for plan in plans.split("\n== ").skip(1) {
        let (wanted, text) = plan.split_once('\n').unwrap_or((plan, ""));
        told.note(is_said(alloc, text.as_bytes(), wanted)?);
    }
    Ok(told)
}

/// What is said of so many tables of a section.
static COUNTS: [(&str, u32, &str); 6] = [
    ("domain", 128, "ok"),
    ("domain", 129, "plan: too_many domain 128 0"),
    ("device", 1024, "ok"),
    ("device", 1026, "plan: too_many device 1024 0"),
    ("caller", 16, "ok"),
    ("caller", 17, "plan: too_many caller 16 0"),
];

fn has_limit(alloc: Global, section: &str, count: u32, wanted: &str) -> Result<bool, PlanFault> {
    let mut text = String::new(alloc);
    for i in 0..count {
        text.push_str(format!(in alloc; "[[{section}]]\nname = \"n{i}\"\n")?.as_str())?;
    }
    is_said(alloc, text.as_bytes(), wanted)
}

fn have_limits(alloc: Global) -> Result<Told, PlanFault> {
    let mut told = Told::All(0);
    for (section, count, wanted) in &COUNTS {
        told.note(has_limit(alloc, *section, *count, *wanted)?);
    }
    Ok(told)
}

/// A device with 65 codes, and no name.
static CODES: &[u8] =
    b"[[device]]\nname = \"\"\nresume = [0,0,0,0,0,0,0,0,0,0,0,0,0,0,0,0,0,0,0,0,0,0,0,0,0,0,0,0,0,0,0,0,0,0,0,0,0,0,0,0,0,0,0,0,0,0,0,0,0,0,0,0,0,0,0,0,0,0,0,0,0,0,0,0,0]\n";

/// A text of so many bytes, which are all the same, is answered so.
static LENGTHS: [(usize, u8, &str); 4] = [
    (1_048_576, b' ', "ok"),
    (1_048_577, b' ', "plan: too_long top 0 0"),
    (1_048_576, b'[', "plan: not_toml top 0 0"),
    (1_048_577, b'[', "plan: too_long top 0 0"),
];

fn have_lengths(alloc: Global) -> Result<Told, PlanFault> {
    let mut told = Told::All(0);
    for (len, byte, wanted) in &LENGTHS {
        let text = vec![in alloc; *byte; *len]?;
        told.note(is_said(alloc, &text, *wanted)?);
    }
    Ok(told)
}

/// The longest message, and the one that names no place.
fn have_messages() -> bool {
    let longest = refusal_message(
        PlanWhy::NoCallbacksWithDomain,
        Section::Device,
        4_294_967_295,
        4_294_967_295,
    );
    longest.as_slice()
        == b"plan: no_callbacks_with_domain device 4294967295 4294967295\n".as_slice()
        && PlanFault::NoMemory.message().as_slice() == b"memory\n".as_slice()
}

const WHOLE: &[u8] =
    b"lines = 7\ntrace = 2\n[[domain]]\nname = \"m\"\n[[domain]]\nname = \"n\"\nparent = \"m\"\nalways_on = true\n\
    [[device]]\nname = \"a\"\ndomain = \"n\"\nbusy = true\nidle = []\n\
    [[device]]\nname = \"b\"\nparent = \"a\"\nsuspend = [-16, 0]\nresume_ms = 1000000\n\
    [[link]]\nconsumer = \"b\"\nsupplier = \"a\"\n\
    [[caller]]\nname = \"c\"\nscript = [\" set_autosuspend_delay  b -5\", \"link_add b a\"]\n";

fn is_whole(alloc: Global) -> Result<Told, PlanFault> {
    let plan = read_plan(alloc, WHOLE)?;
    Ok(Told::One(has_rows(&plan)))
}

fn has_rows(plan: &Plan) -> bool {
    let [_, domain] = plan.domains.as_slice() else {
        return false;
    };
    let [caller] = plan.callers.as_slice() else {
        return false;
    };
    let tops = (plan.lines, plan.trace, domain.parent, domain.always_on);
    tops == (7, 2, Some(DomId(0)), true)
        && are_devices(plan.devices.as_slice())
        && plan.links.as_slice() == [LINK].as_slice()
        && caller.script.as_slice() == COMMANDS.as_slice()
}

fn are_devices(rows: &[DeviceRow]) -> bool {
    let [first, second] = rows else {
        return false;
    };
    (first.parent, first.domain, first.busy) == (None, Some(DomId(1)), true)
        && (second.parent, second.domain, second.busy) == (Some(DevId(0)), None, false)
        && (first.idle.is_some(), second.idle.is_some()) == (true, false)
        && (second.suspend_ms, second.resume_ms) == (0, 1_000_000)
        && second.suspend.as_slice() == [-16, 0].as_slice()
}

const LINK: LinkRow = LinkRow {
    consumer: DevId(1),
    supplier: DevId(0),
    pm_runtime: true,
    later: false,
};

const COMMANDS: [Command; 2] = [
    Command {
        helper: Helper::SetAutosuspendDelay,
        dev: DevId(1),
        number: -5,
    },
    Command {
        helper: Helper::LinkAdd,
        dev: DevId(1),
        number: 0,
    },
];

/// How many starts of a text are read, are no TOML, and are refused otherwise.
fn cut_off(alloc: Global) -> Result<Told, PlanFault> {
    let text =
        b"[[device]]\nname = \"a\"\n[[caller]]\nname = \"c\"\nscript = [\"enable a\", \"get_sync a\", \"put_noidle a\"]\n";
    let mut counts = [0u32; 3];
    for end in 0..=text.len() {
        let (start, _) = text.split_at(end);
        let place = if is_said(alloc, start, "ok")? {
            0
        } else if is_said(alloc, start, "plan: not_toml top 0 0")? {
            1
        } else {
            2
        };
        counts[place] = counts[place].wrapping_add(1);
    }
    Ok(Told::One(counts == [7, 86, 4]))
}
