//! Cases of `pm_linetext`: lines and their texts.
//!
//! A line is read from the text that it is to have, and that it is the line that is meant is a part of the case.

ghost use Rattle.std.specs.Prelude.{◌≡◌, ◌<◌, ◌^◌, length, true};
ghost use Rattle.pm_model.specs.LineOf.{is_line};

use crate::texts::lines::{LARGEST, LONGEST, LONGEST_SHORT, RUN, SMALLEST, Spelled, TIMED};
use crate::texts::plans::TWO;
use crate::texts::told::{Case, Told};
use pm_base::{ActorId, Cb, LINE_BYTES, Req};
use pm_lineread::{read_line, read_line2};
use pm_linetext::{
    LineSpeller, NamesAtHand, TimedText, cb_named, cb_of, cb_place, helper_named, helper_of,
    helper_place, operand_of, req_named, req_of, req_place, status_named, status_of, status_place,
    takes_device, write_line, write_line2,
};
use pm_model::{Helper, Line, Operand, Plan, Word};
use pm_planread::{PlanFault, read_plan};
use std::alloc::Global;

/// The time of the line before the longest one of a run.
const BEFORE: u64 = 9223372036854775806;

pub fn cases(alloc: Global) -> Result<Vec<Case>, PlanFault> {
    let plan = read_plan(alloc, TWO)?;
    cases_over(alloc, &plan)
}

fn cases_over(alloc: Global, plan: &Plan) -> Result<Vec<Case>, PlanFault> {
    let run = are_spelled(alloc, plan, &RUN)?;
    let smallest = are_spelled(alloc, plan, &SMALLEST)?;
    let largest = are_spelled(alloc, plan, &LARGEST)?;
    let [longest, in_place] = longest(alloc, plan)?;
    let cases = [
        ("the lines of a run have their texts", run),
        ("the smallest lines have their texts", smallest),
        ("the largest lines have their texts", largest),
        ("lines of format 2 have theirs", are_timed(alloc, plan)?),
        ("the longest have 162 and 177 bytes", longest),
        ("a speller spells in place", in_place),
        ("names at hand spell in place", names_spell(alloc, plan)?),
        ("words name what stands at their place", words_name()),
    ];
    Ok(Vec::from_slice(alloc, &cases)?)
}

/// A text is read, and the line that is read has this text.
pub fn comes_back(alloc: Global, plan: &Plan, bytes: &[u8]) -> Result<bool, PlanFault> {
    let Ok(line) = read_line(plan, bytes) else {
        return Ok(false);
    };
    let mut text = Vec::new(alloc);
    write_line(alloc, plan, &line, &mut text)?;
    Ok(text.as_slice() == bytes)
}

/// Each text comes back over the plan of this text.
pub fn come_back(alloc: Global, plan: &[u8], table: &[Spelled]) -> Result<Told, PlanFault> {
    let plan = read_plan(alloc, plan)?;
    let mut told = Told::All(0);
    for (bytes, _) in table {
        told.note(comes_back(alloc, &plan, *bytes)?);
    }
    Ok(told)
}

/// Each line has its text in format 1.
fn are_spelled(alloc: Global, plan: &Plan, table: &[Spelled]) -> Result<Told, PlanFault> {
    let mut told = Told::All(0);
    for (bytes, line) in table {
        told.note(read_line(plan, *bytes) == Ok(*line) && comes_back(alloc, plan, *bytes)?);
    }
    Ok(told)
}

/// The line has this text in format 2 behind a line of that time.
fn is_timed(
    alloc: Global,
    plan: &Plan,
    base: u64,
    bytes: &[u8],
    wanted: &Line,
) -> Result<bool, PlanFault> {
    if base >= 1 << 63 {
        return Ok(false);
    }
    let Ok(line) = read_line2(plan, base, bytes) else {
        return Ok(false);
    };
    let mut text = Vec::new(alloc);
    write_line2(alloc, plan, base, &line, &mut text)?;
    Ok(text.as_slice() == bytes && line == *wanted)
}

/// Each text has the time since the line before.
fn are_timed(alloc: Global, plan: &Plan) -> Result<Told, PlanFault> {
    let mut told = Told::All(0);
    let mut base = 0;
    for (bytes, line) in &TIMED {
        told.note(is_timed(alloc, plan, base, *bytes, line)?);
        base = line.time;
    }
    Ok(told)
}

/// The lengths of the texts of both longest lines, that the shorter takes no more room than it is to have, and that
/// a speller spells them in place.
fn longest(alloc: Global, plan: &Plan) -> Result<[Told; 2], PlanFault> {
    let (bytes, wanted) = LONGEST_SHORT;
    let (Ok(line), Ok(short)) = (read_line(plan, LONGEST), read_line2(plan, BEFORE, bytes)) else {
        return Ok([Told::One(false), Told::One(false)]);
    };
    let mut text = Vec::with_capacity(alloc, LINE_BYTES)?;
    write_line(alloc, plan, &short, &mut text)?;
    let (short_len, capacity) = (text.len(), text.capacity());
    text.clear();
    write_line(alloc, plan, &line, &mut text)?;
    let lengths = [short_len, capacity, text.len()];
    let speller = LineSpeller::new(alloc, plan)?;
    let mut in_place = TimedText::new();
    speller.spell_line(&line, &mut in_place);
    let length = in_place.as_slice().len();
    speller.spell_line2(BEFORE, &short, &mut in_place);
    let is_short = in_place.as_slice().strip_suffix(b"\n") == Some(bytes);
    let are_long = short == wanted && lengths == [162, 162, 177];
    Ok([Told::One(are_long), Told::One(length == 178 && is_short)])
}

/// Puts the text of the line by the names, with this time in place of its own.
fn named(names: &NamesAtHand, time: u64, line: &Line, text: &mut TimedText)
    requires line_of_names { is_line (length names.now.devices) (length names.now.callers) line.now ≡ true }
    requires in_time { time < 2 ^ 63 }
{
    names.start_line(time, line.actor, text);
    names.end_line(&line.event, text);
}

fn names_spell(alloc: Global, plan: &Plan) -> Result<Told, PlanFault> {
    let (bytes, wanted) = TIMED[4];
    let (Ok(line), Ok(fire)) = (read_line(plan, LONGEST), read_line2(plan, 9, bytes)) else {
        return Ok(Told::One(false));
    };
    let names = NamesAtHand::new(alloc, plan)?;
    let mut text = TimedText::new();
    named(&names, line.time, &line, &mut text);
    let length = text.as_slice().len();
    named(&names, 10, &fire, &mut text);
    let at_ten = text.as_slice() == b"10 timer.a pm_timer: a fire auto\n".as_slice();
    named(&names, 1, &fire, &mut text);
    named(&names, 1, &fire, &mut text);
    let at_one = text.as_slice() == b"1 timer.a pm_timer: a fire auto\n".as_slice();
    let has_actors = names.has_actor(ActorId::Caller(1))
        && !names.has_actor(ActorId::Caller(2))
        && names.has_actor(ActorId::Work(1))
        && !names.has_actor(ActorId::Timer(2));
    let spells = fire == wanted && length == 178 && at_ten && at_one;
    Ok(Told::One(spells && has_actors))
}

fn words_name() -> Told {
    let helpers = (
        helper_of(29),
        helper_of(34),
        helper_named(b"put_sync"),
        helper_named(b"put_"),
    );
    let of_helpers = (
        helper_place(Helper::LinkDel),
        operand_of(Helper::LinkAdd),
        takes_device(Helper::Delay),
    );
    let at = (status_of(3), req_of(0), cb_of(2));
    let named = (
        status_named(b"forced_active"),
        req_named(b"none"),
        cb_named(b"idle"),
    );
    let places = (
        status_place(Word::ForcedSuspended),
        req_place(Req::Resume),
        cb_place(Cb::Suspend),
    );
    Told::One(
        helpers
            == (
                Some(Helper::SetAutosuspendDelay),
                None,
                Some(Helper::PutSync),
                None,
            )
            && of_helpers == (33, Operand::Supplier, false)
            && at == (Some(Word::Deferred), Some(Req::Nothing), Some(Cb::Resume))
            && named == (Some(Word::ForcedActive), Some(Req::Nothing), Some(Cb::Idle))
            && places == (5, 4, 1),
    )
}
