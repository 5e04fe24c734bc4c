//! All events of a run.

ghost use Rattle.std.specs.Prelude.{◌≡◌, ◌<◌, ◌^◌, IfOk, length, reverse, true};
ghost use Rattle.std.specs.List.{list_all};
ghost use Rattle.pm_picture.specs.events.Events.{IsTimeline};
ghost use Rattle.pm_model.specs.Lawful.{IsLawful};
ghost use Rattle.pm_model.specs.LineOf.{is_line_of};

use crate::timeline::bars::tell;
use crate::timeline::threads::{DOMAINS, process_of};
use crate::timeline::writer::Writer;
use pm_base::{DevId, DomId, NoMemory};
use pm_lanes::calls::calls;
use pm_lanes::{Lane, all_pieces, next_places};
use pm_model::{Line, Plan};
use pm_sheet::scene::{Glance, Run, Survey};
use std::alloc::Global;

// Tells how a device stands before the first line: suspended and disabled, without a count.
fn tell_first(writer: &mut Writer<'_>, dev: DevId, glance: &Glance) -> Result<(), NoMemory> {
    let run = writer.run;
    writer.process(process_of(dev), run.device_name(dev))?;
    writer.say(b"suspended")?;
    writer.bar(Lane::Status(dev), 0, glance.moved)?;
    writer.say(b"disabled")?;
    writer.bar(Lane::Disabled(dev), 0, glance.enabled)?;
    writer.usage(dev, 0, 0)
}

// Tells how the devices of which anything is shown stand before the first line.
fn tell_devices(writer: &mut Writer<'_>, survey: &Survey) -> Result<(), NoMemory> {
    let mut number: u32 = 0;
    for glance in &survey.devices {
        if glance.changes {
            tell_first(writer, DevId(number), glance)?;
        }
        number = number.saturating_add(1);
    }
    Ok(())
}

// Tells which domains are on before the first line. These never go off.
fn tell_domains(writer: &mut Writer<'_>, survey: &Survey) -> Result<(), NoMemory> {
    let end = writer.run.end();
    let mut number: u32 = 0;
    writer.process(DOMAINS, b"domains")?;
    for is_on in &survey.on {
        if *is_on {
            writer.say(b"on")?;
            writer.bar(Lane::Domain(DomId(number)), 0, end)?;
        }
        number = number.saturating_add(1);
    }
    Ok(())
}

// The timeline of a run whose pieces are at hand.
fn timeline_of(alloc: Global, run: Run<'_>) -> Result<Vec<u8>, NoMemory>
    ensures { IfOk result (λ text. IsTimeline text.items) }
{
    let survey = Survey::of(alloc, &run)?;
    let mut writer = Writer::new(alloc, run)?;
    tell_domains(&mut writer, &survey)?;
    tell_devices(&mut writer, &survey)?;
    for (place, piece) in run.pieces.iter().enumerate() {
        tell(&mut writer, place, piece)?;
    }
    writer.finish()
}

/// The timeline of a lawful run of a plan, as the text of a JSON file. Fails only where memory runs out.
pub fn timeline_text(alloc: Global, plan: &Plan, lines: &[Line]) -> Result<Vec<u8>, NoMemory>
    requires lawful { IsLawful plan.now (reverse lines.now) }
    requires of_plan { list_all (is_line_of plan.now) (reverse lines.now) ≡ true }
    requires few { length lines.now < 2 ^ 32 }
    ensures { IfOk result (λ text. IsTimeline text.items) }
{
    let pieces = all_pieces(alloc, plan, lines)?;
    let nexts = next_places(alloc, &pieces)?;
    let calls = calls(alloc, lines)?;
    let run = Run {
        plan,
        lines,
        pieces: &pieces,
        nexts: &nexts,
        calls: &calls,
    };
    timeline_of(alloc, run)
}
