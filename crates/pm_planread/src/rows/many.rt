//! Items, codes and commands past the limits.

ghost use Rattle.std.specs.Prelude.{◌≡◌, false, length};
ghost use Rattle.std.specs.Option.{option_map_or};
ghost use Rattle.pm_planread.specs.tree.Places.{first_fault};
ghost use Rattle.pm_planread.specs.rows.TooMany.{are_many_codes, caller_too_many, device_too_many, has_many_codes, has_many_commands, item_too_many, past_limit, too_many_fault};

use crate::tree::{Codes64, Place, RawCaller, RawDevice, RawPlan, Section};
use pm_base::{MAX_CALLERS, MAX_CODES, MAX_COMMANDS, MAX_DEVICES, MAX_DOMAINS, MAX_LINKS};

/// The first item past its limit, or list of codes or commands past its limit.
#[tactic(auto, unfolding(crate::specs::rows::TooMany::too_many_fault))]
pub fn too_many_fault(raw: &RawPlan) -> Option<Place>
    ensures { result ≡ too_many_fault raw.now }
{
    if let Some(fault) = past_limit(Section::Domain, MAX_DOMAINS, raw.domains.as_slice().len()) {
        return Some(fault);
    }
    if let Some(fault) = many_in_devices(raw.devices.as_slice()) {
        return Some(fault);
    }
    if let Some(fault) = past_limit(Section::Link, MAX_LINKS, raw.links.as_slice().len()) {
        return Some(fault);
    }
    many_in_callers(raw.callers.as_slice())
}

/// The first item past the limit, of so many.
fn past_limit(section: Section, limit: usize, count: usize) -> Option<Place>
    ensures { result ≡ past_limit section limit count }
{
    if count > limit {
        Some(Place::new(section, limit, 0))
    } else {
        None
    }
}

/// An item that is past the limit, or else has a list that is too long.
fn item_too_many(
    section: Section,
    limit: usize,
    part: usize,
    i: usize,
    is_long: bool,
) -> Option<Place>
    ensures { result ≡ item_too_many section limit part i is_long }
{
    if i >= limit {
        Some(Place::new(section, i, 0))
    } else if is_long {
        Some(Place::new(section, i, part))
    } else {
        None
    }
}

fn many_in_devices(rows: &[RawDevice]) -> Option<Place>
    ensures { result ≡ first_fault device_too_many 0 rows.now }
{
    for (i, row) in rows.iter().enumerate() {
        let fault = item_too_many(
            Section::Device,
            MAX_DEVICES,
            MAX_CODES,
            i,
            has_many_codes(row),
        );
        if fault.is_some() {
            return fault;
        }
    }
    None
}

fn has_many_codes(row: &RawDevice) -> bool
    ensures { result ≡ has_many_codes row.now }
{
    are_many_idle_codes(&row.idle) || are_many_codes(&row.suspend) || are_many_codes(&row.resume)
}

fn are_many_idle_codes(codes: &Option<Codes64>) -> bool
    ensures { result ≡ option_map_or are_many_codes codes.now false }
{
    match codes {
        Some(codes) => are_many_codes(codes),
        None => false,
    }
}

fn are_many_codes(codes: &Codes64) -> bool
    ensures { result ≡ are_many_codes codes.now }
{
    codes.as_slice().len() > MAX_CODES
}

fn many_in_callers(rows: &[RawCaller]) -> Option<Place>
    ensures { result ≡ first_fault caller_too_many 0 rows.now }
{
    for (i, row) in rows.iter().enumerate() {
        let is_long = has_many_commands(row);
        let fault = item_too_many(Section::Caller, MAX_CALLERS, MAX_COMMANDS, i, is_long);
        if fault.is_some() {
            return fault;
        }
    }
    None
}

fn has_many_commands(row: &RawCaller) -> bool
    ensures { result ≡ has_many_commands row.now }
{
    row.script.as_slice().len() > MAX_COMMANDS
}
