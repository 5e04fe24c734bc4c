//! Names that are none, that stand twice, or that aren't there.

ghost use Rattle.std.specs.Prelude.{◌≡◌, ◌&&◌, length, map, nat_le};
ghost use Rattle.std.specs.List.{list_all};
ghost use Rattle.pm_base.specs.declared.limits.TheConstants.{MAX_NAME};
ghost use Rattle.pm_model.specs.IsPlan.{is_caller_name, is_name, is_name_byte, is_plain_byte};
ghost use Rattle.pm_planread.specs.tree.Places.{first_fault};
ghost use Rattle.pm_planread.specs.declared.tree.place.Section.TheVariants.{Link};
ghost use Rattle.pm_planread.specs.rows.Faults.{fault_if};
ghost use Rattle.pm_planread.specs.rows.Names.{AreNamesOf, device_unknown, domain_unknown, first_bad_name, first_repeat, is_earlier, is_lost, is_name_in, is_unknown, link_names, link_unknown, name_fault, names_in, repeat_fault, unknown_fault};

use crate::rows::index::{Index, Label};
use crate::rows::names::Names;
use crate::tree::{Place, RawDevice, RawDomain, RawLink, RawPlan, Section, Text};
use pm_base::MAX_NAME;
use pm_model::{Named, NamedList};

/// The item, where something is wrong with it.
pub fn fault_if(section: Section, i: usize, wrong: bool) -> Option<Place>
    ensures { result ≡ fault_if section i wrong }
{
    if wrong {
        Some(Place::new(section, i, 0))
    } else {
        None
    }
}

/// The first name that is none.
#[tactic(auto, unfolding(crate::specs::rows::Names::name_fault))]
pub fn name_fault(raw: &RawPlan, names: &Names) -> Option<Place>
    requires { AreNamesOf raw.now names.now }
    ensures { result ≡ name_fault raw.now }
{
    if let Some(fault) = first_bad_name(Section::Domain, names.domains.as_slice()) {
        return Some(fault);
    }
    if let Some(fault) = first_bad_name(Section::Device, names.devices.as_slice()) {
        return Some(fault);
    }
    first_bad_name(Section::Caller, names.callers.as_slice())
}

fn first_bad_name(section: Section, labels: &[Label]) -> Option<Place>
    ensures { result ≡ first_bad_name section (names_in labels.now) }
{
    for (i, label) in labels.iter().enumerate() {
        let fault = fault_if(section, i, !is_name_in(section, label.name.as_slice()));
        if fault.is_some() {
            return fault;
        }
    }
    None
}

/// The first name, or pair of names of a link, that stands earlier in its section.
#[tactic(auto, unfolding(crate::specs::rows::Names::repeat_fault), using(crate::proofs::rows::NameLemmas::links_repeat))]
pub fn repeat_fault(raw: &RawPlan, names: &Names) -> Option<Place>
    requires { AreNamesOf raw.now names.now }
    ensures { result ≡ repeat_fault raw.now }
{
    if let Some(fault) = first_repeat(Section::Domain, &names.domains) {
        return Some(fault);
    }
    if let Some(fault) = first_repeat(Section::Device, &names.devices) {
        return Some(fault);
    }
    if let Some(fault) = first_pair_repeat(raw, names) {
        return Some(fault);
    }
    first_repeat(Section::Caller, &names.callers)
}

/// The first name that stands earlier, which isn't looked for where no two are the same.
#[tactic(auto, using(crate::proofs::rows::ApartLemmas::none_repeats))]
fn first_repeat(section: Section, index: &Index) -> Option<Place>
    ensures { result ≡ first_repeat section (names_in index.now) }
{
    if index.is_distinct() {
        None
    } else {
        repeat_among(section, index.labels())
    }
}

/// The first pair of names of a link that stands earlier.
#[tactic(auto, using(crate::proofs::rows::ApartLemmas::none_repeats))]
fn first_pair_repeat(raw: &RawPlan, names: &Names) -> Option<Place>
    requires { AreNamesOf raw.now names.now }
    ensures { result ≡ first_repeat Link (link_names raw.now) }
{
    match &names.links {
        Some(pairs) => repeat_among(Section::Link, pairs),
        None => None,
    }
}

fn repeat_among<T: Named>(section: Section, list: &NamedList<T>) -> Option<Place>
    ensures { result ≡ first_repeat section (map T.name_of list.now) }
{
    for (i, row) in list.as_slice().iter().enumerate() {
        let place = list.find(row.name().as_slice());
        let fault = fault_if(section, i, is_earlier(i, place));
        if fault.is_some() {
            return fault;
        }
    }
    None
}

fn is_earlier(i: usize, place: Option<usize>) -> bool
    ensures { result ≡ is_earlier i place }
{
    match place {
        Some(place) => place < i,
        None => false,
    }
}

/// The first item with a reference to a name that isn't there.
#[tactic(auto, unfolding(crate::specs::rows::Names::unknown_fault))]
pub fn unknown_fault(raw: &RawPlan, names: &Names) -> Option<Place>
    requires { AreNamesOf raw.now names.now }
    ensures { result ≡ unknown_fault raw.now }
{
    if let Some(fault) = unknown_in_domains(raw.domains.as_slice(), &names.domains) {
        return Some(fault);
    }
    if let Some(fault) = unknown_in_devices(
        raw.devices.as_slice(),
        &names.domains,
        &names.devices,
    ) {
        return Some(fault);
    }
    unknown_in_links(raw.links.as_slice(), &names.devices)
}

fn unknown_in_domains(rows: &[RawDomain], domains: &Index) -> Option<Place>
    ensures { result ≡ first_fault (domain_unknown (names_in domains.now)) 0 rows.now }
{
    for (i, row) in rows.iter().enumerate() {
        let fault = fault_if(Section::Domain, i, is_lost(domains, &row.parent));
        if fault.is_some() {
            return fault;
        }
    }
    None
}

fn unknown_in_devices(rows: &[RawDevice], domains: &Index, devices: &Index) -> Option<Place>
    ensures { result ≡ first_fault (device_unknown (names_in domains.now) (names_in devices.now)) 0 rows.now }
{
    for (i, row) in rows.iter().enumerate() {
        let lost = is_lost(devices, &row.parent) || is_lost(domains, &row.domain);
        let fault = fault_if(Section::Device, i, lost);
        if fault.is_some() {
            return fault;
        }
    }
    None
}

fn unknown_in_links(rows: &[RawLink], devices: &Index) -> Option<Place>
    ensures { result ≡ first_fault (link_unknown (names_in devices.now)) 0 rows.now }
{
    for (i, row) in rows.iter().enumerate() {
        let lost = is_unknown(devices, &row.consumer) || is_unknown(devices, &row.supplier);
        let fault = fault_if(Section::Link, i, lost);
        if fault.is_some() {
            return fault;
        }
    }
    None
}

fn is_unknown(index: &Index, name: &Text) -> bool
    ensures { result ≡ is_unknown (names_in index.now) name.now }
{
    index.find(name.as_slice()).is_none()
}

fn is_lost(index: &Index, name: &Option<Text>) -> bool
    ensures { result ≡ is_lost (names_in index.now) name.now }
{
    match name {
        Some(name) => is_unknown(index, name),
        None => false,
    }
}

/// Whether the bytes are a name in the section: 1 to 32 letters, digits, `_`, `-`, `.` and `:` of
/// ASCII, for a caller without `.` and `:`.
fn is_name_in(section: Section, name: &[u8]) -> bool
    ensures { result ≡ is_name_in section name.now }
{
    match section {
        Section::Caller => is_caller_name(name),
        Section::Top | Section::Domain | Section::Device | Section::Link => is_name(name),
    }
}

fn is_name(name: &[u8]) -> bool
    ensures { result ≡ is_name name.now }
{
    has_name_length(name) && are_name_bytes(name)
}

fn is_caller_name(name: &[u8]) -> bool
    ensures { result ≡ is_caller_name name.now }
{
    has_name_length(name) && are_plain_bytes(name)
}

fn has_name_length(name: &[u8]) -> bool
    ensures { result ≡ (nat_le 1 (length name.now) && nat_le (length name.now) MAX_NAME) }
{
    !name.is_empty() && name.len() <= MAX_NAME
}

fn are_name_bytes(bytes: &[u8]) -> bool
    ensures { result ≡ list_all is_name_byte bytes.now }
{
    bytes.iter().all(|c| is_name_byte(*c))
}

fn are_plain_bytes(bytes: &[u8]) -> bool
    ensures { result ≡ list_all is_plain_byte bytes.now }
{
    bytes.iter().all(|c| is_plain_byte(*c))
}

fn is_name_byte(c: u8) -> bool
    ensures { result ≡ is_name_byte c }
{
    is_plain_byte(c) || c == b'.' || c == b':'
}

fn is_plain_byte(c: u8) -> bool
    ensures { result ≡ is_plain_byte c }
{
    c.is_ascii_alphanumeric() || c == b'_' || c == b'-'
}
