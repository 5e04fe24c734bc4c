//! Why a plan isn't read.

ghost use Rattle.std.specs.Prelude.{◌≡◌, Ok, OnOk};
ghost use Rattle.pm_planread.specs.Faults.{refused, unless};
ghost use Rattle.pm_planread.specs.WhyWords.{why_word};
ghost use Rattle.pm_planread.specs.declared.refusal.PlanFault.TheVariants.{NoMemory};

use crate::tree::{Place, Section};
use pm_base::NoMemory;
use std::alloc::{AllocError, AllocFailed};

/// Why a plan is refused, in the order in which the whole plan is looked at (this project's own).
#[derive(Clone, Copy, Debug, PartialEq, Eq)]
pub enum PlanWhy {
    /// It has more than 1,048,576 bytes.
    TooLong,
    /// The bytes are no TOML document.
    NotToml,
    /// A key isn't in its table, or a required one is missing.
    Key,
    /// A value is of another kind than its key's.
    Kind,
    /// There are more items, codes or commands than the limit.
    TooMany,
    /// A name isn't 1 to 32 of its bytes.
    Name,
    /// A name, or a pair of consumer and supplier, stands earlier in its section.
    Repeat,
    /// A name isn't there.
    Unknown,
    /// A parent isn't earlier than its item, or a supplier than its consumer.
    Later,
    /// A device has `no_callbacks` and a domain.
    NoCallbacksWithDomain,
    /// A link has `pm_runtime`, and its consumer `no_callbacks`.
    NoCallbacksWithLink,
    /// A number is out of its range.
    Number,
    /// A code is none that a callback may answer.
    Code,
    /// A command is refused.
    Script,
}

impl PlanWhy {
    /// Its word in messages.
    pub fn word(self) -> &'static str
        ensures { result.now ≡ why_word self }
    {
        match self {
            PlanWhy::TooLong => "too_long",
            PlanWhy::NotToml => "not_toml",
            PlanWhy::Key => "key",
            PlanWhy::Kind => "kind",
            PlanWhy::TooMany => "too_many",
            PlanWhy::Name => "name",
            PlanWhy::Repeat => "repeat",
            PlanWhy::Unknown => "unknown",
            PlanWhy::Later => "later",
            PlanWhy::NoCallbacksWithDomain => "no_callbacks_with_domain",
            PlanWhy::NoCallbacksWithLink => "no_callbacks_with_link",
            PlanWhy::Number => "number",
            PlanWhy::Code => "code",
            PlanWhy::Script => "script",
        }
    }
}

/// Why a plan isn't read (this project's own).
#[derive(Clone, Copy, Debug, PartialEq, Eq)]
pub enum PlanFault {
    /// The first refusal and its place: the item of the section, and what of the item.
    Refused {
        why: PlanWhy,
        section: Section,
        item: u32,
        part: u32,
    },
    /// Memory ran out.
    NoMemory,
}

impl From<NoMemory> for PlanFault {
    ghost from_gives = { λ _ fault. fault ≡ NoMemory };

    fn from(_error: NoMemory) -> PlanFault {
        PlanFault::NoMemory
    }
}

impl From<AllocError> for PlanFault {
    ghost from_gives = { λ _ fault. fault ≡ NoMemory };

    fn from(_error: AllocError) -> PlanFault {
        PlanFault::NoMemory
    }
}

impl<T: Drop> From<AllocFailed<T>> for PlanFault {
    ghost from_gives = { λ _ fault. fault ≡ NoMemory };

    fn from(_failed: AllocFailed<T>) -> PlanFault {
        PlanFault::NoMemory
    }
}

/// The refusal at a place.
pub fn refused(why: PlanWhy, place: Place) -> PlanFault
    ensures { result ≡ refused why place }
{
    PlanFault::Refused {
        why,
        section: place.section,
        item: place.item,
        part: place.part,
    }
}

/// Goes on where there is no fault.
pub fn refuse(why: PlanWhy, fault: Option<Place>) -> Result<(), PlanFault>
    ensures value { result ≡ unless fault why (Ok tt) }
    ensures none { OnOk result (fault ≡ None) }
{
    match fault {
        Some(place) => Err(refused(why, place)),
        None => Ok(()),
    }
}
