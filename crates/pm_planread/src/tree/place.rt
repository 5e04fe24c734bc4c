//! Where in a plan a refusal is.

ghost use Rattle.std.specs.Prelude.{◌≡◌};
ghost use Rattle.pm_planread.specs.tree.Keys.{section_key};
ghost use Rattle.pm_planread.specs.tree.Places.{capped, place};

/// A part of a plan's text (this project's own).
#[derive(Clone, Copy, Debug, PartialEq, Eq)]
pub enum Section {
    /// The top keys.
    Top,
    Domain,
    Device,
    Link,
    Caller,
}

impl Section {
    /// The section's word in messages. But for the top's, it is the key under which a plan has the
    /// section's tables.
    pub fn word(self) -> &'static str
        ensures { result.now ≡ section_key self }
    {
        match self {
            Section::Top => "top",
            Section::Domain => "domain",
            Section::Device => "device",
            Section::Link => "link",
            Section::Caller => "caller",
        }
    }
}

/// Where in a plan a refusal is (this project's own).
#[derive(Clone, Copy, PartialEq, Eq)]
pub struct Place {
    pub section: Section,
    /// The item of the section, counted from 0; for the top the place of the key among the top keys
    /// in byte order.
    pub item: u32,
    /// What of the item: the place of a key among the item's keys in byte order, or the place of a
    /// code or a command in its list; 0 for the whole.
    pub part: u32,
}

impl Place {
    /// The place with these counts, which stand still at the end of their type.
    pub fn new(section: Section, item: usize, part: usize) -> Place
        ensures { result ≡ place section item part }
    {
        Place {
            section,
            item: capped(item),
            part: capped(part),
        }
    }
}

fn capped(count: usize) -> u32
    ensures { result ≡ capped count }
{
    count.min(u32::MAX as usize) as u32
}
