//! The note on a refusal of a tree.

use crate::further::Refusal;
use pm_base::NoMemory;
use pm_messages::notes::{
    Note, code_note, command_note, domain_note, item_path, key_note, kind_note, later_note,
    lines_are_outside, link_note, many_note, name_note, number_note, repeat_note, unknown_note,
};
use pm_planread::PlanWhy;
use pm_planread::tree::Section;
use std::alloc::Global;
use toml::Table;

/// The note on a refusal of a tree. Fails where memory runs out.
pub fn note_of<'a>(alloc: Global, tree: &'a Table, refusal: Refusal) -> Result<Note<'a>, NoMemory> {
    let Refusal {
        why,
        section,
        item,
        part,
    } = refusal;
    let (item, part) = (item as usize, part as usize);
    let note = match why {
        PlanWhy::TooLong | PlanWhy::NotToml => None,
        PlanWhy::Key => key_note(alloc, tree, section, item, part)?,
        PlanWhy::Kind => kind_note(alloc, tree, section, item, part)?,
        PlanWhy::TooMany => many_note(alloc, tree, section, item, part)?,
        PlanWhy::Name => name_note(alloc, tree, section, item)?,
        PlanWhy::Repeat => repeat_note(alloc, tree, section, item)?,
        PlanWhy::Unknown => unknown_note(alloc, tree, section, item)?,
        PlanWhy::Later => later_note(alloc, tree, section, item)?,
        PlanWhy::NoCallbacksWithDomain => domain_note(alloc, tree, item)?,
        PlanWhy::NoCallbacksWithLink => link_note(alloc, tree, item)?,
        PlanWhy::Number => {
            number_note(alloc, tree, section, item, number_part(tree, section, item))?
        },
        PlanWhy::Code => code_note(alloc, tree, item, part)?,
        PlanWhy::Script => command_note(alloc, tree, item, part)?,
    };
    match note {
        Some(note) => Ok(note),
        None => plain_note(alloc, why, section, item),
    }
}

/// The part of a refusal of a number: 1 for `trace` behind `lines` that are refused too, so that each is told of by itself.
fn number_part(tree: &Table, section: Section, item: usize) -> usize {
    for (number, (key, _)) in tree.iter().enumerate() {
        if section == Section::Top
            && number == item
            && key.as_str() == "trace"
            && lines_are_outside(tree)
        {
            return 1;
        }
    }
    0
}

/// What is told where nothing more is known.
fn plain_note<'a>(
    alloc: Global,
    why: PlanWhy,
    section: Section,
    item: usize,
) -> Result<Note<'a>, NoMemory> {
    let (word, place) = (why.word(), section.word());
    let message = format!(in alloc; "refused: {word}, {place} {item}")?;
    Ok(Note::on_key(alloc, message, item_path(section, item)))
}
