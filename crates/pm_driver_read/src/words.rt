//! What a driver's tables say beside a plan's.

ghost use Rattle.std.specs.Prelude.{◌≡◌, [], IfOk, codes, map, unwrap_or};
ghost use Rattle.toml.specs.View.{table_view, view};
ghost use Rattle.pm_planread.specs.tree.Tree.{entries_view, list_at};
ghost use Rattle.pm_driver_read.specs.Words.{all_fails, all_words, caller_words, device_fails, parent_in, texts_at};

use pm_base::{DevId, NoMemory};
use pm_model::Items;
use pm_planread::tree::{
    Entry, Text, entries_of, items_in, list_at, list_in, number_at, switch_at, text_at, texts_in,
};
use pm_script::ScriptWord;
use std::alloc::Global;
use toml::{Table, Value};

/// What a caller's table says.
#[derive(Drop)]
pub struct CallerWords<'a> {
    pub name: ScriptWord<'a>,
    pub script: Items<Text<'a>>,
    pub after: Items<Text<'a>>,
    pub adopts: Items<Text<'a>>,
    pub times: Option<i64>,
    pub irq: bool,
    pub role: Option<Text<'a>>,
    pub binds: Option<Text<'a>>,
    pub bus: Option<Text<'a>>,
}

/// The strings of the array under a key.
fn texts_at<'a>(
    alloc: Global,
    entries: &[Entry<'a>],
    key: &str,
) -> Result<Items<Text<'a>>, NoMemory>
    ensures { IfOk result (λ texts. texts ≡ texts_at key.now (entries_view entries.now)) }
{
    Ok(Items::new(texts_in(alloc, list_in(entries, key))?))
}

/// A string as a word, which has no bytes where there is none.
fn word_or_none<'a>(text: Option<Text<'a>>) -> ScriptWord<'a>
    ensures { result ≡ unwrap_or text.entry [] }
{
    match text {
        Some(text) => ScriptWord::new(text.as_slice()),
        None => ScriptWord::new(b""),
    }
}

/// What a caller's table says.
fn caller_words<'a>(alloc: Global, entries: &[Entry<'a>]) -> Result<CallerWords<'a>, NoMemory>
    ensures { IfOk result (λ words. words ≡ caller_words (entries_view entries.now)) }
{
    Ok(CallerWords {
        name: word_or_none(text_at(entries, "name")),
        script: texts_at(alloc, entries, "script")?,
        after: texts_at(alloc, entries, "after")?,
        adopts: texts_at(alloc, entries, "adopts")?,
        times: number_at(entries, "times"),
        irq: switch_at(entries, "irq").unwrap_or(false),
        role: text_at(entries, "role"),
        binds: text_at(entries, "binds"),
        bus: text_at(entries, "bus"),
    })
}

/// What the tables of callers say.
fn all_words<'a>(alloc: Global, values: &'a [Value]) -> Result<Vec<CallerWords<'a>>, NoMemory>
    ensures { IfOk result (λ all. all.items ≡ all_words (map view values.now)) }
{
    let mut all = Vec::with_capacity(alloc, values.len())?;
    for value in values {
        if let Some(table) = value.as_table() {
            all.push(caller_words(alloc, entries_of(alloc, table)?.as_slice())?)?;
        }
    }
    Ok(all)
}

/// What the callers' tables of a tree say.
pub(crate) fn words_in_tree<'a>(
    alloc: Global,
    tree: &'a Table,
) -> Result<Vec<CallerWords<'a>>, NoMemory>
    ensures { IfOk result (λ all. all.items ≡ all_words (list_at (codes "caller") (table_view tree.now))) }
{
    all_words(alloc, list_at(tree, "caller"))
}

/// Which callbacks a device's table says may fail, where it says so.
fn device_fails<'a>(
    alloc: Global,
    entries: &[Entry<'a>],
) -> Result<Option<Items<Text<'a>>>, NoMemory>
    ensures { IfOk result (λ fails. fails ≡ device_fails (entries_view entries.now)) }
{
    match items_in(entries, "fails") {
        Some(values) => Ok(Some(Items::new(texts_in(alloc, values)?))),
        None => Ok(None),
    }
}

/// Which callbacks the tables of devices say may fail.
fn all_fails<'a>(
    alloc: Global,
    values: &'a [Value],
) -> Result<Vec<Option<Items<Text<'a>>>>, NoMemory>
    ensures { IfOk result (λ all. all.items ≡ all_fails (map view values.now)) }
{
    let mut all = Vec::with_capacity(alloc, values.len())?;
    for value in values {
        if let Some(table) = value.as_table() {
            all.push(device_fails(alloc, entries_of(alloc, table)?.as_slice())?)?;
        }
    }
    Ok(all)
}

/// Which callbacks the devices' tables of a tree say may fail.
pub(crate) fn fails_in_tree<'a>(
    alloc: Global,
    tree: &'a Table,
) -> Result<Vec<Option<Items<Text<'a>>>>, NoMemory>
    ensures { IfOk result (λ all. all.items ≡ all_fails (list_at (codes "device") (table_view tree.now))) }
{
    all_fails(alloc, list_at(tree, "device"))
}

/// The tables of a tree's devices.
pub(crate) fn devices_in_tree<'a>(tree: &'a Table) -> &'a [Value]
    ensures { map view result.now ≡ list_at (codes "device") (table_view tree.now) }
{
    list_at(tree, "device")
}

/// The parent that the table of a device names.
pub(crate) fn parent_in<'a>(
    alloc: Global,
    values: &'a [Value],
    dev: DevId,
) -> Result<Option<Text<'a>>, NoMemory>
    ensures { IfOk result (λ upper. upper ≡ parent_in (map view values.now) dev) }
{
    let Some(value) = values.get(dev.0 as usize) else {
        return Ok(None);
    };
    match value.as_table() {
        Some(table) => Ok(text_at(entries_of(alloc, table)?.as_slice(), "parent")),
        None => Ok(None),
    }
}
