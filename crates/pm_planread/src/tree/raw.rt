//! What the tree of a plan says, row by row.

ghost use Rattle.std.specs.Prelude.{◌≡◌, [], map, unwrap_or, IfOk};
ghost use Rattle.toml.specs.Data.{Members, as_str};
ghost use Rattle.toml.specs.View.{table_view, view};
ghost use Rattle.pm_planread.specs.tree.Tree.{entries_view};
ghost use Rattle.pm_planread.specs.tree.Raw.{key_place, number_at, numbers_at, numbers_in, raw_caller, raw_device, raw_domain, raw_link, raw_plan, rows_in, switch_at, text_at, texts_in};

use crate::tree::text::Text;
use crate::tree::tree::{Entry, entries_of, items_in, list_in, value_in};
use pm_base::DEFAULT_LINES;
use pm_model::{Items, Name, Named};
use std::alloc::{AllocError, Global};
use toml::{Table, Value};

/// Codes of a callback as the text writes them.
pub type Codes64 = Items<i64>;

/// A domain, which names its parent.
#[derive(Drop)]
pub struct RawDomain<'a> {
    pub name: Name,
    pub parent: Option<Text<'a>>,
    pub always_on: bool,
}

impl<'a> Named for RawDomain<'a> {
    ghost name_of = { λ row. row.name };

    fn name(&self) -> &Name {
        &self.name
    }
}

/// A device, which names its parent and its domain.
#[derive(Drop)]
pub struct RawDevice<'a> {
    pub name: Name,
    pub parent: Option<Text<'a>>,
    pub domain: Option<Text<'a>>,
    pub ignore_children: bool,
    pub no_callbacks: bool,
    pub busy: bool,
    pub idle: Option<Codes64>,
    pub suspend: Codes64,
    pub resume: Codes64,
    pub idle_ms: i64,
    pub suspend_ms: i64,
    pub resume_ms: i64,
}

impl<'a> Named for RawDevice<'a> {
    ghost name_of = { λ row. row.name };

    fn name(&self) -> &Name {
        &self.name
    }
}

/// A link, which names its devices.
#[derive(Drop)]
pub struct RawLink<'a> {
    pub consumer: Text<'a>,
    pub supplier: Text<'a>,
    pub pm_runtime: bool,
    pub later: bool,
}

/// A caller with the text of each command.
#[derive(Drop)]
pub struct RawCaller<'a> {
    pub name: Name,
    pub script: Items<Text<'a>>,
}

impl<'a> Named for RawCaller<'a> {
    ghost name_of = { λ row. row.name };

    fn name(&self) -> &Name {
        &self.name
    }
}

/// What the text of a plan says. Its rows own their names; all other text is the tree's.
#[derive(Drop)]
pub struct RawPlan<'a> {
    pub lines: i64,
    /// The place of the key `lines` among the top keys in byte order, and 0 where it is missing.
    pub lines_at: usize,
    pub trace: i64,
    /// The same of the key `trace`.
    pub trace_at: usize,
    pub domains: Items<RawDomain<'a>>,
    pub devices: Items<RawDevice<'a>>,
    pub links: Items<RawLink<'a>>,
    pub callers: Items<RawCaller<'a>>,
}

/// A row of a plan that a table says.
trait Row<'a>: Drop {
    /// The row of a table.
    ghost row_of: { Members → Self };

    fn row(alloc: Global, entries: &[Entry<'a>]) -> Result<Self, AllocError>
        ensures { IfOk result (λ row. row ≡ row_of (entries_view entries.now)) };
}

/// What the tree says. It fails where memory runs out.
#[tactic(auto, unfolding(crate::specs::tree::Raw::raw_plan))]
pub fn raw_plan<'a>(alloc: Global, tree: &'a Table) -> Result<RawPlan<'a>, AllocError>
    ensures { IfOk result (λ plan. plan ≡ raw_plan (table_view tree.now)) }
{
    let entries = entries_of(alloc, tree)?;
    let entries = entries.as_slice();
    let domains = Items::new(rows_in(alloc, list_in(entries, "domain"))?);
    let devices = Items::new(rows_in(alloc, list_in(entries, "device"))?);
    let links = Items::new(rows_in(alloc, list_in(entries, "link"))?);
    let callers = Items::new(rows_in(alloc, list_in(entries, "caller"))?);
    Ok(RawPlan {
        lines: number_at(entries, "lines").unwrap_or(i64::from(DEFAULT_LINES)),
        lines_at: key_place(tree, "lines"),
        trace: number_at(entries, "trace").unwrap_or(1),
        trace_at: key_place(tree, "trace"),
        domains,
        devices,
        links,
        callers,
    })
}

/// The rows of an array's tables.
fn rows_in<'a, T: Row<'a>>(alloc: Global, values: &'a [Value]) -> Result<Vec<T>, AllocError>
    ensures { IfOk result (λ rows. rows.items ≡ rows_in T.row_of (map view values.now)) }
{
    let mut rows = Vec::with_capacity(alloc, values.len())?;
    for value in values {
        if let Some(table) = value.as_table() {
            rows.push(T::row(alloc, entries_of(alloc, table)?.as_slice())?)?;
        }
    }
    Ok(rows)
}

impl<'a> Row<'a> for RawDomain<'a> {
    ghost row_of = { raw_domain };

    #[tactic(auto, unfolding(crate::specs::tree::Raw::raw_domain))]
    fn row(alloc: Global, entries: &[Entry<'a>]) -> Result<RawDomain<'a>, AllocError> {
        Ok(RawDomain {
            name: copied(alloc, text_or_empty(entries, "name"))?,
            parent: text_at(entries, "parent"),
            always_on: switch_at(entries, "always_on").unwrap_or(false),
        })
    }
}

impl<'a> Row<'a> for RawDevice<'a> {
    ghost row_of = { raw_device };

    #[tactic(auto, unfolding(crate::specs::tree::Raw::raw_device))]
    fn row(alloc: Global, entries: &[Entry<'a>]) -> Result<RawDevice<'a>, AllocError> {
        Ok(RawDevice {
            name: copied(alloc, text_or_empty(entries, "name"))?,
            parent: text_at(entries, "parent"),
            domain: text_at(entries, "domain"),
            ignore_children: switch_at(entries, "ignore_children").unwrap_or(false),
            no_callbacks: switch_at(entries, "no_callbacks").unwrap_or(false),
            busy: switch_at(entries, "busy").unwrap_or(false),
            idle: numbers_at(alloc, entries, "idle")?,
            suspend: Items::new(numbers_in(alloc, list_in(entries, "suspend"))?),
            resume: Items::new(numbers_in(alloc, list_in(entries, "resume"))?),
            idle_ms: number_at(entries, "idle_ms").unwrap_or(0),
            suspend_ms: number_at(entries, "suspend_ms").unwrap_or(0),
            resume_ms: number_at(entries, "resume_ms").unwrap_or(0),
        })
    }
}

impl<'a> Row<'a> for RawLink<'a> {
    ghost row_of = { raw_link };

    #[tactic(auto, unfolding(crate::specs::tree::Raw::raw_link))]
    fn row(alloc: Global, entries: &[Entry<'a>]) -> Result<RawLink<'a>, AllocError> {
        Ok(RawLink {
            consumer: text_or_empty(entries, "consumer"),
            supplier: text_or_empty(entries, "supplier"),
            pm_runtime: switch_at(entries, "pm_runtime").unwrap_or(true),
            later: switch_at(entries, "later").unwrap_or(false),
        })
    }
}

impl<'a> Row<'a> for RawCaller<'a> {
    ghost row_of = { raw_caller };

    #[tactic(auto, unfolding(crate::specs::tree::Raw::raw_caller))]
    fn row(alloc: Global, entries: &[Entry<'a>]) -> Result<RawCaller<'a>, AllocError> {
        Ok(RawCaller {
            name: copied(alloc, text_or_empty(entries, "name"))?,
            script: Items::new(texts_in(alloc, list_in(entries, "script"))?),
        })
    }
}

/// A copy of the text.
fn copied(alloc: Global, text: Text) -> Result<Name, AllocError>
    ensures { IfOk result (λ copy. copy ≡ text.entry) }
{
    Ok(Items::new(Vec::from_slice(alloc, text.as_slice())?))
}

/// The string under a key.
pub fn text_at<'a>(entries: &[Entry<'a>], key: &str) -> Option<Text<'a>>
    ensures { result ≡ text_at key.now (entries_view entries.now) }
{
    match value_in(entries, key) {
        Some(value) => text_of(value),
        None => None,
    }
}

/// The string that a value is.
fn text_of(value: &Value) -> Option<Text>
    ensures { result ≡ as_str (view value.now) }
{
    match value.as_str() {
        Some(text) => Some(Text::new(text)),
        None => None,
    }
}

/// The string under a key, and no bytes where none stands there.
fn text_or_empty<'a>(entries: &[Entry<'a>], key: &str) -> Text<'a>
    ensures { result ≡ unwrap_or (text_at key.now (entries_view entries.now)) [] }
{
    match text_at(entries, key) {
        Some(text) => text,
        None => Text::new(""),
    }
}

/// The integer under a key.
pub fn number_at(entries: &[Entry], key: &str) -> Option<i64>
    ensures { result ≡ number_at key.now (entries_view entries.now) }
{
    match value_in(entries, key) {
        Some(value) => value.as_integer(),
        None => None,
    }
}

/// The boolean under a key.
pub fn switch_at(entries: &[Entry], key: &str) -> Option<bool>
    ensures { result ≡ switch_at key.now (entries_view entries.now) }
{
    match value_in(entries, key) {
        Some(value) => value.as_bool(),
        None => None,
    }
}

/// The integers of the array under a key, where an array stands there.
fn numbers_at(alloc: Global, entries: &[Entry], key: &str) -> Result<Option<Codes64>, AllocError>
    ensures { IfOk result (λ numbers. numbers ≡ numbers_at key.now (entries_view entries.now)) }
{
    match items_in(entries, key) {
        Some(values) => Ok(Some(Items::new(numbers_in(alloc, values)?))),
        None => Ok(None),
    }
}

/// The integers of an array.
fn numbers_in(alloc: Global, values: &[Value]) -> Result<Vec<i64>, AllocError>
    ensures { IfOk result (λ numbers. numbers.items ≡ numbers_in (map view values.now)) }
{
    let mut numbers = Vec::with_capacity(alloc, values.len())?;
    for value in values {
        if let Some(number) = value.as_integer() {
            numbers.push(number)?;
        }
    }
    Ok(numbers)
}

/// The strings of an array.
pub fn texts_in<'a>(alloc: Global, values: &'a [Value]) -> Result<Vec<Text<'a>>, AllocError>
    ensures { IfOk result (λ texts. texts.items ≡ texts_in (map view values.now)) }
{
    let mut texts = Vec::with_capacity(alloc, values.len())?;
    for value in values {
        if let Some(text) = text_of(value) {
            texts.push(text)?;
        }
    }
    Ok(texts)
}

/// The place of a key among the keys of a table in byte order; 0 where it is missing.
fn key_place(table: &Table, key: &str) -> usize
    ensures { result ≡ key_place key.now (table_view table.now) }
{
    let mut at = 0;
    for other in table.keys() {
        if other.as_str() == key {
            return at;
        }
        at += 1;
    }
    0
}
