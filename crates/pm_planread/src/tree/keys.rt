//! The keys of a plan's tables and the kinds of their values.

ghost use Rattle.std.specs.Prelude.{◌≡◌, is_some, length};
ghost use Rattle.std.specs.List.{list_all};
ghost use Rattle.std.specs.Str.{bytes_eq};
ghost use Rattle.toml.specs.Data.{as_integer, as_str};
ghost use Rattle.toml.specs.View.{view};
ghost use Rattle.pm_planread.specs.tree.Keys.{is_number_key, is_numbers_key, is_of_kind, is_switch_key, is_tables_key, is_text_key, is_texts_key, caller_kind, kind_of, own_kind};

use crate::tree::place::Section;
use toml::Value;

/// What stands under a key.
#[derive(Clone, Copy, Debug, PartialEq, Eq)]
pub enum Kind {
    /// A string.
    Text,
    /// An integer.
    Number,
    /// A boolean.
    Switch,
    /// An array of integers.
    Numbers,
    /// An array of strings.
    Texts,
    /// An array of tables.
    Tables,
}

/// What kind of file is read.
#[derive(Clone, Copy)]
pub enum Format {
    /// A plan.
    Plan,
    /// A driver: a plan whose tables have more keys.
    Driver,
}

/// The kind of a key's value, where a table of the section has the key.
#[tactic(auto, unfolding(crate::specs::tree::Keys::kind_of))]
pub fn kind_of(format: Format, section: Section, key: &str) -> Option<Kind>
    ensures { result ≡ kind_of format section key.now }
{
    if is_text_key(section, key) {
        Some(Kind::Text)
    } else if is_number_key(section, key) {
        Some(Kind::Number)
    } else if is_switch_key(section, key) {
        Some(Kind::Switch)
    } else if is_numbers_key(section, key) {
        Some(Kind::Numbers)
    } else if is_texts_key(section, key) {
        Some(Kind::Texts)
    } else if is_tables_key(section, key) {
        Some(Kind::Tables)
    } else {
        match format {
            Format::Plan => None,
            Format::Driver => own_kind(section, key),
        }
    }
}

/// The kind of the value of a key that a driver's tables have and a plan's don't.
fn own_kind(section: Section, key: &str) -> Option<Kind>
    ensures { result ≡ own_kind section key.now }
{
    match section {
        Section::Device if is_word(key, "fails") => Some(Kind::Texts),
        Section::Caller => caller_kind(key),
        _ => None,
    }
}

fn caller_kind(key: &str) -> Option<Kind>
    ensures { result ≡ caller_kind key.now }
{
    if is_word(key, "after") || is_word(key, "adopts") {
        Some(Kind::Texts)
    } else if is_word(key, "role") || is_word(key, "binds") || is_word(key, "bus") {
        Some(Kind::Text)
    } else if is_word(key, "times") {
        Some(Kind::Number)
    } else if is_word(key, "irq") {
        Some(Kind::Switch)
    } else {
        None
    }
}

/// Whether the key is this word. Most keys have another length, which is looked at first. Keys are
/// short, and their bytes are looked at one by one.
#[tactic(auto, using(crate::proofs::tree::TreeLemmas::same_of_one_length))]
pub fn is_word(key: &str, word: &str) -> bool
    ensures { result ≡ bytes_eq key.now word.now }
{
    key.len() == word.len() && is_same(key.as_bytes(), word.as_bytes())
}

/// Whether the bytes are the same.
fn is_same(a: &[u8], b: &[u8]) -> bool
    requires { length a.now ≡ length b.now }
    ensures { result ≡ bytes_eq a.now b.now }
{
    for (i, x) in a.iter().enumerate() {
        if b.get(i) != Some(x) {
            return false;
        }
    }
    true
}

fn is_text_key(section: Section, key: &str) -> bool
    ensures { result ≡ is_text_key section key.now }
{
    match section {
        Section::Top => false,
        Section::Domain => is_word(key, "name") || is_word(key, "parent"),
        Section::Device => is_word(key, "name") || is_word(key, "parent") || is_word(key, "domain"),
        Section::Link => is_word(key, "consumer") || is_word(key, "supplier"),
        Section::Caller => is_word(key, "name"),
    }
}

fn is_number_key(section: Section, key: &str) -> bool
    ensures { result ≡ is_number_key section key.now }
{
    match section {
        Section::Top => is_word(key, "lines") || is_word(key, "trace"),
        Section::Device => is_word(key, "idle_ms")
            || is_word(key, "suspend_ms")
            || is_word(key, "resume_ms"),
        Section::Domain | Section::Link | Section::Caller => false,
    }
}

fn is_switch_key(section: Section, key: &str) -> bool
    ensures { result ≡ is_switch_key section key.now }
{
    match section {
        Section::Domain => is_word(key, "always_on"),
        Section::Device => is_word(key, "ignore_children")
            || is_word(key, "no_callbacks")
            || is_word(key, "busy"),
        Section::Link => is_word(key, "pm_runtime") || is_word(key, "later"),
        Section::Top | Section::Caller => false,
    }
}

fn is_numbers_key(section: Section, key: &str) -> bool
    ensures { result ≡ is_numbers_key section key.now }
{
    match section {
        Section::Device => is_word(key, "idle")
            || is_word(key, "suspend")
            || is_word(key, "resume"),
        Section::Top | Section::Domain | Section::Link | Section::Caller => false,
    }
}

fn is_texts_key(section: Section, key: &str) -> bool
    ensures { result ≡ is_texts_key section key.now }
{
    match section {
        Section::Caller => is_word(key, "script"),
        Section::Top | Section::Domain | Section::Device | Section::Link => false,
    }
}

fn is_tables_key(section: Section, key: &str) -> bool
    ensures { result ≡ is_tables_key section key.now }
{
    match section {
        Section::Top => is_word(key, "domain")
            || is_word(key, "device")
            || is_word(key, "link")
            || is_word(key, "caller"),
        Section::Domain | Section::Device | Section::Link | Section::Caller => false,
    }
}

fn are_integers(values: &[Value]) -> bool
    ensures { result ≡ list_all (λ value. is_some (as_integer (view value))) values.now }
{
    values.iter().all(|value| value.is_integer())
}

fn are_strings(values: &[Value]) -> bool
    ensures { result ≡ list_all (λ value. is_some (as_str (view value))) values.now }
{
    values.iter().all(|value| value.is_str())
}

/// Whether the value is of the kind. The elements of an array of tables are looked at apart.
#[tactic(auto, using(crate::proofs::tree::TreeLemmas::integers_of_view, crate::proofs::tree::TreeLemmas::strings_of_view))]
pub fn is_of_kind(kind: Kind, value: &Value) -> bool
    ensures { result ≡ is_of_kind kind (view value.now) }
{
    match kind {
        Kind::Text => value.is_str(),
        Kind::Number => value.is_integer(),
        Kind::Switch => value.is_bool(),
        Kind::Tables => value.is_array(),
        Kind::Numbers => match value.as_array() {
            Some(values) => are_integers(values.as_slice()),
            None => false,
        },
        Kind::Texts => match value.as_array() {
            Some(values) => are_strings(values.as_slice()),
            None => false,
        },
    }
}
