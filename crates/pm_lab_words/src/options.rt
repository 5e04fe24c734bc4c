//! The options that were given.

ghost use Rattle.std.specs.Prelude.{◌≡◌, ◌≢◌, nat_eq, length, drop, IfNone, IfSome, option_map, true};
ghost use Rattle.std.specs.List.{starts_with};
ghost use Rattle.pm_lab_words.specs.Options.{Valued as AValued, has, joined, joined_by, may_be_given, none_given, with_one};
ghost use Rattle.pm_lab_words.specs.Read.{options_of, valued_of};

use crate::names::{Command, Name, takes};

/// The options that were given, with their values.
#[derive(Clone, Copy)]
pub struct Options<'a> {
    pub notes: bool,
    pub ktap: bool,
    pub json: bool,
    pub late: bool,
    pub eager: bool,
    pub differ: bool,
    pub expect: Option<&'a str>,
    pub most: Option<&'a str>,
    pub fail: Option<&'a str>,
    pub states: Option<&'a str>,
    pub seen: Option<&'a str>,
    pub plan: bool,
}

/// An option and its value.
#[derive(Clone, Copy)]
pub struct Valued<'a> {
    pub name: Name,
    pub value: &'a str,
}

impl<'a> Options<'a> {
    /// No option.
    pub fn none() -> Options<'a>
        ensures { options_of result ≡ none_given }
    {
        Options {
            notes: false,
            ktap: false,
            json: false,
            late: false,
            eager: false,
            differ: false,
            expect: None,
            most: None,
            fail: None,
            states: None,
            seen: None,
            plan: false,
        }
    }

    /// Whether the option was given.
    fn has(&self, name: Name) -> bool
        ensures { result ≡ has (options_of self.now) name }
    {
        match name {
            Name::Notes => self.notes,
            Name::Ktap => self.ktap,
            Name::Expect => self.expect.is_some(),
            Name::Json => self.json,
            Name::Late => self.late,
            Name::Eager => self.eager,
            Name::Most => self.most.is_some(),
            Name::Fail => self.fail.is_some(),
            Name::States => self.states.is_some(),
            Name::Differ => self.differ,
            Name::Seen => self.seen.is_some(),
            Name::Plan => self.plan,
        }
    }

    /// Whether a command takes the option, and it wasn't given before.
    pub fn may_be_given(&self, command: Command, name: Name) -> bool
        ensures { result ≡ may_be_given command (options_of self.now) name }
    {
        takes(command, name) && !self.has(name)
    }

    /// These and one more, with its value where it has one.
    pub fn with_one(self, name: Name, value: &'a str) -> Options<'a>
        ensures { options_of result ≡ with_one (options_of self.entry) name value.now }
    {
        let mut more = self;
        match name {
            Name::Notes => more.notes = true,
            Name::Ktap => more.ktap = true,
            Name::Expect => more.expect = Some(value),
            Name::Json => more.json = true,
            Name::Late => more.late = true,
            Name::Eager => more.eager = true,
            Name::Most => more.most = Some(value),
            Name::Fail => more.fail = Some(value),
            Name::States => more.states = Some(value),
            Name::Differ => more.differ = true,
            Name::Seen => more.seen = Some(value),
            Name::Plan => more.plan = true,
        }
        more
    }
}

/// What stands behind a text with which a word begins.
#[tactic(auto, using(crate::proofs::PrefixLemmas::what_is_behind, crate::proofs::PrefixLemmas::nothing_is_behind))]
fn behind<'a>(word: &'a str, start: &str) -> Option<&'a str>
    ensures some { IfSome result (λ rest. (starts_with nat_eq word.now start.now ≡ true) × (rest.now ≡ drop (length start.now) word.now)) }
    ensures none { IfNone result (starts_with nat_eq word.now start.now ≢ true) }
{
    word.strip_prefix(start)
}

/// The option, where a word begins so, with what stands behind that; else another one.
fn joined_by<'a>(
    word: &'a str,
    start: &str,
    name: Name,
    other: Option<Valued<'a>>,
) -> Option<Valued<'a>>
    ensures { option_map valued_of result ≡ joined_by word.now start.now name (option_map valued_of other.entry) }
{
    match behind(word, start) {
        Some(value) => Some(Valued { name, value }),
        None => other,
    }
}

/// The option of a word with its value behind `=`.
pub fn joined(word: &str) -> Option<Valued<'_>>
    ensures { option_map valued_of result ≡ joined word.now }
{
    let seen = joined_by(word, "--seen=", Name::Seen, None);
    let spots = joined_by(word, "--spots=", Name::States, seen);
    let states = joined_by(word, "--states=", Name::States, spots);
    let fail = joined_by(word, "--fail=", Name::Fail, states);
    let most = joined_by(word, "--most=", Name::Most, fail);
    joined_by(word, "--expect=", Name::Expect, most)
}
