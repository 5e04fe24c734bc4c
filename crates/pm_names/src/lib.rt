//! The words of a trace (helpers, events, status words, requests and callbacks), each with a number, and how a
//! row is found by its name.
//!
//! A word's number is its place in its table, counted from 0; the numbers are this project's own.
//! Where the words name the variants of an enum, they stand in the order of the variants.
//! The helpers are named as in `runtime_pm.rst`, section 4, without the `pm_runtime_` or `pm_` before
//! the name; `delay`, `ignore_children`, `link_add` and `link_del` are this project's own.
#![tactic(auto)]

ghost use Rattle.std.specs.Prelude.{◌≡◌, ◌<◌, ◌↔◌, ℕ, slice_get, IfSome, IsNone, Contains, position, bytes_eq};
ghost use Rattle.pm_names.specs.Table.{place_of};
ghost use Rattle.pm_names.specs.Words.{helper_words, event_words, status_words, req_words, cb_words};

mod finder;

pub use finder::{Finder, find, is_same};
use std::marker::Model;

/// `N` words, no two of them alike. Contracts see the list of the words.
#[derive(Drop)]
pub struct NameTable<const N: usize> {
    words: &'static [&'static [u8]],
}

impl<const N: usize> Model for NameTable<N> {
    ghost use Rattle.std.specs.Prelude.{◌≡◌, ℕ, List, length, IsTrue};
    ghost use Rattle.pm_names.specs.Table.{words_of, all_distinct};

    ghost Value = { List (List ℕ) };

    ghost view = { λ table. words_of table.words.now };

    ghost invariant = { λ table. (length table.words.now ≡ N) × IsTrue (all_distinct (words_of table.words.now)) };
}

impl<const N: usize> NameTable<N> {
    /// The place of `word`, or `None` where it isn't in the table. Words are compared whole.
    pub fn number_of(&self, word: &[u8]) -> Option<usize>
        ensures value { result ≡ place_of self.now word.now }
        ensures found { IfSome result (λ place. slice_get self.now place ≡ Some word.now) }
        ensures missing { IsNone result ↔ (¬ Contains self.now word.now) }

        // A word has one place.
        ensures only { (place : ℕ) → slice_get self.now place ≡ Some word.now → result ≡ Some place }
        ensures within { IfSome result (λ place. place < N) }
    {
        place_in(self.words, word)
    }

    /// The word at `place`.
    pub fn name_of(&self, place: usize) -> &[u8]
        requires { place < N }
        ensures word { slice_get self.now place ≡ Some result.now }

        // `number_of` gives the place back.
        ensures back { place_of self.now result.now ≡ Some place }
    {
        let words = self.words;
        words[place]
    }
}

/// The first place in `names` at which `word` stands.
fn place_in(names: &[&[u8]], word: &[u8]) -> Option<usize>
    ensures { result ≡ position (λ name. bytes_eq word.now name.now) names.now }
{
    names.iter().position(|name| word == *name)
}

/// Makes the table of these words, which live as long as the program.
macro_rules! table {
    ($($word:literal),+ $(,)?) => {
        NameTable { words: &[$($word),+] }
    };
}

/// The helpers, as scripts and the lines `pm_call` and `pm_ret` name them.
pub fn helpers() -> NameTable<34>
    ensures { result ≡ helper_words }
{
    table![
        b"get_sync",
        b"get",
        b"get_noresume",
        b"get_if_in_use",
        b"get_if_active",
        b"resume",
        b"request_resume",
        b"put",
        b"put_sync",
        b"put_noidle",
        b"put_autosuspend",
        b"put_sync_suspend",
        b"put_sync_autosuspend",
        b"idle",
        b"request_idle",
        b"suspend",
        b"autosuspend",
        b"request_autosuspend",
        b"schedule_suspend",
        b"enable",
        b"disable",
        b"barrier",
        b"set_active",
        b"set_suspended",
        b"allow",
        b"forbid",
        b"mark_last_busy",
        b"use_autosuspend",
        b"dont_use_autosuspend",
        b"set_autosuspend_delay",
        b"delay",
        b"ignore_children",
        b"link_add",
        b"link_del",
    ]
}

/// The events, one for each kind of trace line: `rpm_*` are the kernel's
/// (`include/trace/events/rpm.h`), `pm_*` this project's own.
pub fn events() -> NameTable<15>
    ensures { result ≡ event_words }
{
    table![
        b"pm_call",
        b"pm_ret",
        b"pm_get",
        b"pm_put",
        b"rpm_usage",
        b"rpm_idle",
        b"rpm_suspend",
        b"rpm_resume",
        b"rpm_return_int",
        b"pm_wait",
        b"pm_status",
        b"pm_callback",
        b"pm_domain",
        b"pm_work",
        b"pm_timer",
    ]
}

/// What a `pm_status` line may say (this project's own).
pub fn status_words() -> NameTable<6>
    ensures { result ≡ status_words }
{
    table![
        b"active",
        b"resuming",
        b"suspended",
        b"deferred",
        b"forced_active",
        b"forced_suspended",
    ]
}

/// The requests that a `pm_work` line may name (`runtime_pm.rst`, section 3, `request`).
pub fn req_words() -> NameTable<5>
    ensures { result ≡ req_words }
{
    table![b"none", b"idle", b"suspend", b"autosuspend", b"resume"]
}

/// The callbacks that a `pm_callback` line may name (`runtime_pm.rst`, section 2).
pub fn cb_words() -> NameTable<3>
    ensures { result ≡ cb_words }
{
    table![b"idle", b"suspend", b"resume"]
}
