//! What the words behind a command's word give.

ghost use Rattle.std.specs.Prelude.{◌≡◌, ◌≤◌, map, length, option_map, string_bytes};
ghost use Rattle.pm_lab_words.specs.Given.{ended, given_by, goes_on, if_free, nothing_given, with_free_word, with_joined, with_name, with_option, with_plain, with_value, with_word};
ghost use Rattle.pm_lab_words.specs.Read.{given_of, valued_of};

use crate::names::{Command, Name, has_value, name_of};
use crate::numbers::code_in;
use crate::options::{Options, Valued, joined};
use arrayvec::ArrayVec;
use pm_cmd_ends::{is_option, is_separator};

/// Positional words of a command, at most.
const MOST_PLAIN: usize = 6;

/// What was given so far.
#[derive(Drop)]
pub struct Given<'a> {
    /// The positional words, in order.
    pub plain: ArrayVec<&'a str, MOST_PLAIN>,
    pub options: Options<'a>,
    /// The option whose value comes next, if one does.
    pub waiting: Option<Name>,
    /// Whether `--` was given, behind which each word is positional.
    pub behind: bool,
}

impl<'a> Given<'a> {
    /// Nothing.
    fn nothing() -> Given<'a>
        ensures { given_of result ≡ nothing_given }
    {
        Given {
            plain: ArrayVec::new(),
            options: Options::none(),
            waiting: None,
            behind: false,
        }
    }

    /// With a positional word more.
    fn with_plain(mut self, word: &'a str) -> Option<Given<'a>>
        ensures { option_map given_of result ≡ with_plain (given_of self.entry) word.now }
    {
        match self.plain.try_push(word) {
            Ok(()) => Some(self),
            Err(_) => None,
        }
    }

    /// With an option and its value.
    fn with_value(mut self, value: &'a str, name: Name) -> Option<Given<'a>>
        ensures { option_map given_of result ≡ with_value (given_of self.entry) value.now name }
    {
        self.options = self.options.with_one(name, value);
        self.waiting = None;
        Some(self)
    }

    /// With an option that has no value, or one whose value comes next.
    fn with_name(mut self, name: Name) -> Option<Given<'a>>
        ensures { option_map given_of result ≡ with_name (given_of self.entry) name }
    {
        if has_value(name) {
            self.waiting = Some(name);
            return Some(self);
        }
        self.with_value("", name)
    }

    /// With an option and the value behind its `=`.
    fn with_joined(self, command: Command, valued: Option<Valued<'a>>) -> Option<Given<'a>>
        ensures { option_map given_of result ≡ with_joined command (given_of self.entry) (option_map valued_of valued.entry) }
    {
        let valued = valued?;
        if !self.options.may_be_given(command, valued.name) {
            return None;
        }
        self.with_value(valued.value, valued.name)
    }

    /// With a word that is an option.
    fn with_option(self, command: Command, word: &'a str, name: Option<Name>) -> Option<Given<'a>>
        ensures { option_map given_of result ≡ with_option command (given_of self.entry) word.now name }
    {
        let Some(name) = name else {
            return self.with_joined(command, joined(word));
        };
        if !self.options.may_be_given(command, name) {
            return None;
        }
        self.with_name(name)
    }

    /// With a word more, where no option waits for its value. A negative number is no option.
    fn with_free_word(mut self, command: Command, word: &'a str) -> Option<Given<'a>>
        ensures { option_map given_of result ≡ with_free_word command (given_of self.entry) word.now }
    {
        if self.behind {
            self.with_plain(word)
        } else if is_separator(word) {
            self.behind = true;
            Some(self)
        } else if is_option(word) && code_in(word.as_bytes()).is_none() {
            self.with_option(command, word, name_of(word))
        } else {
            self.with_plain(word)
        }
    }

    /// With a word more.
    fn with_word(self, command: Command, word: &'a str) -> Option<Given<'a>>
        ensures { option_map given_of result ≡ with_word command (given_of self.entry) word.now }
    {
        match self.waiting {
            Some(name) => self.with_value(word, name),
            None => self.with_free_word(command, word),
        }
    }

    /// All of it, unless an option lacks its value.
    fn ended(self) -> Option<Given<'a>>
        ensures { option_map given_of result ≡ ended (given_of self.entry).waiting (given_of self.entry) }
    {
        match self.waiting {
            Some(_) => None,
            None => Some(self),
        }
    }
}

/// What these words make of what was given.
fn goes_on<'a>(command: Command, given: Given<'a>, words: &'a [String]) -> Option<Given<'a>>
    ensures { option_map given_of result ≡ goes_on command (given_of given.entry) (map string_bytes words.now) }
{
    let [word, words @ ..] = words else {
        return given.ended();
    };
    let more = given.with_word(command, word.as_str())?;
    goes_on(command, more, words)
}

/// What the words behind a command's word give. `None` comes where one is an option that the command doesn't take, or
/// that was given before, or that lacks its value, or where more are positional than any command has.
pub fn given_by(command: Command, words: &[String]) -> Option<Given<'_>>
    ensures { option_map given_of result ≡ given_by command (map string_bytes words.now) }
{
    goes_on(command, Given::nothing(), words)
}
