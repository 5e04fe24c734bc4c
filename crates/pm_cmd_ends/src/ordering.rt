//! The words behind a command's word: which are positional, and what the option says (this project's own).
//!
//! `--` may stand once behind the command's word, and each word behind it is positional. Before it, a word
//! that begins with `-` and isn't `-` alone is refused, unless it is the option of `run`: `--hands N` or
//! `--hands=N`, once, before or behind the plan.

ghost use Rattle.std.specs.Prelude.{◌≡◌, ◌++◌, map, option_map, slice_get, string_bytes};
ghost use Rattle.std.specs.List.{list_any, position};
ghost use Rattle.pm_cmd_ends.specs.Ordering.{hands_of, ordered_of};
ghost use Rattle.pm_cmd_ends.specs.Words.{before_option, before_separator, behind_separator, from_option, hands_first, hands_joined, hands_spaced, is_option, is_separator, ordered, ordered_around, ordered_by};

/// The words behind a command's word, in order.
#[derive(Clone, Copy)]
pub(crate) struct Words<'a> {
    /// The positional words before `--` and before the option.
    front: &'a [String],
    /// The positional words before `--` and behind the option.
    middle: &'a [String],
    /// The words behind `--`.
    rear: &'a [String],
    /// The N of the option, where it stands.
    pub(crate) hands: Option<&'a [u8]>,
}

impl<'a> Words<'a> {
    fn nth(&self, place: usize) -> Option<&'a String>
        ensures { option_map (λ word. word.now) result
            ≡ slice_get ((self.now.front.now ++ self.now.middle.now) ++ self.now.rear.now) place }
    {
        self.front
            .iter()
            .chain(self.middle)
            .chain(self.rear)
            .nth(place)
    }

    /// The positional word at a place, counted from 0.
    #[tactic(auto, using(crate::proofs::SplitLemmas::nth_in_bytes))]
    pub(crate) fn word(&self, place: usize) -> Option<&'a str>
        ensures { option_map (λ word. word.now) result ≡ slice_get (ordered_of self.now).positional place }
    {
        let word = self.nth(place)?;
        Some(word.as_str())
    }
}

/// An option, and what stands behind it.
#[derive(Clone, Copy)]
struct Hands<'a> {
    number: &'a [u8],
    behind: &'a [String],
}

/// Whether the word begins with `-` and isn't `-` alone.
pub fn is_option(word: &str) -> bool
    ensures { result ≡ is_option word.now }
{
    word.as_bytes().starts_with(b"-") && word != "-"
}

/// Whether the word is `--`.
pub fn is_separator(word: &str) -> bool
    ensures { result ≡ is_separator word.now }
{
    word == "--"
}

/// The place of the first separator.
fn separator_at(words: &[String]) -> Option<usize>
    ensures { result ≡ position (λ word. is_separator (string_bytes word)) words.now }
{
    words.iter().position(|word| is_separator(word.as_str()))
}

/// The place of the first option.
fn option_at(words: &[String]) -> Option<usize>
    ensures { result ≡ position (λ word. is_option (string_bytes word)) words.now }
{
    words.iter().position(|word| is_option(word.as_str()))
}

/// Whether one of the words is an option.
fn has_option(words: &[String]) -> bool
    ensures { result ≡ list_any (λ word. is_option (string_bytes word)) words.now }
{
    words.iter().any(|word| is_option(word.as_str()))
}

/// The words before the separator, and those behind it.
fn split_at_separator(words: &[String]) -> (&[String], &[String])
    ensures before { map string_bytes result.0.now ≡ before_separator (map string_bytes words.now) }
    ensures behind { map string_bytes result.1.now ≡ behind_separator (map string_bytes words.now) }
{
    match separator_at(words) {
        Some(place) => {
            let (before, rest) = words.split_at(place);
            (before, rest.split_at(1).1)
        }
        None => (words, &[]),
    }
}

/// The words before the first option, and those from it on.
fn split_at_option(words: &[String]) -> (&[String], &[String])
    ensures before { map string_bytes result.0.now ≡ before_option (map string_bytes words.now) }
    ensures rest { map string_bytes result.1.now ≡ from_option (map string_bytes words.now) }
{
    match option_at(words) {
        Some(place) => words.split_at(place),
        None => (words, &[]),
    }
}

/// The option `--hands=N` at the word, with the words behind it.
fn hands_joined<'a>(word: &'a str, behind: &'a [String]) -> Option<Hands<'a>>
    ensures { option_map hands_of result ≡ hands_joined word.now (map string_bytes behind.now) }
{
    let bytes = word.as_bytes();
    if !bytes.starts_with(b"--hands=") {
        return None;
    }
    Some(Hands {
        number: &bytes[8..],
        behind,
    })
}

/// The N of the option `--hands N`, with the words behind it.
fn hands_spaced(words: &[String]) -> Option<Hands<'_>>
    ensures { option_map hands_of result ≡ hands_spaced (map string_bytes words.now) }
{
    let [number, behind @ ..] = words else {
        return None;
    };
    Some(Hands {
        number: number.as_str().as_bytes(),
        behind,
    })
}

/// The option with which the words begin, in either form.
fn hands_first(words: &[String]) -> Option<Hands<'_>>
    ensures { option_map hands_of result ≡ hands_first (map string_bytes words.now) }
{
    let [word, behind @ ..] = words else {
        return None;
    };
    if word.as_str() == "--hands" {
        return hands_spaced(behind);
    }
    hands_joined(word.as_str(), behind)
}

/// The words around an option, where no option follows it.
#[tactic(auto, using(crate::proofs::SplitLemmas::any_option))]
fn ordered_around<'a>(
    front: &'a [String],
    rear: &'a [String],
    hands: Hands<'a>,
) -> Option<Words<'a>>
    ensures { option_map ordered_of result
        ≡ ordered_around (map string_bytes front.now) (map string_bytes rear.now) (hands_of hands.entry) }
{
    if has_option(hands.behind) {
        return None;
    }
    Some(Words {
        front,
        middle: hands.behind,
        rear,
        hands: Some(hands.number),
    })
}

/// The words behind a command's word, in order. `None` where a word before the separator is an option that
/// isn't known, stands twice, or lacks its N.
pub(crate) fn ordered(words: &[String]) -> Option<Words<'_>>
    ensures { option_map ordered_of result ≡ ordered (map string_bytes words.now) }
{
    let (before, rear) = split_at_separator(words);
    let (front, rest) = split_at_option(before);
    if rest.is_empty() {
        return Some(Words {
            front,
            middle: &[],
            rear,
            hands: None,
        });
    }
    ordered_around(front, rear, hands_first(rest)?)
}
