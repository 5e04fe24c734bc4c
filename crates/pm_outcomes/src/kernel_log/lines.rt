//! The lines of a log, and the words of a line.

ghost use Rattle.std.specs.Prelude.{◌≡◌, ◌==◌, ◌<◌, ◌∷◌, IfNone, IfSome, drop, false, length, option_map, true};
ghost use Rattle.std.specs.List.{after_first, before_first, position, position_or_len};
ghost use Rattle.pm_outcomes.specs.kernel_log.Lines.{begins, behind_prefix, lines_in, lines_of};

/// What begins the text of an outcome.
const PREFIX: &[u8] = b"pm_lab: ";

/// What stands behind the prefix with which a text begins.
fn behind(text: &[u8]) -> Option<&[u8]>
    ensures some { IfSome result (λ rest. (begins text.now ≡ true) × (rest.now ≡ drop 8 text.now)) }
    ensures none { IfNone result (begins text.now ≡ false) }
{
    text.strip_prefix(PREFIX)
}

/// What stands behind the first `pm_lab: ` of a line.
#[tactic(auto, using(crate::proofs::kernel_log::PrefixLemmas::marked_here, crate::proofs::kernel_log::PrefixLemmas::marked_later, crate::proofs::kernel_log::PrefixLemmas::not_marked))]
pub fn behind_prefix(line: &[u8]) -> Option<&[u8]>
    ensures { option_map (λ text. text.now) result ≡ behind_prefix line.now }
{
    let mut rest = line;
    while !rest.is_empty() {
        if let Some(text) = behind(rest) {
            return Some(text);
        }
        rest = rest.split_at(1).1;
    }
    None
}

/// The place of the first such byte.
fn place_of(text: &[u8], byte: u8) -> Option<usize>
    ensures { result ≡ position (λ b. b == byte) text.now }
{
    text.iter().position(|b| *b == byte)
}

/// What stands before the first such byte, and behind it.
#[tactic(auto, using(crate::proofs::kernel_log::SplitLemmas::place_is, crate::proofs::kernel_log::SplitLemmas::no_place_is))]
pub fn split_at_byte(text: &[u8], byte: u8) -> Option<(&[u8], &[u8])>
    ensures before { IfSome result (λ both. both.0.now ≡ before_first (λ b. b == byte) text.now) }
    ensures behind { IfSome result (λ both. both.1.now ≡ after_first (λ b. b == byte) text.now) }
    ensures there { IfSome result (λ both. position_or_len (λ b. b == byte) text.now < length text.now) }
    ensures shorter { IfSome result (λ both. length both.1.now < length text.now) }
    ensures none { IfNone result (position_or_len (λ b. b == byte) text.now ≡ length text.now) }
{
    let at = place_of(text, byte)?;
    let (before, rest) = text.split_at(at);
    Some((before, rest.split_at(1).1))
}

/// The first line, and what stands behind its newline; nothing behind where it has none.
#[tactic(auto, using(crate::proofs::kernel_log::SplitLemmas::first_line, crate::proofs::kernel_log::SplitLemmas::only_line))]
pub fn cut(text: &[u8]) -> (&[u8], Option<&[u8]>)
    ensures lines { lines_of text.now ≡ result.0.now ∷ lines_in (option_map (λ rest. rest.now) result.1) }
    ensures shorter { IfSome result.1 (λ rest. length rest.now < length text.now) }
{
    match split_at_byte(text, b'\n') {
        Some((line, rest)) => (line, Some(rest)),
        None => (text, None),
    }
}
