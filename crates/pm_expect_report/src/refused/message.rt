//! The message of a refusal.

ghost use Rattle.std.specs.Prelude.{◌≡◌, ◌+◌, ◌++◌, IfOk, OnOk, codes, decimal};
ghost use Rattle.std.specs.String.{string_bytes};
ghost use Rattle.pm_expect.specs.declared.refusal.Why.TheVariants as why;
ghost use Rattle.pm_expect_report.specs.refused.Words.{fault_words, item_words, kind_word, message_text, quoted, range_words, why_words};

use pm_base::NoMemory;
use pm_expect::{Key, Section, Why};
use pm_script::ScriptFault;
use std::alloc::Global;

/// Appends a piece.
fn push(text: &mut String, piece: &str) -> Result<(), NoMemory>
    ensures { OnOk result (string_bytes text.new ≡ string_bytes text.old ++ piece.now) }
{
    text.push_str(piece)?;
    Ok(())
}

/// Appends a key in quotes.
fn push_quoted(text: &mut String, key: Key) -> Result<(), NoMemory>
    ensures { OnOk result (string_bytes text.new ≡ string_bytes text.old ++ quoted key) }
{
    push(text, "\"")?;
    push(text, key.word())?;
    push(text, "\"")
}

/// The kind of the key's values.
fn kind_word(key: Key) -> &'static str
    ensures { result.now ≡ kind_word key }
{
    match key {
        Key::Nth | Key::Code | Key::Usage => "integer",
        _ => "string",
    }
}

/// The range of the key's values.
fn range_words(key: Key) -> &'static str
    ensures { result.now ≡ range_words key }
{
    match key {
        Key::Nth => " counts the calls of the command in the script, from 1",
        Key::Code => " is from -4095 to 1",
        Key::Usage => " is from 0 to 200000",
        _ => " is out of range",
    }
}

fn fault_words(fault: ScriptFault) -> &'static str
    ensures { result.now ≡ fault_words fault }
{
    match fault {
        ScriptFault::Word => "no command: its first word is no helper",
        ScriptFault::Device => "no command: a device is missing, or the plan has none of this name",
        ScriptFault::Number => "no command: a number, or on or off, is missing or is none",
        ScriptFault::Extra => "no command: words are left",
    }
}

/// Appends that a key is missing.
fn push_missing(text: &mut String, key: Key) -> Result<(), NoMemory>
    ensures { OnOk result (string_bytes text.new ≡ string_bytes text.old ++ why_words (why.Missing key)) }
{
    push(text, "the key ")?;
    push_quoted(text, key)?;
    push(text, " is missing")?;
    Ok(())
}

/// Appends that a value is of another kind than its key's.
fn push_kind(text: &mut String, key: Key) -> Result<(), NoMemory>
    ensures { OnOk result (string_bytes text.new ≡ string_bytes text.old ++ why_words (why.Kind key)) }
{
    push_quoted(text, key)?;
    push(text, " is no ")?;
    push(text, kind_word(key))
}

/// Appends that a number is out of its range.
fn push_range(text: &mut String, key: Key) -> Result<(), NoMemory>
    ensures { OnOk result (string_bytes text.new ≡ string_bytes text.old ++ why_words (why.Range key)) }
{
    push_quoted(text, key)?;
    push(text, range_words(key))
}

/// Appends why something is refused.
fn push_why(text: &mut String, why: Why) -> Result<(), NoMemory>
    ensures { OnOk result (string_bytes text.new ≡ string_bytes text.old ++ why_words why) }
{
    match why {
        Why::TooLong => push(text, "a file of expectations has at most 262144 bytes"),
        Why::NotToml => push(text, "no TOML"),
        Why::NoKey { .. } => push(text, "no such key"),
        Why::NoList => push(text, "no list of tables"),
        Why::TooMany => push(text, "more than 1000 tables"),
        Why::NoTable => push(text, "no table"),
        Why::Missing { key } => push_missing(text, key),
        Why::Kind { key } => push_kind(text, key),
        Why::NoCaller => push(text, "the plan has no such caller"),
        Why::NoDevice => push(text, "the plan has no such device"),
        Why::NoStatus => push(text, "the status is neither \"suspended\" nor \"active\""),
        Why::NoCommand { fault } => push(text, fault_words(fault)),
        Why::NotInScript => push(text, "the caller's script doesn't have the command"),
        Why::Range { key } => push_range(text, key),
    }
}

/// Appends how an item of a section is called: by its number from 1.
fn push_numbered(text: &mut String, word: &str, item: u32) -> Result<(), NoMemory>
    ensures { OnOk result (string_bytes text.new ≡ string_bytes text.old ++ (word.now ++ codes " " ++ decimal (item + 1) ++ codes ": ")) }
{
    let number = u64::from(item) + 1;
    write!(text, "{word} {number}: ")?;
    Ok(())
}

/// Appends what is refused.
fn push_item(text: &mut String, section: Section, item: u32, why: Why) -> Result<(), NoMemory>
    ensures { OnOk result (string_bytes text.new ≡ string_bytes text.old ++ item_words section item why) }
{
    if let Section::Top = section {
        return Ok(());
    }
    match why {
        Why::NoList | Why::TooMany => {
            push(text, section.word())?;
            push(text, ": ")
        }
        _ => push_numbered(text, section.word(), item),
    }
}

/// The message of a refusal. Fails where memory runs out.
pub(crate) fn message(
    alloc: Global,
    section: Section,
    item: u32,
    why: Why,
) -> Result<String, NoMemory>
    ensures { IfOk result (λ text. string_bytes text ≡ message_text section item why) }
{
    let mut text = String::new(alloc);
    push_item(&mut text, section, item, why)?;
    push_why(&mut text, why)?;
    Ok(text)
}
