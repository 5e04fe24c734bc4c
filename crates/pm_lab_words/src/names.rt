//! The commands and their options, by name.

ghost use Rattle.std.specs.Prelude.{◌≡◌};
ghost use Rattle.pm_lab_words.specs.Options.{command_of, has_value, name_of, takes};

/// A command of `pm_lab`, but `help`.
#[derive(Clone, Copy, PartialEq, Eq)]
pub enum Command {
    Say,
    Find,
    Picture,
    Orders,
    Order,
    Kernel,
}

/// An option of some command.
#[derive(Clone, Copy, PartialEq, Eq)]
pub enum Name {
    Notes,
    Ktap,
    Expect,
    Json,
    Late,
    Eager,
    Most,
    Fail,
    States,
    Differ,
    Seen,
    Plan,
}

/// The command of a word, but `help`.
pub fn command_of(word: &str) -> Option<Command>
    ensures { result ≡ command_of word.now }
{
    match word {
        "say" => Some(Command::Say),
        "find" => Some(Command::Find),
        "picture" => Some(Command::Picture),
        "orders" => Some(Command::Orders),
        "order" => Some(Command::Order),
        "kernel" => Some(Command::Kernel),
        _ => None,
    }
}

/// The option of a word, its value left out.
pub fn name_of(word: &str) -> Option<Name>
    ensures { result ≡ name_of word.now }
{
    match word {
        "--notes" => Some(Name::Notes),
        "--ktap" => Some(Name::Ktap),
        "--expect" => Some(Name::Expect),
        "--json" => Some(Name::Json),
        "--late" => Some(Name::Late),
        "--eager" => Some(Name::Eager),
        "--most" => Some(Name::Most),
        "--fail" => Some(Name::Fail),
        "--states" | "--spots" => Some(Name::States),
        "--differ" => Some(Name::Differ),
        "--seen" => Some(Name::Seen),
        "--plan" => Some(Name::Plan),
        _ => None,
    }
}

/// Whether an option has a value.
pub fn has_value(name: Name) -> bool
    ensures { result ≡ has_value name }
{
    matches!(
        name,
        Name::Expect | Name::Most | Name::Fail | Name::States | Name::Seen
    )
}

/// Whether a command takes an option.
pub fn takes(command: Command, name: Name) -> bool
    ensures { result ≡ takes command name }
{
    match command {
        Command::Find => matches!(
            name,
            Name::Expect
                | Name::Ktap
                | Name::Notes
                | Name::Late
                | Name::Eager
                | Name::Most
                | Name::Fail
                | Name::States
        ),
        Command::Picture => matches!(name, Name::Json),
        Command::Orders => matches!(
            name,
            Name::Late | Name::Most | Name::States | Name::Differ | Name::Expect | Name::Seen
        ),
        Command::Order => matches!(
            name,
            Name::Late
                | Name::Eager
                | Name::Most
                | Name::Fail
                | Name::States
                | Name::Expect
                | Name::Notes
                | Name::Plan
        ),
        Command::Say | Command::Kernel => false,
    }
}
