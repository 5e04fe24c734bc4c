//! How a shape looks: the classes that the style sheet of a picture names (this project's own).

ghost use Rattle.std.specs.Prelude.{◌≡◌};
ghost use Rattle.pm_sheet.specs.svg.Shapes.{class_word};

/// How a shape looks. Blocks have the first sixteen, words the others.
#[derive(Clone, Copy, PartialEq, Eq)]
pub enum Style {
    /// The status bands of a device.
    Suspended,
    Resuming,
    Active,
    Suspending,
    /// A hatch over the band of a device that is disabled.
    Disabled,
    /// A callback, and one that failed.
    Callback,
    CallbackFailed,
    /// A call that returned 0 or more, one that answered an error, one that is to be tried again, a delay, and
    /// one that hasn't returned.
    Call,
    CallFailed,
    CallRefused,
    Delay,
    CallOpen,
    /// A domain that is on.
    On,
    /// A link that is held.
    Held,
    /// A work item that is queued, a timer that is armed, and either that runs.
    Queued,
    Runs,
    /// The head of the picture.
    Heading,
    /// What is told beside it.
    Note,
    /// The name of a caller or a device, and of what is less.
    Name,
    Minor,
    /// A moment, and a number of a line.
    Moment,
    Number,
    /// The words of a call, and those of a call that failed, that is to be tried again, and of a delay.
    Word,
    WordFailed,
    WordRefused,
    WordDelay,
    /// Words on a dark block.
    OnDark,
    /// A usage count.
    Count,
    /// How a device ends: as it may, in a way that is odd, and held.
    Left,
    LeftOdd,
    LeftHeld,
}

/// The class of a style.
pub fn class_word(style: Style) -> &'static [u8]
    ensures { result.now ≡ class_word style }
{
    match style {
        Style::Suspended => b"s",
        Style::Resuming => b"r",
        Style::Active => b"a",
        Style::Suspending => b"u",
        Style::Disabled => b"d",
        Style::Callback => b"k",
        Style::CallbackFailed => b"kf",
        Style::Call => b"c",
        Style::CallFailed => b"cf",
        Style::CallRefused => b"cr",
        Style::Delay => b"cd",
        Style::CallOpen => b"co",
        Style::On => b"o",
        Style::Held => b"h",
        Style::Queued => b"q",
        Style::Runs => b"w",
        Style::Heading => b"tt",
        Style::Note => b"tn",
        Style::Name => b"tl",
        Style::Minor => b"tm",
        Style::Moment => b"ms",
        Style::Number => b"no",
        Style::Word => b"tw",
        Style::WordFailed => b"tf",
        Style::WordRefused => b"tr",
        Style::WordDelay => b"td",
        Style::OnDark => b"tk",
        Style::Count => b"tc",
        Style::Left => b"le",
        Style::LeftOdd => b"lo",
        Style::LeftHeld => b"lh",
    }
}
