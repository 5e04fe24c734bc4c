//! The first bad line of a text, and why it is bad.

ghost use Rattle.std.specs.Prelude.{List, ℕ};
ghost use Rattle.pm_model.specs.FirstBad.{IsLawfulText, IsText2};
ghost use Rattle.pm_model.specs.NoWhy.{Cut, Limit, Step, Text, Time};
ghost use Rattle.pm_model.specs.Verdict.{IsVerdict, YesFinished, YesOpen};
ghost use Rattle.pm_show_runs.specs.Counts.{first_plan, first_text};
ghost use Rattle.pm_show_runs.specs.promises.BadTexts.{IsBadFor, cut_at_end, cut_header, cut_within, early, falling, latest, short_plan, third_is_wrong, too_late, too_late2, two_headers, wrong_and_early};
ghost use Rattle.pm_show_runs.specs.promises.Pieces.{three_lines, two_lines};

/// A time below 2^63 has a text, and 2^63 has none, also as the sum of two times of format 2. A list
/// whose times fall has no text of format 2.
pub fn late_times()
    ensures latest { IsLawfulText first_plan latest }
    ensures format1 { IsBadFor first_plan too_late 1 Text }
    ensures format2 { IsBadFor first_plan too_late2 2 Text }
    ensures falling { (bytes : List ℕ) → ¬ IsText2 first_plan bytes falling }
{}

/// The third of three lines is the first bad one: at no time may it come after the two.
pub fn third_line()
    ensures { IsBadFor first_plan third_is_wrong 3 Step }
{}

/// A rest without a newline is cut, whether it is a line's text or not, and also where the plan has no
/// room for a line; so is a header without its newline. A second header is no line's text.
pub fn cut_rests()
    ensures within { IsBadFor first_plan cut_within 3 Cut }
    ensures at_end { IsBadFor first_plan cut_at_end 3 Cut }
    ensures past_limit { IsBadFor short_plan cut_within 3 Cut }
    ensures header { IsBadFor first_plan cut_header 1 Cut }
    ensures headers { IsBadFor first_plan two_headers 1 Text }
{}

/// The third line of a plan of two lines is past the limit; the two are lawful text.
pub fn past_the_limit()
    ensures third { IsBadFor short_plan three_lines 3 Limit }
    ensures two { IsLawfulText short_plan two_lines }
{}

/// Where a line is too early and may come at no time, it is the step that is wrong; where it may come
/// later, the time.
pub fn step_before_time()
    ensures step { IsBadFor first_plan wrong_and_early 2 Step }
    ensures time { IsBadFor first_plan early 2 Time }
{}

/// The text of a whole run is that of a finished list, and the text of its first two lines that of an
/// open one.
pub fn yes()
    ensures finished { IsVerdict first_plan first_text YesFinished }
    ensures open { IsVerdict first_plan two_lines YesOpen }
{}
