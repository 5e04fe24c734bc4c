//! Merged lists and the front of a text.

ghost use Rattle.std.specs.Prelude.{◌≡◌, [], ◌∷◌, ◌++◌};
ghost use Rattle.pm_model.specs.FirstBad.{IsFirstBad, IsLawfulText, front};
ghost use Rattle.pm_model.specs.Islands.{merged};
ghost use Rattle.pm_model.specs.Spelling.{header, newline};
ghost use Rattle.pm_show_runs.specs.Counts.{first_plan, first_text};
ghost use Rattle.pm_show_runs.specs.promises.Pieces.{at, three_lines, two_lines};

/// Lists are merged by time; at one time the first list's lines come first.
pub fn merging()
    ensures by_time { merged ((at 1 0 ∷ at 4 0 ∷ []) ∷ (at 2 1 ∷ at 3 1 ∷ []) ∷ []) ≡ at 1 0 ∷ at 2 1 ∷ at 3 1 ∷ at 4 0 ∷ [] }
    ensures ties { merged ((at 0 0 ∷ at 5 0 ∷ []) ∷ (at 0 1 ∷ at 5 1 ∷ []) ∷ (at 5 2 ∷ []) ∷ []) ≡ at 0 0 ∷ at 0 1 ∷ at 5 0 ∷ at 5 1 ∷ at 5 2 ∷ [] }
{}

/// The first two of three lines; a header comes with them, and counts as none.
pub fn fronts()
    ensures plain { front 2 three_lines ≡ two_lines }
    ensures headed { front 2 (header ++ three_lines) ≡ header ++ two_lines }
    ensures beyond { front 4 three_lines ≡ three_lines }
{}

/// The text of a run is a lawful text.
pub fn lawful_text()
    ensures { IsLawfulText first_plan first_text }
{}

/// Where a text is an empty line, its first line is the first bad one.
pub fn empty_line()
    ensures { IsFirstBad first_plan newline 1 }
{}
