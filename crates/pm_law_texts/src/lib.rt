//! Which bytes are the text of a lawful list, and which line of other bytes is the first bad one.
//!
//! Each function's body is empty: its contract is the law. The laws hold for every plan and all bytes,
//! in both formats. An auditor that reads a trace line by line rests on them.
#![tactic(auto)]

ghost use Rattle.std.specs.Prelude.{◌≡◌, ◌≢◌, ◌⊎◌, ◌≤◌, ℕ, suc, true, false, List, [], ◌∷◌, ◌++◌, length, reverse};
ghost use Rattle.pm_model.specs.FirstBad.{AreLinesOf, IsFirstBad, IsLawfulText, IsText1, IsText2, StandsFor, front, is_format2};
ghost use Rattle.pm_model.specs.Lawful.{IsLawful};
ghost use Rattle.pm_model.specs.NoWhy.{AreBefore, IsCut, IsPiece, IsWhy, NoWhy, is_within_line};
ghost use Rattle.pm_model.specs.Spelling.{header, line_text, newline};
ghost use Rattle.pm_model.specs.Text.{names_of, text, text2};
ghost use Rattle.pm_model.specs.Verdict.{IsVerdict, Verdict};
ghost use Rattle.pm_model.specs.declared.event.Line.{Line};
ghost use Rattle.pm_model.specs.declared.plan.Plan.{Plan};
ghost use Rattle.pm_law_texts.specs.Next.{IsNext};

/// No line's text has a newline in it.
pub fn texts_are_within_lines()
    ensures { (plan : Plan) (line : Line) → is_within_line (line_text (names_of plan) line) ≡ true }
{}

/// The list that bytes stand for is the only one. No bytes are text of both formats.
pub fn one_list()
    ensures list { (plan : Plan) (bytes : List ℕ) (h k : List Line) → StandsFor plan bytes h → StandsFor plan bytes k → h ≡ k }
    ensures format1 { (plan : Plan) (bytes : List ℕ) (h : List Line) → IsText1 plan bytes h → is_format2 bytes ≡ false }
    ensures format2 { (plan : Plan) (bytes : List ℕ) (h : List Line) → IsText2 plan bytes h → is_format2 bytes ≡ true }
{}

/// Bytes are lawful text, or some line of them is the first bad one: always one of these, and never both.
/// The first bad line is the only one.
pub fn lawful_or_bad()
    ensures either { (plan : Plan) (bytes : List ℕ) → IsLawfulText plan bytes ⊎ ((n : ℕ) × IsFirstBad plan bytes n) }
    ensures not_both { (plan : Plan) (bytes : List ℕ) (n : ℕ) → IsLawfulText plan bytes → ¬ IsFirstBad plan bytes n }
    ensures only { (plan : Plan) (bytes : List ℕ) (n m : ℕ) → IsFirstBad plan bytes n → IsFirstBad plan bytes m → n ≡ m }

    // No lines are lawful text, and so are the first lines of lawful text.
    ensures none { (plan : Plan) (bytes : List ℕ) → IsLawfulText plan (front 0 bytes) }
    ensures fronts { (plan : Plan) (bytes : List ℕ) (n : ℕ) → IsLawfulText plan bytes → IsLawfulText plan (front n bytes) }
    ensures earlier { (plan : Plan) (bytes : List ℕ) (k n : ℕ) → k ≤ n → IsLawfulText plan (front n bytes) → IsLawfulText plan (front k bytes) }
{}

/// Behind the first n lines follows nothing, a piece or a rest that is cut. The lines with a piece are
/// lawful text exactly where those before it are and it is the text of a line that may come next; with a
/// rest that is cut they never are.
pub fn next_line()
    ensures sorts { (bytes : List ℕ) (n : ℕ) → (front (suc n) bytes ≡ front n bytes)
        ⊎ (((piece : List ℕ) × IsPiece bytes (suc n) piece) ⊎ ((rest : List ℕ) × IsCut bytes (suc n) rest)) }
    ensures good { (plan : Plan) (bytes : List ℕ) (n : ℕ) (h : List Line) (piece : List ℕ)
        → AreBefore plan bytes n h → IsPiece bytes n piece → (next : IsNext (is_format2 bytes) plan h piece)
        → AreBefore plan bytes (suc n) (next.line ∷ h) }
    ensures lawful { (plan : Plan) (bytes : List ℕ) (n : ℕ) (h : List Line) (piece : List ℕ)
        → AreBefore plan bytes n h → IsPiece bytes n piece → IsLawfulText plan (front n bytes)
        → IsNext (is_format2 bytes) plan h piece }
    ensures cut { (plan : Plan) (bytes : List ℕ) (n : ℕ) (rest : List ℕ) → IsCut bytes n rest → ¬ IsLawfulText plan (front n bytes) }

    // So a piece is numbered by the list before it.
    ensures numbered { (plan : Plan) (bytes : List ℕ) (n : ℕ) (h : List Line) (piece : List ℕ)
        → AreBefore plan bytes n h → IsPiece bytes n piece → n ≡ suc (length h) }
{}

/// Behind whole lines that are the text of a lawful list, the bytes up to the next newline are the next
/// piece, and bytes without a newline are cut. So lines are read one by one as they come.
pub fn behind_lines()
    ensures piece { (plan : Plan) (whole piece more : List ℕ) (h : List Line) → IsLawful plan h → StandsFor plan whole h
        → is_format2 (whole ++ (piece ++ (newline ++ more))) ≡ is_format2 whole → is_within_line piece ≡ true
        → AreBefore plan (whole ++ (piece ++ (newline ++ more))) (suc (length h)) h
        × IsPiece (whole ++ (piece ++ (newline ++ more))) (suc (length h)) piece }
    ensures cut { (plan : Plan) (whole rest : List ℕ) (h : List Line) → IsLawful plan h → StandsFor plan whole h
        → is_format2 (whole ++ rest) ≡ is_format2 whole → is_within_line rest ≡ true → rest ≢ []
        → AreBefore plan (whole ++ rest) (suc (length h)) h × IsCut (whole ++ rest) (suc (length h)) rest }

    // The first line tells the format: only the header begins format 2, and nothing does without its newline.
    ensures format { (plan : Plan) (whole more : List ℕ) (h : List Line) → StandsFor plan whole h → whole ≢ []
        → is_format2 (whole ++ more) ≡ is_format2 whole }
    ensures header { (piece more : List ℕ) → is_within_line piece ≡ true
        → is_format2 (piece ++ (newline ++ more)) ≡ true → piece ++ newline ≡ header }
    ensures no_header { (rest : List ℕ) → is_within_line rest ≡ true → is_format2 rest ≡ false }
{}

/// The first bad line is bad for exactly one reason, and a line that has a reason is the first bad one.
pub fn reasons()
    ensures some { (plan : Plan) (bytes : List ℕ) (n : ℕ) → IsFirstBad plan bytes n → (why : NoWhy) × IsWhy plan bytes n why }
    ensures only { (plan : Plan) (bytes : List ℕ) (n : ℕ) (a b : NoWhy) → IsWhy plan bytes n a → IsWhy plan bytes n b → a ≡ b }
    ensures bad { (plan : Plan) (bytes : List ℕ) (n : ℕ) (why : NoWhy) → IsWhy plan bytes n why → IsFirstBad plan bytes n }
{}

/// Of all bytes exactly one thing is said: they are the text of a lawful list that is finished, or of one
/// that isn't, or their first bad line and its reason.
pub fn one_verdict()
    ensures some { (plan : Plan) (bytes : List ℕ) → (v : Verdict) × IsVerdict plan bytes v }
    ensures only { (plan : Plan) (bytes : List ℕ) (a b : Verdict) → IsVerdict plan bytes a → IsVerdict plan bytes b → a ≡ b }
{}

/// The text of a lawful list whose lines are the plan's, in the plan's own format and in format 2, stands for this list,
/// and is no longer than a trace may be.
pub fn texts_of_lists()
    ensures own { (plan : Plan) (lines : List Line) → IsLawful plan (reverse lines) → AreLinesOf plan (reverse lines)
        → StandsFor plan (text plan lines) (reverse lines) }
    ensures format2 { (plan : Plan) (lines : List Line) → IsLawful plan (reverse lines) → AreLinesOf plan (reverse lines)
        → StandsFor plan (text2 plan lines) (reverse lines) }
    ensures own_short { (plan : Plan) (lines : List Line) → IsLawful plan (reverse lines) → AreLinesOf plan (reverse lines)
        → length (text plan lines) ≤ 67108864 }
    ensures format2_short { (plan : Plan) (lines : List Line) → IsLawful plan (reverse lines) → AreLinesOf plan (reverse lines)
        → length (text2 plan lines) ≤ 67108864 }
{}
