//! A plan of three islands: its numbers, the parts of its islands, and a merge of their runs.

ghost use Rattle.std.specs.Prelude.{ℕ, ◌≡◌, ◌<◌, true, false, [], ◌∷◌, Some, None, map, reverse, take};
ghost use Rattle.pm_model.specs.declared.plan.Plan.{Plan};
ghost use Rattle.pm_laws.specs.islands.Apart.{EachPasses, IsFinishedOn};
ghost use Rattle.pm_model.specs.Islands.{Connected, IsPart, Node, Numbering, island_of, merged, own, the_caller, the_device, the_domain, touch};
ghost use Rattle.pm_model.specs.Lawful.{IsFinished, IsLawful};
ghost use Rattle.pm_model.specs.Serial.{callers_and_works, serial, timer_actors};
ghost use Rattle.pm_model.specs.Text.{text1};
ghost use Rattle.pm_show_runs.specs.promises.ThreeIslands.{first_part, lists, merged_text, numbers, second_part, third_part, three_islands};

/// A device touches its parent, its supplier and its domain, and a caller what its script is for. A
/// link that isn't a runtime link, and a delay, touch nothing.
pub fn touching()
    ensures parent { touch three_islands (the_device 3) (the_device 1) ≡ true }
    ensures supplier { touch three_islands (the_device 3) (the_device 2) ≡ true }
    ensures domain { touch three_islands (the_device 3) (the_domain 0) ≡ true }
    ensures caller { touch three_islands (the_caller 2) (the_device 3) ≡ true }
    ensures siblings { touch three_islands (the_device 1) (the_device 2) ≡ false }
    ensures plain_link { touch three_islands (the_device 4) (the_device 1) ≡ false }
    ensures other_domain { touch three_islands (the_device 4) (the_domain 0) ≡ false }
    ensures other_caller { touch three_islands (the_caller 1) (the_device 3) ≡ false }
    ensures delay { touch three_islands (the_caller 0) (the_device 0) ≡ false }
{}

/// One caller asks for the parent of what another asks for, so the two are connected; the caller of
/// another device isn't.
pub fn connected()
    ensures joined { Connected three_islands (the_caller 2) (the_caller 3) }
    ensures apart { ¬ Connected three_islands (the_caller 2) (the_caller 1) }
{}

/// Islands are numbered by their least device, whatever the order of their callers; the caller that
/// asks for no device comes last. A device that no caller asks for is on no island, nor is its work
/// item or its timer.
pub fn numbered()
    ensures nodes { (k : Numbering three_islands 3) × ((node : Node) → k.island node ≡ numbers node) }
    ensures callers_and_works { (k : Numbering three_islands 3) × (map (island_of k) (callers_and_works three_islands)
        ≡ Some 2 ∷ Some 1 ∷ Some 0 ∷ Some 0 ∷ None ∷ Some 0 ∷ Some 0 ∷ Some 0 ∷ Some 1 ∷ []) }
    ensures timers { (k : Numbering three_islands 3) × (map (island_of k) (timer_actors three_islands)
        ≡ None ∷ Some 0 ∷ Some 0 ∷ Some 0 ∷ Some 1 ∷ []) }
{}

/// A plan has one count of islands, and each node of an island one number.
pub fn numbered_once()
    ensures count { (plan : Plan) (m n : ℕ) → Numbering plan m → Numbering plan n → m ≡ n }
    ensures number { (plan : Plan) (m n : ℕ) (k : Numbering plan m) (l : Numbering plan n) (a : Node) → k.island a < m → l.island a ≡ k.island a }
{}

/// Two callers of one island have one part; the whole plan isn't that part.
pub fn parts()
    ensures of_one { IsPart three_islands numbers (numbers (the_caller 2)) first_part }
    ensures of_another { IsPart three_islands numbers (numbers (the_caller 3)) first_part }
    ensures second { IsPart three_islands numbers (numbers (the_caller 1)) second_part }
    ensures third { IsPart three_islands numbers (numbers (the_caller 0)) third_part }
    ensures whole { ¬ IsPart three_islands numbers 0 three_islands }
{}

/// Each island's list is lawful for its part and finished, and it is the island's own of the merged
/// list, which is lawful for the plan and finished.
pub fn merged_runs()
    ensures each { EachPasses (IsFinishedOn three_islands numbers) lists }
    ensures text { text1 three_islands (merged lists) ≡ merged_text }
    ensures first { own numbers 0 (merged lists) ≡ serial first_part }
    ensures second { own numbers 1 (merged lists) ≡ serial second_part }
    ensures third { own numbers 2 (merged lists) ≡ serial third_part }
    ensures lawful { IsLawful three_islands (reverse (take three_islands.lines (merged lists))) }
    ensures finished { IsFinished three_islands (reverse (take three_islands.lines (merged lists))) }
{}
