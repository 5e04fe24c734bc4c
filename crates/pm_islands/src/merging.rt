//! The merge of lists of lines.

ghost use Rattle.std.specs.Prelude.{◌≡◌, ◌<◌, ◌^◌, [], ◌∷◌, IfNone, IfOk, IfSome, length, map, take};
ghost use Rattle.pm_model.specs.Islands.{merged};
ghost use Rattle.pm_islands.specs.Next.{AreInTime, earlier, next};

use pm_base::NoMemory;
use pm_model::Line;
use std::alloc::Global;

// A list with its first line at this time stands before others, of which the place and the time of
// the next line are known.
fn earlier(time: u64, others: Option<(usize, u64)>) -> (usize, u64)
    requires { IfSome others (λ p. p.0 < 2 ^ 63) }
    ensures { result ≡ earlier time others }
{
    match others {
        Some((place, other)) if other < time => (place + 1, other),
        _ => (0, time),
    }
}

// The place of the list that gives the next line, and that line's time. It looks at each list once.
fn next(lists: &[&[Line]]) -> Option<(usize, u64)>
    ensures next { result ≡ next (map (λ lines. lines.now) lists.now) }
    ensures in_range { IfSome result (λ p. p.0 < length lists.now) }
{
    let [lines, others @ ..] = lists else {
        return None;
    };
    let next = next(others);
    match lines.first() {
        Some(line) => Some(earlier(line.time, next)),
        None => next.map(|(place, time)| (place + 1, time)),
    }
}

// The first line and the lines behind it.
fn first_of(lines: &[Line]) -> Option<(Line, &[Line])>
    ensures some { IfSome result (λ p. lines.now ≡ p.0 ∷ p.1.now) }
    ensures none { IfNone result (lines.now ≡ []) }
{
    let (line, rest) = lines.split_first()?;
    Some((*line, rest))
}

// Takes the next line of the merge.
fn take_next(lists: &mut Vec<&[Line]>) -> Option<Line>
    requires { AreInTime (map (λ lines. lines.now) lists.old.items) }
    ensures in_time { AreInTime (map (λ lines. lines.now) lists.new.items) }
    ensures some { IfSome result (λ line. merged (map (λ lines. lines.now) lists.old.items) ≡ line ∷ merged (map (λ lines. lines.now) lists.new.items)) }
    ensures none { IfNone result (merged (map (λ lines. lines.now) lists.old.items) ≡ []) }
{
    let Some((place, _)) = next(&*lists) else {
        return None;
    };
    let Some((line, rest)) = first_of(lists[place]) else {
        return None;
    };
    lists[place] = rest;
    Some(line)
}

/// All the lines of the lists, ordered by time, then by the place of their list, and then by their
/// place in it, cut to the first `limit` (this project's own). In each list times don't fall. It looks
/// at the first line of each list for each line that it takes. Fails where memory runs out.
pub fn merge(alloc: Global, lists: &[&[Line]], limit: usize) -> Result<Vec<Line>, NoMemory>
    requires { AreInTime (map (λ lines. lines.now) lists.now) }
    ensures { IfOk result (λ lines. lines.items ≡ take limit (merged (map (λ lines. lines.now) lists.now))) }
{
    let mut rests = Vec::from_slice(alloc, lists)?;
    let mut lines = Vec::new(alloc);
    while lines.len() < limit {
        let Some(line) = take_next(&mut rests) else {
            break;
        };
        lines.push(line)?;
    }
    Ok(lines)
}
