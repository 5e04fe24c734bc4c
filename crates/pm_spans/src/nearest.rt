//! Which word may have been meant (this project's own).

use pm_base::NoMemory;
use std::alloc::Global;
use strsim::levenshtein;

/// Characters of a word for which a guess is made, at most.
const MAX_WORD: usize = 64;

/// The nearest of the words that are looked at, where one is near: by two edits or a third of the
/// word's characters, whichever is more, and by fewer edits than the word has characters.
#[derive(Clone, Copy)]
pub struct Guess<'a> {
    word: &'a str,
    // The nearest word is nearer than this.
    bound: usize,
    best: Option<&'a str>,
}

impl<'a> Guess<'a> {
    /// Nothing is looked at yet.
    pub fn new(word: &'a str) -> Guess<'a> {
        let chars = word.chars().count();
        let bound = if chars > MAX_WORD {
            0
        } else {
            chars.min((chars / 3).max(2) + 1)
        };
        Guess {
            word,
            bound,
            best: None,
        }
    }

    /// Looks at a word; of several that are as near the first stays. Fails where memory runs out.
    pub fn look_at(&mut self, alloc: Global, candidate: &'a str) -> Result<(), NoMemory> {
        if self.bound == 0 || candidate.len() > MAX_WORD {
            return Ok(());
        }
        let distance = levenshtein(alloc, self.word, candidate)?;
        if distance < self.bound {
            self.bound = distance;
            self.best = Some(candidate);
        }
        Ok(())
    }

    /// The nearest word so far.
    pub fn best(self) -> Option<&'a str> {
        self.best
    }
}

/// The nearest of words that spaces part. Fails where memory runs out.
pub fn nearest<'a>(
    alloc: Global,
    word: &'a str,
    words: &'a str,
) -> Result<Option<&'a str>, NoMemory> {
    let mut guess = Guess::new(word);
    for candidate in words.split_whitespace() {
        guess.look_at(alloc, candidate)?;
    }
    Ok(guess.best())
}
