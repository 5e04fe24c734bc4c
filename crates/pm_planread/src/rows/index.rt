//! Names that are found by their bytes.

ghost use Rattle.std.specs.Prelude.{◌≡◌, ◌<◌, ◌^◌, true, length, map, vec_len, IfOk, IfSome, IsTrue};
ghost use Rattle.pm_model.specs.NamedList.{place_named};
ghost use Rattle.pm_names.specs.Table.{all_distinct};

use crate::rows::apart::are_apart;
use pm_base::NoMemory;
use pm_model::{Name, Named, NamedList};
use pm_names::Finder;
use std::alloc::Global;
use std::marker::Model;

/// A name that its row owns.
#[derive(Drop)]
pub struct Label<'a> {
    pub name: &'a Name,
}

impl<'a> Named for Label<'a> {
    ghost name_of = { λ label. label.name.now };

    fn name(&self) -> &Name {
        self.name
    }
}

/// Names in the plan's order, and what finds them.
#[derive(Drop)]
pub struct Index<'a> {
    labels: NamedList<Label<'a>>,
    finder: Finder,
    // Whether the finder serves: no two names are the same.
    is_distinct: bool,
}

impl<'a> Model for Index<'a> {
    ghost use Rattle.std.specs.Prelude.{◌≡◌, List, map, true};
    ghost use Rattle.pm_names.specs.Table.{all_distinct};
    ghost use Rattle.pm_planread.specs.declared.rows.index.Label.{Label};

    ghost Value = { List Label };

    ghost view = { λ index. index.labels };

    ghost invariant = { λ index. index.is_distinct ≡ true → all_distinct (map (λ label. label.name.now) index.labels) ≡ true };
}

impl<'a> Index<'a> {
    /// An index of these names, of which there are fewer than 2^32.
    pub fn new(alloc: Global, labels: Vec<Label<'a>>) -> Result<Index<'a>, NoMemory>
        requires { vec_len labels < 2 ^ 32 }
        ensures { IfOk result (λ index. index ≡ labels.entry.items) }
    {
        let is_distinct = are_apart(alloc, labels.as_slice())?;
        let labels = NamedList::new(alloc, labels)?;
        let finder = if is_distinct {
            Finder::new(alloc, labels.as_slice())?
        } else {
            Finder::none(alloc)
        };
        Ok(Index {
            labels,
            finder,
            is_distinct,
        })
    }

    /// Whether it is known that no two names are the same.
    pub fn is_distinct(&self) -> bool
        ensures { IsTrue result → all_distinct (map (λ label. label.name.now) self.now) ≡ true }
    {
        self.is_distinct
    }

    /// What finds the names where no two are the same, in any list of rows that have them.
    pub fn finder(&self) -> &Finder {
        &self.finder
    }

    /// The names as a list that has them in the order of their bytes too.
    pub fn labels(&self) -> &NamedList<Label<'a>>
        ensures { result.now ≡ self.now }
    {
        &self.labels
    }

    /// The names, in order.
    pub fn as_slice(&self) -> &[Label<'a>]
        ensures { result.now ≡ self.now }
    {
        self.labels.as_slice()
    }

    /// The place of a name, and of several that are the same the first.
    pub fn find(&self, name: &[u8]) -> Option<usize>
        ensures place { result ≡ place_named name.now (map (λ label. label.name.now) self.now) }
        ensures in_range { IfSome result (λ place. place < length self.now) }
    {
        if self.is_distinct {
            self.finder.find(&self.labels, name)
        } else {
            self.labels.find(name)
        }
    }
}
