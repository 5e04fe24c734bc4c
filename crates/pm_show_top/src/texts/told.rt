//! What cases came to.

use std::fmt;

/// What a case shows, and what it came to.
pub type Case = (&'static str, Told);

/// What a case came to.
#[derive(Clone, Copy)]
pub enum Told {
    /// One thing holds or doesn't.
    One(bool),
    /// So many rows are as they are to be.
    All(usize),
    /// The first row that isn't, counted from 1.
    NotAt(usize),
}

impl Told {
    /// Takes note of the next row.
    pub fn note(&mut self, holds: bool) {
        if let Told::All(count) = *self {
            let row = count.saturating_add(1);
            *self = if holds {
                Told::All(row)
            } else {
                Told::NotAt(row)
            };
        }
    }
}

impl fmt::Display for Told {
    fn fmt<W: fmt::Write>(&self, f: &mut fmt::Formatter<W>) -> fmt::Result {
        match *self {
            Told::One(true) => f.write_str("yes"),
            Told::One(false) => f.write_str("no"),
            Told::All(count) => write!(f, "yes, all {count}"),
            Told::NotAt(row) => write!(f, "no, at {row}"),
        }
    }
}
