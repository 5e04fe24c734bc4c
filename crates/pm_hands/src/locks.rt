//! Locks and gates by types: whoever holds a lock has lent the hand to it, and calls no gate.

ghost use Rattle.std.specs.Prelude.{◌≡◌, ◌<◌, length};

use crate::callback::{Callback, Gated};
use pm_book::Book;
use pm_gate::Gate;
use std::sync::{Mutex, MutexGuard, Wait};

/// One thread's leave to hold one lock or to call the gate, which it has alone. A guard keeps it, so no callback runs
/// while the thread that began it holds a lock.
#[derive(Drop)]
pub struct Hand<'g, G> {
    gate: &'g G,
}

impl<'g, G: Gate> Hand<'g, G> {
    /// The hand of a thread, made once for all that it does.
    pub fn of(gate: &'g G) -> Hand<'g, G> {
        Hand { gate }
    }

    /// Lets a callback run, with no lock held.
    pub fn gate(&mut self, callback: Callback) -> Gated {
        callback.run(self.gate)
    }
}

/// A book behind its lock.
#[derive(Clone, Copy)]
pub struct Island<'b> {
    book: &'b Mutex<Book>,
}

impl<'b> Island<'b> {
    /// Holds the lock, with this hand. This may wait for other threads.
    pub fn lock<'h, R: Wait, G>(
        &'h self,
        rt: &R,
        _hand: &'h mut Hand<'_, G>,
    ) -> MutexGuard<'h, Book> {
        self.book.lock(rt)
    }

    // Holds the lock, with this hand; none where another holds it.
    pub(crate) fn try_lock<'h, G>(
        &'h self,
        _hand: &'h mut Hand<'_, G>,
    ) -> Option<MutexGuard<'h, Book>> {
        self.book.try_lock()
    }
}

/// The books of islands, each behind its lock.
#[derive(Clone, Copy)]
pub(crate) struct Islands<'b> {
    books: &'b [Mutex<Book>],
}

impl<'b> Islands<'b> {
    // These books.
    pub(crate) fn of(books: &'b [Mutex<Book>]) -> Islands<'b>
        ensures { result.books.now ≡ books.now }
    {
        Islands { books }
    }

    // How many there are.
    pub(crate) fn len(&self) -> usize
        ensures { result ≡ length self.now.books.now }
    {
        self.books.len()
    }

    // The one at a place.
    pub(crate) fn at(&self, place: usize) -> Island<'b>
        requires { place < length self.now.books.now }
    {
        Island {
            book: &self.books[place],
        }
    }
}

/// One book behind a lock of its own.
#[derive(Drop)]
pub struct Kept {
    book: Mutex<Book>,
}

impl Kept {
    /// This book.
    pub fn new(book: Book) -> Kept {
        Kept {
            book: Mutex::new(book),
        }
    }

    /// To hold its lock.
    pub fn island(&self) -> Island<'_> {
        Island { book: &self.book }
    }

    /// What stands behind the lock in the end.
    pub fn into_book(self) -> Book {
        self.book.into_inner()
    }
}
