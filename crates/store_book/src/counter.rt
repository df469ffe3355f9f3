//! How far the numbers of a table have come.
ghost use Rattle.std.specs.Prelude.{◌≡◌, ◌<◌, ◌≤◌, IsTrue};
ghost use Rattle.store_book.specs.Passing.{Counts};

/// The number of the row before, and the last one given.
#[derive(Clone, Copy)]
pub(crate) struct Counter {
    pub(crate) top: u64,
    pub(crate) last: u64,
}

impl Counter {
    /// Before the first row.
    pub(crate) fn new(last: u64) -> Counter
        ensures { result ≡ record { top = 0; last = last } }
    {
        Counter { top: 0, last }
    }

    /// Whether the number is above that of the row before, and not above the last one given.
    pub(crate) fn passes(&mut self, number: u64) -> bool
        ensures counts { IsTrue result → Counts self.old number self.new }
        ensures fine { self.old.top < number → number ≤ self.old.last → IsTrue result }
    {
        if number <= self.top || number > self.last {
            return false;
        }
        self.top = number;
        true
    }
}
