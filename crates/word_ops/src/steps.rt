// Counts of steps that contracts see and that take no bytes.
ghost use Rattle.std.specs.Prelude.{◌≡◌, ◌+◌, ◌<◌};

use std::marker::Model;
use std::sync::ledger::{Blank, Book, Ledger, Share};

/// A number of steps, which contracts see and no code reads. The ledger `L` has one part.
///
/// A caller that counts nothing passes `Blank::new(1)` to a function of its own over `L: Ledger`,
/// called at `std::marker::Brand`, and that function makes its `Steps` from it.
#[derive(Drop)]
pub struct Steps<L: Ledger> {
    book: Book<L>,
    share: Share<L>,
}

impl<L: Ledger> Model for Steps<L> {
    ghost use Rattle.std.specs.Prelude.{◌≡◌, ℕ};

    ghost Value = { ℕ };

    ghost view = { λ s. s.book.total };

    ghost invariant = { λ s. s.share.parts ≡ 1 };
}

impl<L: Ledger> Steps<L> {
    /// A count that stands at 0.
    pub fn new(blank: Blank) -> Steps<L>
        requires name { blank.name ≡ L.name }
        requires parts { blank.parts ≡ L.parts }
        requires one { blank.parts ≡ 1 }
        ensures { result ≡ 0 }
    {
        let (book, share) = blank.open();
        Steps { book, share }
    }

    /// One more step.
    pub fn tick(&mut self)
        ensures { self.new ≡ self.old + 1 }
    {
        let Steps { book, share } = self;
        book.add(share, 1);
    }
}
