//! The index of a book: where the search for a number begins.
ghost use Rattle.std.specs.Prelude.{◌≡◌, ◌≤◌, ◌%◌};
ghost use Rattle.sheet.specs.Indexes.{new_index, search_start, index_with};

use crate::book::PLACES;

// How many remainders of numbers are told apart: eight for each place, so that few numbers of a book share one.
const REMAINDERS: usize = 4096;

// For each remainder the place, counted from 0, at which the search for a number with it begins: that of the first such
// number, or 512 where the book has none.
#[derive(Clone, Copy, Debug)]
pub(crate) struct Index {
    starts: [u16; REMAINDERS],
}

impl Index {
    // The index of a book with no place in use.
    pub(crate) fn new() -> Index
        ensures { result ≡ new_index }
    {
        Index {
            starts: [PLACES as u16; REMAINDERS],
        }
    }

    // The place at which the search for a number begins.
    pub(crate) fn start(&self, number: u32) -> usize
        ensures { result ≡ search_start self.now number }
    {
        usize::from(self.starts[remainder(number)])
    }

    // Lets the search for the number begin at `at`, or before that if it did already.
    pub(crate) fn lower(&mut self, number: u32, at: usize)
        requires { at ≤ PLACES }
        ensures { self.new ≡ index_with number at self.old }
    {
        let start = &mut self.starts[remainder(number)];
        *start = (*start).min(at as u16);
    }
}

fn remainder(number: u32) -> usize
    ensures { result ≡ number % REMAINDERS }
{
    number as usize % REMAINDERS
}
