//! How far apart the bounds of the greatest book's figures may be.
ghost use Rattle.std.specs.Prelude.{◌≤◌, length};

use scr_book::Book;
use scr_csv::{lines, read_line};
use scr_nodes::{Alternatives, Measure, Node, Whole};
use scr_widths::stated_width;
use std::alloc::Global;
use std::test::Fail;

/// Interest, equity, market, life and health risk, the basic requirement and the whole one.
const FIGURES: [Whole; 7] = [
    Whole::Picked(Alternatives::Interest, Measure::Gross),
    Whole::EquityRoot,
    Whole::Market(Measure::Gross),
    Whole::Life(Measure::Gross),
    Whole::Health(Measure::Gross),
    Whole::Bscr(Measure::Gross),
    Whole::Scr,
];

// As much is held as a book may hold, 500 billion euros.
#[test]
fn widths_of_the_greatest_book(rt: HostRuntime) -> Result<(), Fail> {
    let alloc = rt.alloc();
    let mut book = Book::new(alloc)?;
    let filled = fill(
        alloc,
        &mut book,
        b"sec,T,eq1,-,EUR,0\nhold,T,50000000000000\n",
    );
    let mut widths = [0; 7];
    for k in 0..7 {
        widths[k] = stated_width(&book, &Node::Whole(FIGURES[k])).unwrap_or(0);
    }
    book.close();
    assert!(rt; filled);
    assert_eq!(rt; widths, [2, 2, 4, 22, 55, 233, 766]);
    Ok(())
}

/// Applies the records of a file; false where one is none or is refused.
fn fill(alloc: Global, book: &mut Book, bytes: &[u8]) -> bool
    requires { length bytes.now ≤ 67108864 }
{
    for line in lines(bytes) {
        let Ok(edit) = read_line(alloc, line.text) else {
            return false;
        };
        if book.take(alloc, edit).is_err() {
            return false;
        }
    }
    true
}
