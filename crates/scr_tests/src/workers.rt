//! What shows at the gate alone: how many workers are past it at once, what they leave to a worker who is held there, and how
//! often it is passed.

use crate::outside::code_past;
use crate::runs::{BOOK, FACTORS, FILES};
use scr_io::Gate;
use std::alloc::{AllocError, Global};
use std::sync::atomic::{AtomicU64, Ordering};
use std::test::Fail;
use std::thread::Threads;

/// For so many turns a worker is held at most.
const TURNS: u32 = 50_000_000;

/// In one of so many runs it is let on in time.
const RUNS: u32 = 5;

/// How many figures of the book are reckoned from no other, as the independent implementation counts them.
const WITHOUT_SOURCES: u64 = 84;

/// The book without edits.
const WHOLE: [(&str, &str); 3] = [("f", FACTORS), ("b", BOOK), ("e", "")];

/// The first who passes is held until so many have passed, itself included. All are counted, and whether it was let on in time.
#[derive(Drop)]
struct Holding {
    wanted: u64,
    passed: AtomicU64,
    late: AtomicU64,
}

impl Gate for Holding {
    fn pass(&self, _node: u32) {
        if self.passed.fetch_add(1, Ordering::SeqCst) == 0 {
            self.hold();
        }
    }
}

impl Holding {
    fn until(wanted: u64) -> Holding {
        Holding {
            wanted,
            passed: AtomicU64::new(0),
            late: AtomicU64::new(0),
        }
    }

    fn hold(&self) {
        for _ in 0..TURNS {
            if self.passed.load(Ordering::SeqCst) >= self.wanted {
                return;
            }
        }
        self.late.store(1, Ordering::SeqCst);
    }

    fn passed(&self) -> u64 {
        self.passed.load(Ordering::SeqCst)
    }

    fn is_late(&self) -> bool {
        self.late.load(Ordering::SeqCst) > 0
    }
}

/// Two workers reckon the book, and the first who passes is let on in time: in one of a few runs, since on a machine with much other
/// work a thread may begin late.
fn is_let_on<R: Threads + Sync>(rt: &R, alloc: Global, wanted: u64) -> Result<bool, AllocError> {
    for _ in 0..RUNS {
        let gate = Holding::until(wanted);
        let code = code_past(rt, alloc, &WHOLE, "2", &gate)?;
        if code == 0 && !gate.is_late() {
            return Ok(true);
        }
    }
    Ok(false)
}

// Nobody else passes where the workers run one after another.
#[test]
fn two_at_once(rt: HostRuntime) -> Result<(), Fail> {
    assert!(rt; is_let_on(&rt, rt.alloc(), 2)?);
    Ok(())
}

// Where the figures go rank by rank no more than those without sources pass while one of them is held.
#[test]
fn over_ranks(rt: HostRuntime) -> Result<(), Fail> {
    assert!(rt; is_let_on(&rt, rt.alloc(), WITHOUT_SOURCES + 1)?);
    Ok(())
}

// An edit that begins anew passes as often as the book.
#[test]
fn passes_counted(rt: HostRuntime) -> Result<(), Fail> {
    let (book, edited) = (Holding::until(1), Holding::until(1));
    let codes = (
        code_past(&rt, rt.alloc(), &WHOLE, "1", &book)?,
        code_past(&rt, rt.alloc(), &FILES, "1", &edited)?,
    );
    assert!(rt; codes.0 == 0 && codes.1 == 0);
    assert!(rt; book.passed() > 0 && edited.passed() / 2 < book.passed());
    Ok(())
}
