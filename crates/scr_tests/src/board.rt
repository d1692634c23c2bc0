//! Five thousand figures on a board, reckoned by several numbers of workers.
ghost use Rattle.std.specs.Prelude.{◌≡◌, IfOk, pos};
ghost use Rattle.scr_num.specs.Rounding.{ends, exact_ends};
ghost use Rattle.scr_tests.specs.Ladders.{AreRungs, IsRung};

use scr_io::{OpenGate, Steps};
use scr_num::Span;
use scr_parallel::{Plan, spans_by};
use scr_reachability::Due;
use std::alloc::{AllocError as NoMemory, Global};
use std::sync::ledger::Ledger;
use std::test::Fail;
use std::thread::Threads;

const FIGURES: u32 = 5_000;

/// A figure is that which stands so many numbers before it.
const RUNG: u32 = 100;

/// Figures by their numbers: each of the first hundred is its number, each other one is that of its
/// source, which stands a hundred numbers before.
struct Ladder;

impl Plan for Ladder {
    ghost use Rattle.scr_tests.specs.Ladders.{IsRung, figure_of};

    ghost worked = { λ ladder number. figure_of number };

    ghost is_known = { λ ladder number. Unit {0} };

    ghost is_due = { λ ladder due. IsRung due };

    fn known(&self, number: u32) -> Span {
        exact(number % RUNG)
    }

    fn rule<L: Ledger>(&self, due: &Due, below: &[Span], steps: &mut Steps<L>) -> Span {
        steps.tick();
        match below.first() {
            Some(span) => *span,
            None => exact(due.number),
        }
    }
}

fn exact(number: u32) -> Span
    ensures { ends result ≡ exact_ends (pos number) }
{
    let end = number as i128;
    Span {
        low: end,
        high: end,
    }
}

/// All that is due, in the order of the numbers.
fn rungs(alloc: Global) -> Result<Vec<Due>, NoMemory>
    ensures { IfOk result (λ dues. AreRungs 0 dues.items) }
{
    let mut dues = Vec::new(alloc);
    for number in 0..FIGURES {
        dues.push(rung(alloc, number)?)?;
    }
    Ok(dues)
}

fn rung(alloc: Global, number: u32) -> Result<Due, NoMemory>
    ensures number { IfOk result (λ due. due.number ≡ number) }
    ensures rung { IfOk result IsRung }
{
    let mut sources = Vec::new(alloc);
    if number >= RUNG {
        sources.push(number - RUNG)?;
    }
    Ok(Due { number, sources })
}

/// The spans of the figures, by so many workers.
fn spans<R: Threads + Sync>(
    rt: &R,
    alloc: Global,
    dues: &[Due],
    workers: u32,
) -> Result<Vec<Span>, NoMemory>
    requires { AreRungs 0 dues.now }
{
    spans_by(rt, alloc, workers, &Ladder, dues, &OpenGate)
}

#[test]
fn each_number_of_workers_gives_equal_spans(rt: HostRuntime) -> Result<(), Fail> {
    let alloc = rt.alloc();
    let dues = rungs(alloc)?;
    let one = spans(&rt, alloc, dues.as_slice(), 1)?;
    assert_eq!(rt; one.as_slice().last(), Some(&exact(99)));
    for workers in [2, 4, 16, 64] {
        let many = spans(&rt, alloc, dues.as_slice(), workers)?;
        assert_eq!(rt; many.as_slice(), one.as_slice());
    }
    Ok(())
}
