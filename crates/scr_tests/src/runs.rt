//! Runs over a shelf and a sink in memory, of which each read and each write fails in turn.

use crate::outside::{Outside, SOUND, outcome};
use std::test::Fail;

pub const BOOK: &str =
    "sec,ALPHA,eq1,-,EUR,0\nhold,ALPHA,100000\nsec,BETA,eq2,-,EUR,0\nhold,BETA,50000\n";

/// The first hundred bytes of the report on that book, worked by hand.
const FRONT: &str =
    "# 0 book\nS2501.market.gross 596.19 596.20\nS2501.market.net 596.19 596.20\nS2501.default.gross 0.00 0.";

pub const FACTORS: &str = "form = 1
[spread]
s0 = [0, 14000, 70000, 7000, 105000, 5000, 130000, 5000, 155000, 5000]
s1 = [0, 14000, 70000, 7000, 105000, 5000, 130000, 5000, 155000, 5000]
s2 = [0, 14000, 70000, 7000, 105000, 5000, 130000, 5000, 155000, 5000]
s3 = [0, 14000, 70000, 7000, 105000, 5000, 130000, 5000, 155000, 5000]
s4 = [0, 14000, 70000, 7000, 105000, 5000, 130000, 5000, 155000, 5000]
s5 = [0, 14000, 70000, 7000, 105000, 5000, 130000, 5000, 155000, 5000]
s6 = [0, 14000, 70000, 7000, 105000, 5000, 130000, 5000, 155000, 5000]
none = [0, 14000, 70000, 7000, 105000, 5000, 130000, 5000, 155000, 5000]
[nl]
premium = [100000, 100000, 100000, 100000, 100000, 100000, 100000, 100000, 100000, 100000, 100000, 100000]
reserve = [100000, 100000, 100000, 100000, 100000, 100000, 100000, 100000, 100000, 100000, 100000, 100000]
corr = [
  [100, 25, 25, 25, 25, 25, 25, 25, 25, 25, 25, 25],
  [25, 100, 25, 25, 25, 25, 25, 25, 25, 25, 25, 25],
  [25, 25, 100, 25, 25, 25, 25, 25, 25, 25, 25, 25],
  [25, 25, 25, 100, 25, 25, 25, 25, 25, 25, 25, 25],
  [25, 25, 25, 25, 100, 25, 25, 25, 25, 25, 25, 25],
  [25, 25, 25, 25, 25, 100, 25, 25, 25, 25, 25, 25],
  [25, 25, 25, 25, 25, 25, 100, 25, 25, 25, 25, 25],
  [25, 25, 25, 25, 25, 25, 25, 100, 25, 25, 25, 25],
  [25, 25, 25, 25, 25, 25, 25, 25, 100, 25, 25, 25],
  [25, 25, 25, 25, 25, 25, 25, 25, 25, 100, 25, 25],
  [25, 25, 25, 25, 25, 25, 25, 25, 25, 25, 100, 25],
  [25, 25, 25, 25, 25, 25, 25, 25, 25, 25, 25, 100],
]
[nslt]
premium = [100000, 100000, 100000, 100000]
reserve = [100000, 100000, 100000, 100000]
";

/// The factor file, the book, and edits of one record.
pub const FILES: [(&str, &str); 3] = [("f", FACTORS), ("b", BOOK), ("e", "hold,BETA,0\n")];

// Each of the three files takes an open and two reads, the second of which finds the end.
#[test]
fn each_failing_read_is_told(rt: HostRuntime) -> Result<(), Fail> {
    for reads in 1..10 {
        let outside = Outside { reads, ..SOUND };
        let end = outcome(&rt, rt.alloc(), &FILES, &outside)?;
        assert_eq!(rt; end.code, 5);
        assert!(rt; end.written.is_empty() && end.faults == 1 && end.strays == 0);
    }
    Ok(())
}

// A write that fails, and none.
#[test]
fn each_failing_write_leaves_a_front(rt: HostRuntime) -> Result<(), Fail> {
    for (writes, code, length) in [(1, 6, 0), (2, 6, 50), (3, 6, 100), (0, 0, 100)] {
        let outside = Outside {
            writes,
            piece: 50,
            ..SOUND
        };
        let end = outcome(&rt, rt.alloc(), &FILES, &outside)?;
        assert_eq!(rt; end.code, code);
        assert!(rt; end.written.starts_with(&FRONT.as_bytes()[..length]));
        assert!(rt; end.faults == 0 && (code == 0 || end.written.len() == length));
    }
    Ok(())
}

// A block has 103 lines. Where an allocation fails, of which `rt try --test --fail-alloc N` lets the Nth do so, no part of a
// block stands at the end.
#[test]
fn whole_blocks_are_written(rt: HostRuntime) -> Result<(), Fail> {
    let end = outcome(&rt, rt.alloc(), &FILES, &SOUND)?;
    let lines = end.written.iter().filter(|b| **b == b'\n').count();
    assert!(rt; lines % 103 == 0 && (end.written.is_empty() || end.written.ends_with(b"\n")));
    assert!(rt; end.code == 7 || lines == 206);
    Ok(())
}
