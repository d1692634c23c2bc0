//! Which Blocks of a list change when a member is appended or swap-removed.
ghost use Rattle.std.specs.Prelude.{◌≡◌, slice_get};
ghost use Rattle.scr_sum_tree.specs.ChangedBlocks as spec;

use crate::blocks::{Level, WIDTH, is_block};

/// Whether a Block directly over `count` neighbours changes when one is appended: the level begins, or the Block spans the new
/// position.
fn grew(count: usize, index: usize) -> bool
    ensures { result ≡ spec.grew count index }
{
    count >= WIDTH && index <= count / WIDTH && (count == WIDTH || index == count / WIDTH)
}

/// Whether a Block of `level` changes when a member is appended to `count`: the level begins, or the Block gains a member or
/// Block.
pub fn came(count: usize, level: Level, index: usize) -> bool
    ensures { result ≡ spec.came count level index }
{
    match level {
        Level::First => grew(count, index),
        Level::Second => count % WIDTH == 0 && grew(count / WIDTH, index),
    }
}

/// Whether a Block of `level` changes when the member at `place` of `count` is swap-removed. On the first level the level ends, or
/// the Block spans `place` or the last position. On the second the level ends, or the Block loses a Block.
pub fn went(count: usize, place: usize, level: Level, index: usize) -> bool
    ensures { result ≡ spec.went count place level index }
{
    match level {
        Level::First => {
            is_block(count, Level::First, index)
                && (count == WIDTH + 1
                    || index == place / WIDTH
                    || index == count.saturating_sub(1) / WIDTH)
        }
        Level::Second => came(count.saturating_sub(1), level, index),
    }
}

/// The `k`-th Block (from 0) directly over `count` neighbours that changes when one is appended; `None` past the last.
fn grown(count: usize, k: usize) -> Option<usize>
    ensures { result ≡ slice_get (spec.grown count) k }
{
    if count < WIDTH {
        None
    } else if count == WIDTH {
        [0, 1].get(k).copied()
    } else {
        [count / WIDTH].get(k).copied()
    }
}

/// The `k`-th Block (from 0) of `level` that changes when a member is appended to `count`; `None` past the last.
pub fn coming(count: usize, level: Level, k: usize) -> Option<usize>
    ensures { result ≡ slice_get (spec.coming count level) k }
{
    match level {
        Level::First => grown(count, k),
        Level::Second if count % WIDTH == 0 => grown(count / WIDTH, k),
        Level::Second => None,
    }
}

/// The `k`-th Block (from 0) of `level` that changes when the member at `place` of `count` is swap-removed; `None` past the last.
pub fn leaving(count: usize, place: usize, level: Level, k: usize) -> Option<usize>
    ensures { result ≡ slice_get (spec.leaving count place level) k }
{
    match level {
        Level::First => gone(count, place, k),
        Level::Second => coming(count.saturating_sub(1), level, k),
    }
}

/// The `k`-th Block (from 0) of the first level that changes when the member at `place` of `count` is swap-removed.
fn gone(count: usize, place: usize, k: usize) -> Option<usize>
    ensures { result ≡ slice_get (spec.leaving count place Level.First) k }
{
    let own = place / WIDTH;
    let last = count.saturating_sub(1) / WIDTH;
    if count <= WIDTH {
        None
    } else if count == WIDTH + 1 {
        [0, 1].get(k).copied()
    } else if own == last {
        [own].get(k).copied()
    } else {
        [own, last].get(k).copied()
    }
}
