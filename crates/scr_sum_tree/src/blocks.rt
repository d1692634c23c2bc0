//! The Blocks of a list: their number on each level, and the positions that each spans.
ghost use Rattle.std.specs.Prelude.{◌≡◌};
ghost use Rattle.scr_sum_tree.specs.Blocks as spec;

use std::ops::Range;

/// The level of a Block: one of the first level adds up members, one of the second adds up Blocks of the first.
#[derive(Clone, Copy, PartialEq, Eq)]
pub enum Level {
    First,
    Second,
}

/// The largest number of neighbours that a Block adds up.
pub(crate) const WIDTH: usize = 32;

/// The number of parts of `count` positions: a 32nd, rounded up.
pub fn parts(count: usize) -> usize
    ensures { result ≡ spec.parts count }
{
    count.div_ceil(WIDTH)
}

/// Part `index` (from 0) of a list: 32 neighbours, fewer at the end, and an empty slice past it.
pub fn part<T>(list: &[T], index: usize) -> &[T]
    ensures { result.now ≡ spec.part index list.now }
{
    let start = index.saturating_mul(WIDTH).min(list.len());
    let end = start + WIDTH.min(list.len() - start);
    &list[start..end]
}

/// The number of Blocks directly over `count` members or Blocks; 0 for at most 32.
fn blocks_over(count: usize) -> usize
    ensures { result ≡ spec.blocks_over count }
{
    if count > WIDTH { parts(count) } else { 0 }
}

/// The number of Blocks of a level over a list of `count` members. They are numbered from 0.
pub fn blocks_at(count: usize, level: Level) -> usize
    ensures { result ≡ spec.blocks_at count level }
{
    match level {
        Level::First => blocks_over(count),
        Level::Second => blocks_over(parts(count)),
    }
}

/// Whether a list of `count` members has Block `index` on this level.
pub fn is_block(count: usize, level: Level, index: usize) -> bool
    ensures { result ≡ spec.is_block count level index }
{
    match level {
        Level::First => index < blocks_over(count),
        Level::Second => index < blocks_over(parts(count)),
    }
}

/// The number of members or Blocks that the whole sum over `count` members adds up.
pub fn top_count(count: usize) -> usize
    ensures { result ≡ spec.top_count count }
{
    if count <= WIDTH {
        count
    } else if parts(count) <= WIDTH {
        parts(count)
    } else {
        parts(parts(count))
    }
}

/// The number of positions that a full Block of the level spans, 32 or 1,024.
fn width(level: Level) -> usize
    ensures { result ≡ spec.width level }
{
    match level {
        Level::First => WIDTH,
        Level::Second => WIDTH * WIDTH,
    }
}

/// The Block of a level that spans position `place`, if the list has Blocks of the level.
pub fn block_of(level: Level, place: usize) -> usize
    ensures { result ≡ spec.block_of level place }
{
    match level {
        Level::First => place / WIDTH,
        Level::Second => place / (WIDTH * WIDTH),
    }
}

/// The positions that a Block of a list of `count` members spans; an empty range at `count` if it is past the end.
pub fn places(count: usize, level: Level, index: usize) -> Range<usize>
    ensures start { result.start ≡ spec.start_of count level index }
    ensures end { result.end ≡ spec.end_of count level index }
{
    let start = index.saturating_mul(width(level)).min(count);
    start..start + width(level).min(count - start)
}
