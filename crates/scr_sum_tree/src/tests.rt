//! Which Blocks lists of some lengths have, and which of them change.

use crate::{
    Level, Reader, blocks_at, came, coming, leaving, part, places, reader_of_block,
    reader_of_member, top_count, went,
};
use std::test::Fail;

#[test]
fn thirty_two_have_no_block(rt: HostRuntime) -> Result<(), Fail> {
    assert_eq!(rt; blocks_at(32, Level::First), 0);
    assert_eq!(rt; blocks_at(33, Level::First), 2);
    assert_eq!(rt; top_count(33), 2);
    assert!(rt; reader_of_member(32, 31) == Reader::Whole);
    assert!(rt; reader_of_member(33, 32) == Reader::Block(Level::First, 1));
    Ok(())
}

#[test]
fn twenty_thousand_have_two_levels(rt: HostRuntime) -> Result<(), Fail> {
    assert_eq!(rt; blocks_at(20_000, Level::First), 625);
    assert_eq!(rt; blocks_at(20_000, Level::Second), 20);
    assert_eq!(rt; top_count(20_000), 20);
    assert!(rt; reader_of_block(20_000, Level::First, 624) == Reader::Block(Level::Second, 19));
    assert_eq!(rt; places(20_000, Level::Second, 19).start, 19_456);
    assert_eq!(rt; places(20_000, Level::Second, 19).end, 20_000);
    Ok(())
}

#[test]
fn a_part_has_the_last_places(rt: HostRuntime) -> Result<(), Fail> {
    let list = [0; 40];
    assert_eq!(rt; part(list.as_slice(), 0).len(), 32);
    assert_eq!(rt; part(list.as_slice(), 1).len(), 8);
    assert_eq!(rt; part(list.as_slice(), 2).len(), 0);
    Ok(())
}

#[test]
fn one_that_leaves_changes_two(rt: HostRuntime) -> Result<(), Fail> {
    assert_eq!(rt; leaving(100, 40, Level::First, 0), Some(1));
    assert_eq!(rt; leaving(100, 40, Level::First, 1), Some(3));
    assert_eq!(rt; leaving(100, 40, Level::First, 2), None);
    assert!(rt; went(100, 40, Level::First, 3));
    assert!(rt; !went(100, 40, Level::First, 2));
    Ok(())
}

#[test]
fn one_that_comes_begins_both_levels(rt: HostRuntime) -> Result<(), Fail> {
    assert_eq!(rt; coming(1_024, Level::First, 0), Some(32));
    assert_eq!(rt; coming(1_024, Level::Second, 1), Some(1));
    assert!(rt; came(1_024, Level::Second, 0));
    assert_eq!(rt; coming(1_025, Level::Second, 0), None);
    Ok(())
}
