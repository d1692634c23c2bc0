//! The line of the one status that no file and no word brings about.

use scr_run::{Status, status_line};
use std::test::Fail;

#[test]
fn want_of_memory_has_its_line(rt: HostRuntime) -> Result<(), Fail> {
    let mut line = Vec::new(rt.alloc());
    status_line(rt.alloc(), &Status::NoMemory, &mut line)?;
    assert_eq!(rt; line.as_slice(), b"out of memory".as_slice());
    assert_eq!(rt; Status::NoMemory.code(), 7);
    Ok(())
}
