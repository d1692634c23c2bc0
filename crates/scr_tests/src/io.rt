//! Each fault of reading has its text.

use scr_io::ReadFault;
use std::test::Fail;

#[test]
fn each_fault_of_reading_has_its_text(rt: HostRuntime) -> Result<(), Fail> {
    for (fault, text) in [
        (ReadFault::Failed, "the file could not be read"),
        (ReadFault::TooLong, "the file has more than 64 MiB"),
        (ReadFault::NoMemory, "out of memory"),
    ] {
        assert_eq!(rt; fault.to_string(rt.alloc())?.as_str(), text);
    }
    Ok(())
}
