//! Numbers into a file of the system.

use crate::numbers::{append_numbers, assert_numbers, write_thousand};
use std::fs;
use std::fs::File;
use std::test::Fail;

const PATH: &str = "test_printing_files.txt";

/// A file has the bytes that were written to it and to a reference to it, and a file that is open for
/// reading alone returns an error.
#[test]
fn written_and_read_back(rt: HostRuntime) -> Result<(), Fail> {
    let mut file = File::create(&rt, PATH)?;
    append_numbers(&rt, &mut file)?;
    append_numbers(&rt, &mut &file)?;
    assert!(rt; write_thousand(&mut File::open(&rt, PATH)?).is_err());
    let bytes = fs::read(&rt, PATH)?;
    fs::remove_file(&rt, PATH)?;
    let (first, second) = bytes.split_at(bytes.len() / 2);
    assert_numbers(&rt, first, "", "");
    assert_numbers(&rt, second, "", "");
    Ok(())
}
