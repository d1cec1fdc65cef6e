//! Numbers in words, and the line of a word at fault.

use crate::lines::put_line;
use crate::notes::put_usage;
use crate::numbers::number_between;
use dev_io::MemSink;
use std::test::Fail;

#[test]
fn words_are_numbers(rt: HostRuntime) -> Result<(), Fail> {
    assert_eq!(rt; number_between("-12", -20, 20), Some(-12));
    assert_eq!(rt; number_between("0021", 0, 20), None);
    assert_eq!(rt; number_between("+1", 0, 20), None);
    assert_eq!(rt; number_between("00000000000000000001", 0, 20), None);
    assert_eq!(rt; number_between("9223372036854775808", 0, i64::MAX), None);
    Ok(())
}

#[test]
fn lines_are_written(rt: HostRuntime) -> Result<(), Fail> {
    let alloc = rt.alloc();
    let mut sink = MemSink::new(vec![in alloc; 0; 40]?, &[], 0);
    assert!(rt; put_line(&mut sink, &[b"a ", b"b", b"\n"]).is_ok());
    assert!(rt; put_usage(&mut sink, 12).is_ok());
    assert_eq!(rt; sink.bytes(), b"a b\nusage: word 12\n".as_slice());
    Ok(())
}
