//! Printed errors.

use abc_base::NoMemory;
use abc_file_types::Reason;
use abc_varint::ReadError;
use std::test::*;

#[test]
fn printed_errors(rt: HostRuntime) -> Result<(), Fail> {
    let shown = format!(in rt.alloc(); "{}", ReadError::ReadFault)?;
    assert_eq!(rt; shown.as_str(), "the source failed");
    let refused = ReadError::Refused {
        place: 3,
        reason: Reason::Short,
    };
    let shown = format!(in rt.alloc(); "{refused}")?;
    assert_eq!(rt; shown.as_str(), "the bytes are refused");
    let e: ReadError = NoMemory.into();
    assert_eq!(rt; e, ReadError::NoMemory);
    Ok(())
}
