//! `to_json` changes no value where an allocation fails, and makes none where the bytes aren't a text.

use std::alloc::AllocError;
use std::test::Fail;
use tinystr::forms::FormWriteError;
use tinystr::{TinyAsciiStr, UnvalidatedTinyAsciiStr};

#[test]
fn want_of_memory_for_a_text(rt: HostRuntime) -> Result<(), Fail> {
    let text = TinyAsciiStr::<4>::try_from_utf8(b"ab")?;
    let value = made!(
        rt,
        "text given",
        "text refused",
        AllocError,
        text.to_json(rt.alloc())
    );
    assert!(rt; text.to_bytes() == *b"ab\0\0" && value.as_str() == Some("ab"));
    Ok(())
}

#[test]
fn want_of_memory_for_bytes(rt: HostRuntime) -> Result<(), Fail> {
    let bytes = UnvalidatedTinyAsciiStr::from_utf8_unchecked(*b"ab\0");
    let value = made!(
        rt,
        "bytes given",
        "bytes refused",
        FormWriteError::Memory(_),
        bytes.to_json(rt.alloc())
    );
    assert!(rt; bytes == UnvalidatedTinyAsciiStr::from_utf8_unchecked(*b"ab\0"));
    assert!(rt; value.as_str() == Some("ab"));
    Ok(())
}

#[test]
fn other_bytes_need_no_memory(rt: HostRuntime) -> Result<(), Fail> {
    let bytes = UnvalidatedTinyAsciiStr::from_utf8_unchecked([0, 0x41, 0]);
    match bytes.to_json(rt.alloc()) {
        Err(FormWriteError::NotAscii) => println!(rt; "not ascii")?,
        _ => assert!(rt; false),
    }
    Ok(())
}
