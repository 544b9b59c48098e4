//! Printed forms of values.

use std::alloc::AllocError;
use std::test::Fail;
use tinystr::{TinyAsciiStr, TinyStr4, TinyStr8};

fn is_text(printed: Result<String, AllocError>, text: &str) -> bool {
    match printed {
        Ok(printed) => printed.as_str() == text,
        Err(_) => false,
    }
}

#[test]
fn values_print_as_their_texts(rt: HostRuntime) -> Result<(), Fail> {
    let quoted = TinyStr8::try_from_str("a\"b")?;
    let controls = TinyStr4::try_from_utf8(b"\x01\x1b\n\x7f")?;
    let empty = TinyAsciiStr::<0>::default();
    let printed = format!(in rt.alloc(); "{quoted} {quoted:?} {controls:?} {empty}{empty:?}");
    assert!(rt; is_text(printed, r#"a"b "a\"b" "\u{1}\u{1b}\n\u{7f}" """#));
    Ok(())
}

#[test]
fn a_width_and_a_precision_are_those_of_texts(rt: HostRuntime) -> Result<(), Fail> {
    let ab = TinyStr4::try_from_str("ab")?;
    let city = TinyStr8::try_from_str("New York")?;
    let padded = format!(in rt.alloc();
        "{ab:>5}|{ab:<5}|{ab:-^7}|{city:.3}|{city:.0}|{ab:>8?}|{ab:.1?}"
    );
    assert!(rt; is_text(padded, r#"   ab|ab   |--ab---|New||"ab"|"ab""#));
    Ok(())
}
