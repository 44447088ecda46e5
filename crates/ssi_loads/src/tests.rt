//! With as much memory as it asks for, the call writes these texts.

use crate::first_lines;
use adya_values::{FinalPair, Key, Value};
use std::test::Fail;

#[test]
fn two_rows_are_loaded(rt: HostRuntime) -> Result<(), Fail> {
    let rows = [
        FinalPair {
            key: Key::new(b"apple")?,
            value: Value::new(b"1")?,
        },
        FinalPair {
            key: Key::new(b"pear")?,
            value: Value::new(b"x.2")?,
        },
    ];
    let text = first_lines(rt.alloc(), 7, &rows)?;
    assert_eq!(rt;
        text.as_slice(),
        b"# ssi log 1 segment 7\nbegin load\nput load apple 1\nput load pear x.2\ncommit load\n# loaded\n".as_slice()
    );
    Ok(())
}

#[test]
fn no_rows_are_no_transaction(rt: HostRuntime) -> Result<(), Fail> {
    let text = first_lines(rt.alloc(), 12, &[])?;
    assert_eq!(rt;
        text.as_slice(),
        b"# ssi log 1 segment 12\n# loaded\n".as_slice()
    );
    Ok(())
}
