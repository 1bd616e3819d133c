//! The errors whose texts no clause has.

use cli::LineError;
use refusal::Refusal;
use server::Fault;
use session::{SessionError, WriteFailed};
use std::alloc::Global;
use std::fmt;
use std::test::Fail;

/// Whether this is a value's text.
fn tells<T: fmt::Display>(alloc: Global, value: &T, text: &str) -> bool {
    match format!(in alloc; "{value}") {
        Ok(told) => told.as_str() == text,
        Err(_) => false,
    }
}

#[test]
fn errors_tell_what_they_are(rt: HostRuntime) -> Result<(), Fail> {
    let alloc = rt.alloc();
    assert!(rt; tells(alloc, &WriteFailed, "the write failed"));
    assert!(rt; tells(alloc, &SessionError::Write, "the sink has failed"));
    assert!(rt;
        tells(
            alloc,
            &SessionError::Memory,
            "the text of an answer found no memory"
        )
    );
    assert!(rt;
        tells(
            alloc,
            &SessionError::Held,
            "the gate did not let a line through"
        )
    );
    assert!(rt; tells(alloc, &SessionError::Read, "the input could not be read"));
    assert!(rt; tells(alloc, &Fault::Map(Refusal::BadForest), "map: BadForest"));
    assert!(rt; tells(alloc, &Fault::Output, "output"));
    assert!(rt; tells(alloc, &Fault::Told, "told"));
    assert!(rt; tells(alloc, &Fault::Lost, "a change is lost"));
    assert!(rt; tells(alloc, &Fault::Memory, "memory"));
    assert!(rt; tells(alloc, &LineError::TooMany, "too many scripts"));
    assert!(rt; tells(alloc, &LineError::Unpaired, "not as many --to as scripts"));
    assert!(rt; tells(alloc, &LineError::Memory, "memory"));
    Ok(())
}
