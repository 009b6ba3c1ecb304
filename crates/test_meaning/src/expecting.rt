//! What a test expects.

use std::test::Fail;

/// Fails with these words where it is not so. An `assert!` with a message, or an `assert_eq!`, takes
/// the check of a test twice as long.
pub fn expect(is_so: bool, what: &str) -> Result<(), Fail> {
    if is_so { Ok(()) } else { Err(Fail::new(what)) }
}
