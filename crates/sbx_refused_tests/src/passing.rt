//! The assertion of the tests.
use std::process::Abort;

/// Fails the test where it isn't so, and says what isn't. The tests assert through here, since an assertion of their
/// own takes far longer to check.
pub(crate) fn passes<R: Abort>(rt: &R, name: &str, holds: bool) {
    assert!(rt; holds, "{name}");
}
