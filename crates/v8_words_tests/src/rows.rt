//! Tables of expected values.
use std::process::Abort;

/// Asserts that each of these rows holds.
pub(crate) fn each_holds<T, F: Fn(&T) -> bool>(rt: &impl Abort, rows: &[T], holds: F)
    requires { F.IsAlwaysCallable holds }
{
    for number in 0..rows.len() {
        assert!(rt; holds(&rows[number]), "row {number}");
    }
}
