//! Values that are to be the same.
use std::fmt::Debug;
use std::process::Abort;

/// Fails where the two differ.
pub(crate) fn same<T: PartialEq + Debug>(rt: &impl Abort, one: &T, other: &T) {
    assert_eq!(rt; *one, *other);
}
