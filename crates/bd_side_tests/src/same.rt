//! One value beside another.

use std::fmt::Debug;
use std::process::Abort;

/// The value is the wanted one. All assertions are made here, since each is dear to prove where much is at hand.
pub(crate) fn same<T: Copy + PartialEq + Debug>(rt: &impl Abort, what: &str, value: T, wanted: T) {
    assert_eq!(rt; value, wanted, "{what}");
}

/// This is so.
pub(crate) fn holds(rt: &impl Abort, what: &str, is_so: bool) {
    assert!(rt; is_so, "{what}");
}
