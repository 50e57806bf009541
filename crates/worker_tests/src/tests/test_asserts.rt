//! What a row of a test is held to.
use std::fmt::Debug;
use std::process::Abort;

/// Ends the test where the row doesn't hold.
pub fn holds(rt: &impl Abort, is: bool, row: &impl Debug) {
    assert!(rt; is, "{row:?}");
}

/// Ends the test where what was found isn't what is due.
pub fn same<T: PartialEq + Debug>(rt: &impl Abort, found: &T, due: &T, row: &impl Debug) {
    assert!(rt; *found == *due, "{row:?}: {found:?} in place of {due:?}");
}
