//! What a test asserts of two values.
use std::fmt::Debug;
use std::process::Abort;

/// Two values are the same. An `assert_eq!` is proved in each body that has it: tests with
/// many call this one.
pub(crate) fn same<T: PartialEq + Debug + Copy>(rt: &impl Abort, found: T, want: T) {
    assert_eq!(rt; found, want);
}
