// One assertion for all tests, so that none has the flow of its own. Of a row of a table both values begin with what tells the row.
use std::fmt::Debug;
use std::process::Abort;

pub(crate) fn same<T: PartialEq + Debug>(rt: &impl Abort, found: &T, wanted: &T) {
    assert_eq!(rt; *found, *wanted);
}
