//! Where the labels of lines end, and the devices of a label.

use single_label::Stop;
use std::io::ErrorKind;

/// Why there is no label of a line, and the number of the line, by that of the first.
#[derive(Clone, Copy, Debug, PartialEq, Eq)]
pub struct LineStop {
    pub number: usize,
    pub stop: Stop,
}

/// The devices of a label, as errors call them, and why they failed, if they did.
#[derive(Clone, Copy, Debug, PartialEq, Eq)]
pub struct Devices<'a> {
    /// The name of the input.
    pub source: &'a str,
    /// Why reading failed.
    pub not_read: Option<ErrorKind>,
    /// The name of the output.
    pub target: &'a str,
    /// Why writing failed.
    pub not_written: Option<ErrorKind>,
}
