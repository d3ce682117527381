//! The figure that a page prints under a heading, or as its total.

/// The figure of a heading or of the total.
#[derive(Clone, Copy, Debug, PartialEq, Eq)]
pub struct Figure {
    /// Whole kilograms of carbon dioxide equivalent, below zero where more is subtracted than added.
    pub kilograms: i64,
    /// The number of entries that the kilograms are of, 0 to 512.
    pub count: u16,
}
