//! An entry: how much of something, by which factor, in which row of the accounts.

/// The row and the span of an entry, and the code of its factor, as they were received: booking checks them.
#[derive(Clone, Copy, Debug, PartialEq, Eq)]
pub struct EntryHead {
    /// The number of a row. It may be of no row that exists.
    pub row: u16,
    /// Kilometres or years, where the row asks for them.
    pub span: u16,
    /// The code of the factor, any number.
    pub code: u32,
}

/// How much of something an entry is for. Booking checks the range.
#[derive(Clone, Copy, Debug, PartialEq)]
pub enum Quantity {
    /// Whole thousandths of a unit, 0 to 1,000,000,000.
    Counted(u64),
    /// Units, 0 to 1,000,000.
    Measured(f64),
}

/// An entry in the form in which it is booked.
#[derive(Clone, Copy, Debug, PartialEq)]
pub struct Entry {
    /// Its row, span and code.
    pub head: EntryHead,
    /// How much it is for.
    pub quantity: Quantity,
}
