//! Where a row of the table lies among the rows of its crate.

/// The crate that contains a row.
#[derive(Clone, Copy)]
pub enum Part {
    Integer,
    X87,
    Sse,
    Vex,
}

/// Where a row lies: the crate, and the index among its rows.
#[derive(Clone, Copy)]
pub struct Spot {
    pub part: Part,
    pub at: u16,
}
