/// The places from one on and before another.
#[derive(Clone, Copy, Debug)]
pub struct Range {
    pub from: u32,
    pub to: u32,
}

/// A range that hangs at a node.
#[derive(Clone, Copy, Debug)]
pub struct Hang {
    /// Which range it is.
    pub number: u32,
    /// The link to what hangs there next.
    pub next: u32,
}
