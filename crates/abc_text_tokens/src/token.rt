/// A token of a line.
#[derive(Clone, Copy, Debug)]
pub enum Token<'a> {
    /// A run of bytes.
    Bare(&'a [u8]),
    /// What stands between two quotes, as it is written.
    Quoted(&'a [u8]),
}

/// What a line goes on with.
#[derive(Clone, Copy, Debug)]
pub enum Next<'a> {
    /// A run of bytes, and what stands behind it.
    Bare(&'a [u8], &'a [u8]),
    /// What stands between two quotes, as it is written, and what stands behind them.
    Quoted(&'a [u8], &'a [u8]),
    /// No more tokens.
    End,
    /// A quote that isn't closed, or an escape that is none.
    Broken,
}
