use abc_run_state::Stop;

/// Why no line was written.
#[derive(Clone, Copy)]
pub enum Unwritten {
    /// The step goes no further, and nothing was written.
    Stops(Stop),
    /// The sink failed.
    Fails,
}
