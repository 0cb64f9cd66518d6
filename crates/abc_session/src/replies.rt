use abc_machine::Reply;

/// What a session answers to a call.
#[derive(Clone, Copy, Debug, PartialEq, Eq)]
pub enum SessionReply {
    /// What came of the call.
    Reply(Reply),
    /// No start answered `Done`.
    NotReady,
    /// A call before answered `WriteFault`.
    Closed,
}
