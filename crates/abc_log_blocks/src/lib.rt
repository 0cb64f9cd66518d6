//! A sink and a source that are lent, moved by blocks of 4,096 bytes: what is written is gathered in a block, and what is read is taken a
//! block ahead. A block is part of its value, so no call takes memory.
#![tactic(auto)]

mod block_sink;
mod block_source;
mod loan;

pub use block_sink::BlockSink;
pub use block_source::BlockSource;
pub use loan::{SinkLoan, SourceLoan};
