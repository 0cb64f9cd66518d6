//! Numbers, texts and lists of them, read from a source through a window and appended to bytes.
#![tactic(auto)]

mod codec;
mod error;
mod items;
mod laws;
mod number;
mod pass;
mod put;
mod read;
mod taken;
mod text;
mod window;

pub use abc_base::{len_u30, len_u32};
pub use abc_file_types::Reason;
pub use codec::{
    Codec, Counted, put_counted, put_items, put_pool, read_counted, read_pool, read_times,
};
pub use error::ReadError;
pub use items::{EntryIndex, IndexBelow, Number32, PoolIndex, Signed32, Text};
pub use laws::{lists_law, numbers_law, texts_law};
pub use number::front_s24;
pub use pass::{pass_counted, pass_pool, pass_times};
pub use put::{put_count, put_s24, put_s32, put_text, put_u8, put_u16, put_u30, put_u32};
pub use read::{
    read_entry_index, read_index_below, read_pool_index, read_s24, read_s32, read_u8, read_u16,
    read_u30, read_u32,
};
pub use text::{read_bytes, read_text};
pub use window::{Window, front_number};
