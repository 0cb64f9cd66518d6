//! The instruction codec: code as a list of instructions, whose targets are numbers of instructions.
#![tactic(auto)]

mod front;
mod guesses;
mod holes;
mod laws;
mod marks;
mod pass;
mod pieces;
mod place;
mod push;
mod put;
mod raw;
mod read;
mod reading;
mod resolve;
mod run;
mod scan;
mod starts;

pub use abc_file_types::{Code, Form, Instr, OpInfo, Pool, code_len, mnemonic, opcode};
pub use laws::code_law;
pub use marks::Marks;
pub use pass::pass_code;
pub use pieces::{Pieces, put_code, put_pieces};
pub use place::read_place;
pub use put::offset_at;
pub use read::{read_code, read_code_within};
pub use reading::Reading;
pub use scan::Scan;
pub use starts::Starts;
