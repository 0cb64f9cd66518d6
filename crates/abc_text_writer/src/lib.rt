//! What the lines of a listing are made of: bytes, numbers, labels, quoted texts, lines of numbers, and the comments that show a text's
//! front. Each `put` appends its bytes to `out`, and answers `NoMemory` where memory runs out; what stood there is still the front then.
#![tactic(auto)]

mod comments;
mod escaping;
mod lines;
mod numbers;
mod shown;
mod tokens;

pub use comments::{
    name_of, put_multiname_comment, put_name_comment, put_operand_comment, put_string_comment,
};
pub use lines::{put_int_line, put_uint_line};
pub use numbers::{put_number_line, put_number_lines, put_numbers, put_two};
pub use shown::Shown;
pub use tokens::{
    push_byte, put, put_first, put_hex_bytes, put_label, put_number, put_operand, put_quoted,
    put_signed, put_target, put_word,
};
