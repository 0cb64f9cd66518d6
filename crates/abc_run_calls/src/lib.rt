//! Methods that are entered: their arguments are coerced, or options stand for them; then comes the array that some take, and
//! last of all the room of the frame.
//!
//! Calls of values, and `new` on values, with arguments on top of the operands.
#![tactic(auto)]

mod arguments;
mod calling;
mod elements;
mod entering;
mod hosts;
mod keeping;
mod making;
mod messages;
mod methods;
mod options;
mod places;

pub use calling::{call, waiting};
pub use entering::{enter_owned, enters_on_object, prepare, start_above};
pub use making::make;
pub use messages::{message_of, set_message};
pub use methods::{entry_of, may_take, method_at};
pub use options::option_given;
pub use places::{global_of, place_of_owner};
