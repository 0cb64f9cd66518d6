//! Where an instruction finds the values that its row takes: its arguments on top, then the others, with the runtime parts of a
//! name among them. `deleteproperty` is the one that needs no more than that.
//!
//! The instructions that walk over properties, ask for a class object or a name, and read and write slots, by their opcodes: each does
//! what the table of acts says.
//!
//! The instructions that make an object and enter no method, and the global object, by their opcodes: each does what the table of
//! acts says.
//!
//! The instructions that read, write and delete properties, call, and make objects, by their opcodes: each does what the table of
//! acts says.
//!
//! The instructions that find names in scopes, make classes, and work on the base of a method's class, by their opcodes: each does
//! what the table of acts says.
//!
//! The instruction of the newest frame, by its opcode: it does what the table of acts says.
#![tactic(auto)]

mod arms;
mod calling;
mod classes;
mod constructing;
mod deleting;
mod dispatch;
mod finding;
mod groups;
mod holding;
mod making;
mod new_here;
mod parts;
mod properties;
mod scopes_here;
mod scoping;
mod slots;
mod supers;
mod values;
mod walking;

pub use holding::{Held, hold, run_held, run_newest};
