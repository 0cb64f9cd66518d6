//! How formats are defined and proved: a part of a format is one value that says which bytes spell what, which first
//! fault refuses them, and how they are read; the ways to make a part from parts have one law each. The definitions
//! are in specs/, the laws in proofs/. What runs is only the reasons of refusal.
//!
//! The whole file as a value, table by table, and in specs/ what spells each part of it, what refuses it, and its
//! canonical bytes. Every index and number is a `u32`; the tables of entries that count from 1 leave entry 0 out.
#![tactic(auto)]

mod boxed_list;
mod classes;
mod code;
mod copies;
mod example_laws;
mod flags;
mod instructions;
mod methods;
mod names;
pub mod op;
mod opcodes;
mod ready;
mod reason;
mod sizes;
mod tables;
mod traits;

pub use boxed_list::BoxedList;
pub use classes::{ClassInfo, Instance, Script};
pub use code::{Body, Handler, Instr};
pub use copies::same;
pub use example_laws::examples_hold;
pub use flags::{HAS_METADATA, HAS_OPTIONAL, HAS_PARAM_NAMES, HAS_PROTECTED, has_flag};
pub use instructions::{Code, code_len, count_len, instr_len};
pub use methods::{Metadata, Method, OptionValue, ValueKind};
pub use names::{Multiname, MultinameKind, Namespace, NsKind};
pub use opcodes::{Form, OpInfo, Pool, mnemonic, opcode};
pub use ready::{are_bodies_ready, is_ready, is_ready_body, ready_len};
pub use reason::Reason;
pub use sizes::{U30_LIMIT, sizes_of};
pub use tables::{Abc, Eight, Sizes};
pub use traits::{TraitBody, TraitInfo, TraitKind};
