//! The table of instructions as a verifier sees it: what each takes and pushes, what it does to locals and scopes, and
//! where it leads (Overview, chapter 5). An opcode without a row is not run.
//!
//! What a verifier knows of a value at each place of a method: states, what an instruction does to one, the rules that a
//! state keeps, typings, and what refutes them. Definitions alone; the crates above compute what stands here.
//!
//! The work list of a verifier, as states at some places of a method that only rise: what it keeps, why it ends, and that
//! where it ends there is a typing, or a place and a rule that refute every one.
#![tactic(auto)]

mod catch;
mod example_laws;
mod home;
mod instr;
mod row;
mod row_laws;
mod rule;
mod stack;
mod state;
mod table;
mod typing_laws;
mod worklist_laws;

pub use catch::Catch;
pub use example_laws::examples_hold;
pub use home::Home;
pub use instr::{arguments_of, local_of, opcode_of, operand_of, second_of};
pub use row::{Gives, Leads, Locals, Need, Operand, Row, RowKind, Scoping, Site, Source, Takes};
pub use row_laws::law_of_rows;
pub use rule::VerifyRule;
pub use stack::Stack;
pub use state::{Scope, State};
pub use table::row_of;
pub use typing_laws::law_of_rules;
pub use worklist_laws::law_of_typings;
