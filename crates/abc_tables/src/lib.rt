//! How many bytes the canonical bytes of a file have, and whether some bytes spell it. Neither takes memory.
#![tactic(auto)]

mod body_lengths;
mod definition_lengths;
mod fitting;
mod fitting_bodies;
mod fitting_definitions;
mod fitting_pools;
mod indices;
mod laws;
mod lengths;
mod pool_lengths;
mod total;
mod walks;

pub use abc_file_types::{
    Abc, Body, BoxedList, ClassInfo, Code, Eight, Form, HAS_METADATA, HAS_OPTIONAL,
    HAS_PARAM_NAMES, HAS_PROTECTED, Handler, Instance, Instr, Metadata, Method, Multiname,
    MultinameKind, Namespace, NsKind, OpInfo, OptionValue, Pool, Reason, Script, Sizes, TraitBody,
    TraitInfo, TraitKind, U30_LIMIT, ValueKind, are_bodies_ready, code_len, count_len, has_flag,
    instr_len, is_ready, is_ready_body, mnemonic, opcode, ready_len, same, sizes_of,
};
pub use fitting::fits;
pub use laws::canonical_length;
pub use total::canon_len;
