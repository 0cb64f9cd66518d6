use crate::boxed_list::BoxedList;
use crate::traits::TraitInfo;
use abc_base::Table;

/// An instruction (Overview, chapter 5). The first number of most forms is the opcode; targets are numbers of
/// instructions, counted from 0, and the number of all instructions is the code's end.
#[derive(Debug, Drop)]
pub enum Instr {
    /// An opcode alone.
    Plain(u8),
    /// One operand below 2^30.
    One(u8, u32),
    /// Two operands below 2^30.
    Two(u8, u32, u32),
    /// A branch, with its target.
    Branch(u8, u32),
    /// `lookupswitch`, with the targets of its default and of its cases, of which there is at least one.
    Switch {
        default: u32,
        cases: BoxedList,
    },
    /// `pushbyte`
    Byte(i8),
    /// `pushshort`
    Short(i16),
    /// `getscopeobject`, with the position of a local scope, counted from the bottom.
    ScopeObject(u8),
    /// `debug`, with a string of the pool and two numbers that are kept.
    Debug {
        kind: u8,
        name: u32,
        reg: u8,
        extra: u32,
    },
}

/// An exception handler (Overview, chapter 4, "Exception"). Places are numbers of instructions, as targets are.
#[derive(Clone, Copy, Debug, PartialEq, Eq)]
pub struct Handler {
    /// The first place that the handler covers.
    pub from: u32,
    /// The first place after those that it covers.
    pub to: u32,
    pub target: u32,
    /// A multiname, counted from 1; 0 is every value.
    pub exc_type: u32,
    /// A multiname, counted from 1; 0 is no name.
    pub var_name: u32,
}

/// A method's body (Overview, chapter 4, "Method body"). The four sizes are below 2^30.
#[derive(Debug, Drop)]
pub struct Body {
    /// The method, counted from 0; no other body has it.
    pub method: u32,
    pub max_stack: u32,
    pub local_count: u32,
    pub init_scope: u32,
    pub max_scope: u32,
    pub code: Table<Instr>,
    pub handlers: Table<Handler>,
    pub traits: Table<TraitInfo>,
}
