ghost use Rattle.std.specs.Prelude.{◌≡◌};
ghost use Rattle.abc_tidy_refs.specs.Refs.{operand_pool as pool_of, value_pool as pool_of_kind};

use abc_file_types::{Pool, ValueKind, opcode};

/// An index, and the pool that it names an entry of. Index 0 names none; of `NoPool` it is a number that names nothing.
#[derive(Clone, Copy, Debug, PartialEq, Eq)]
pub struct Ref {
    pub pool: Pool,
    pub index: u32,
}

/// The opcode of `debug`, whose name is its second operand.
pub(crate) const DEBUG: u8 = 0xef;

/// The pool that the first operand of an instruction names, and of `debug` its second, by the table of instructions.
pub fn operand_pool(op: u8) -> Pool
    ensures { result ≡ pool_of op }
{
    match opcode(op) {
        Some(info) => info.pool,
        None => Pool::NoPool,
    }
}

/// The pool that the value of an option is an index of.
pub(crate) fn value_pool(kind: ValueKind) -> Pool
    ensures { result ≡ pool_of_kind kind }
{
    match kind {
        ValueKind::Undefined | ValueKind::False | ValueKind::True | ValueKind::Null => {
            Pool::NoPool
        }
        ValueKind::Utf8 => Pool::Text,
        ValueKind::Int => Pool::Int,
        ValueKind::UInt => Pool::UInt,
        ValueKind::Double => Pool::Double,
        ValueKind::Private
        | ValueKind::Namespace
        | ValueKind::Package
        | ValueKind::PackageInternal
        | ValueKind::Protected
        | ValueKind::Explicit
        | ValueKind::StaticProtected => Pool::Space,
    }
}
