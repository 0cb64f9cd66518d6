ghost use Rattle.std.specs.Prelude.{◌≡◌, ◌≤◌, ◌^◌, length, min};
ghost use Rattle.abc_file_types.specs.Classes.{sizes_of as all_sizes};
ghost use Rattle.abc_file_types.specs.Methods.{has_value as names_entry};
ghost use Rattle.abc_file_types.specs.Sizes.{capped_sizes};

use crate::methods::ValueKind;
use crate::tables::{Abc, Sizes};
use abc_base::Table;

/// The least number that no operand, count or index has.
pub const U30_LIMIT: u32 = 1 << 30;

/// How many values there are, or 2^30 where there are more.
fn size_of<T: Drop>(items: &Table<T>) -> u32
    ensures { result ≡ min (length items.now) (2 ^ 30) }
{
    items.len().min(U30_LIMIT as usize) as u32
}

/// How many entries the tables have that indices name, each at most 2^30: an index is below 2^30, so it is tested
/// against a greater size as against 2^30.
pub fn sizes_of(abc: &Abc) -> Sizes
    ensures { result ≡ capped_sizes (all_sizes abc.now) }
{
    Sizes {
        ints: size_of(&abc.ints),
        uints: size_of(&abc.uints),
        doubles: size_of(&abc.doubles),
        strings: size_of(&abc.strings),
        namespaces: size_of(&abc.namespaces),
        sets: size_of(&abc.sets),
        names: size_of(&abc.names),
        methods: size_of(&abc.methods),
        metadata: size_of(&abc.metadata),
        classes: size_of(&abc.classes),
    }
}

impl Sizes {
    /// Whether the pool that a kind names has the entry, or the kind names none.
    pub fn has_value(&self, value: u32, kind: ValueKind) -> bool
        ensures { result ≡ names_entry self.now value kind }
    {
        match kind {
            ValueKind::Undefined | ValueKind::False | ValueKind::True | ValueKind::Null => true,
            ValueKind::Utf8 => value <= self.strings,
            ValueKind::Int => value <= self.ints,
            ValueKind::UInt => value <= self.uints,
            ValueKind::Double => value <= self.doubles,
            ValueKind::Private
            | ValueKind::Namespace
            | ValueKind::Package
            | ValueKind::PackageInternal
            | ValueKind::Protected
            | ValueKind::Explicit
            | ValueKind::StaticProtected => value <= self.namespaces,
        }
    }
}
