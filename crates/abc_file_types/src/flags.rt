ghost use Rattle.std.specs.Prelude.{◌≡◌};
ghost use Rattle.abc_file_types.specs.Methods.{has_flag as is_set};

/// The flag of a method that has optional values.
pub const HAS_OPTIONAL: u8 = 0x08;

/// The flag of a method that has names for its parameters.
pub const HAS_PARAM_NAMES: u8 = 0x80;

/// The attribute of a trait that has metadata.
pub const HAS_METADATA: u8 = 0x04;

/// The flag of an instance that has a protected namespace.
pub const HAS_PROTECTED: u8 = 0x08;

/// Whether a flag is set.
pub fn has_flag(flags: u8, flag: u8) -> bool
    ensures { result ≡ is_set flags flag }
{
    flags & flag != 0
}
