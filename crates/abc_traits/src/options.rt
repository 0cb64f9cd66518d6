ghost use Rattle.std.specs.Prelude.{◌≡◌, ◌≤◌, ℕ, [], ◌∷◌, ◌++◌, None, Some, Err, not, nat_eq, nat_le, if◌then◌else◌};
ghost use Rattle.abc_file_types.specs.Lists.{times};
ghost use Rattle.abc_file_types.specs.Numbers.{u30 as number30};
ghost use Rattle.abc_file_types.specs.Part.{with_test, when};
ghost use Rattle.abc_file_types.specs.declared.reason.Reason.{Reason};
ghost use Rattle.abc_file_types.specs.declared.methods.ValueKind.TheVariants as kinds;
ghost use Rattle.abc_file_types.specs.Methods.{value_code, value_kind, option_value, option_bytes, options};
ghost use Rattle.abc_file_types.specs.Traits.{slot_value, slot_value_bytes};
ghost use Rattle.abc_file_types.specs.Canonical.{counted_bytes};
ghost use Rattle.abc_varint.specs.Passes.{Passes, PassesPart, nothing_told};
ghost use Rattle.abc_varint.specs.Puts.{Puts};
ghost use Rattle.abc_varint.specs.Reads.{Reads, ReadsPart};

use abc_base::{NoMemory, Source, Table};
use abc_file_types::{OptionValue, Reason, Sizes, ValueKind};
use abc_varint::{
    Codec, ReadError, Window, pass_times, put_u8, put_u30, read_times, read_u8, read_u30,
};
use std::alloc::Global;

/// The kind of a value.
#[tactic(auto, unfolding(abc_file_types::specs::Methods::value_kind))]
fn read_value_kind<S: Source>(w: &mut Window, source: &mut S) -> Result<ValueKind, ReadError>
    ensures { ReadsPart S.left S.faults value_kind w.old source.old w.new source.new result }
{
    let place = w.place();
    match read_u8(w, source)? {
        0x00 => Ok(ValueKind::Undefined),
        0x01 => Ok(ValueKind::Utf8),
        0x03 => Ok(ValueKind::Int),
        0x04 => Ok(ValueKind::UInt),
        0x06 => Ok(ValueKind::Double),
        0x0a => Ok(ValueKind::False),
        0x0b => Ok(ValueKind::True),
        0x0c => Ok(ValueKind::Null),
        0x05 => Ok(ValueKind::Private),
        0x08 => Ok(ValueKind::Namespace),
        0x16 => Ok(ValueKind::Package),
        0x17 => Ok(ValueKind::PackageInternal),
        0x18 => Ok(ValueKind::Protected),
        0x19 => Ok(ValueKind::Explicit),
        0x1a => Ok(ValueKind::StaticProtected),
        _ => Err(ReadError::Refused {
            place,
            reason: Reason::OptionKind,
        }),
    }
}

/// The byte of a kind.
fn code_of(kind: ValueKind) -> u8
    ensures { result ≡ value_code kind }
{
    match kind {
        ValueKind::Undefined => 0x00,
        ValueKind::Utf8 => 0x01,
        ValueKind::Int => 0x03,
        ValueKind::UInt => 0x04,
        ValueKind::Double => 0x06,
        ValueKind::False => 0x0a,
        ValueKind::True => 0x0b,
        ValueKind::Null => 0x0c,
        ValueKind::Private => 0x05,
        ValueKind::Namespace => 0x08,
        ValueKind::Package => 0x16,
        ValueKind::PackageInternal => 0x17,
        ValueKind::Protected => 0x18,
        ValueKind::Explicit => 0x19,
        ValueKind::StaticProtected => 0x1a,
    }
}

/// A value and its kind. The index is tested once the kind is accepted.
#[tactic(auto, unfolding(abc_file_types::specs::Methods::option_value))]
fn read_option_value<S: Source>(
    w: &mut Window,
    source: &mut S,
    sizes: &Sizes,
) -> Result<OptionValue, ReadError>
    ensures { ReadsPart S.left S.faults (option_value sizes.now) w.old source.old w.new source.new result }
{
    let place = w.place();
    let value = read_u30(w, source)?;
    let kind = read_value_kind(w, source)?;
    if !sizes.has_value(value, kind) {
        return Err(ReadError::Refused {
            place,
            reason: Reason::Index,
        });
    }
    Ok(OptionValue { kind, value })
}

#[tactic(auto, unfolding(abc_file_types::specs::Methods::option_bytes), using(abc_varint::proofs::Putting::stays, std::proofs::Common::append_assoc))]
fn put_option_value(option: &OptionValue, out: &mut Vec<u8>) -> Result<(), NoMemory>
    ensures { Puts out.old.items out.new.items result (option_bytes option.now) }
{
    put_u30(option.value, out)?;
    put_u8(code_of(option.kind), out)?;
    Ok(())
}

/// The values of optional parameters, over tables of these sizes.
#[derive(Clone, Copy, Debug)]
pub struct OptionCodec(pub Sizes);

impl Codec for OptionCodec {
    type Item = OptionValue;

    ghost part = { λ c. option_value c.0 };

    ghost canonical = { option_bytes };

    fn read<S: Source>(
        &self,
        _alloc: Global,
        w: &mut Window,
        source: &mut S,
    ) -> Result<OptionValue, ReadError> {
        read_option_value(w, source, &self.0)
    }

    fn put(item: &OptionValue, out: &mut Vec<u8>) -> Result<(), NoMemory> {
        put_option_value(item, out)
    }
}

/// How many parameters have a value, at most as many as there are parameters.
fn read_option_count<S: Source>(
    w: &mut Window,
    source: &mut S,
    params: u32,
) -> Result<u32, ReadError>
    ensures { ReadsPart S.left S.faults (with_test (λ c. nat_le c params) Reason.OptionCount number30) w.old
        source.old w.new source.new result }
{
    let place = w.place();
    let count = read_u30(w, source)?;
    if count > params {
        return Err(ReadError::Refused {
            place,
            reason: Reason::OptionCount,
        });
    }
    Ok(count)
}

/// The values of the last parameters, at most as many as there are parameters.
#[tactic(auto, unfolding(abc_file_types::specs::Methods::options))]
fn read_options<S: Source>(
    alloc: Global,
    w: &mut Window,
    source: &mut S,
    sizes: &Sizes,
    params: u32,
) -> Result<Table<OptionValue>, ReadError>
    ensures { ReadsPart S.left S.faults (options sizes.now params) w.old source.old w.new source.new result }
{
    let count = read_option_count(w, source, params)?;
    let items = read_times(&OptionCodec(*sizes), alloc, w, source, count)?;
    Ok(items)
}

/// The values where a flag asks for them, and none where it does not.
#[tactic(auto, unfolding(abc_file_types::specs::Part::when))]
pub fn read_options_if<S: Source>(
    flag: bool,
    alloc: Global,
    w: &mut Window,
    source: &mut S,
    sizes: &Sizes,
    params: u32,
) -> Result<Table<OptionValue>, ReadError>
    requires { w.old.kept ≡ None }
    ensures { ReadsPart S.left S.faults (when flag [] (options sizes.now params)) w.old source.old w.new
        source.new result }
{
    if flag {
        read_options(alloc, w, source, sizes, params)
    } else {
        Ok(Table::new(alloc))
    }
}

/// Passes the values of the last parameters, at most as many as there are parameters.
#[tactic(auto, unfolding(abc_file_types::specs::Methods::options, abc_file_types::specs::Canonical::counted_bytes))]
fn pass_options<S: Source>(
    alloc: Global,
    w: &mut Window,
    source: &mut S,
    sizes: &Sizes,
    params: u32,
    out: &mut Vec<u8>,
) -> Result<(), ReadError>
    ensures { PassesPart S.left S.faults (options sizes.now params) (counted_bytes option_bytes) nothing_told
        w.old source.old w.new source.new out.old.items out.new.items result }
{
    let count = read_option_count(w, source, params)?;
    put_u30(count, out)?;
    pass_times(&OptionCodec(*sizes), alloc, w, source, count, out)?;
    Ok(())
}

/// Passes the values where a flag asks for them, and nothing where it does not.
#[tactic(auto, unfolding(abc_file_types::specs::Part::when))]
pub fn pass_options_if<S: Source>(
    flag: bool,
    alloc: Global,
    w: &mut Window,
    source: &mut S,
    sizes: &Sizes,
    params: u32,
    out: &mut Vec<u8>,
) -> Result<(), ReadError>
    requires { w.old.kept ≡ None }
    ensures { PassesPart S.left S.faults (when flag [] (options sizes.now params))
        (λ xs. if flag then counted_bytes option_bytes xs else []) nothing_told w.old source.old w.new
        source.new out.old.items out.new.items result }
{
    if flag {
        pass_options(alloc, w, source, sizes, params, out)?;
    }
    Ok(())
}

/// The kind of a value where a flag asks for it.
#[tactic(auto, unfolding(abc_file_types::specs::Part::when))]
fn read_value_kind_if<S: Source>(
    flag: bool,
    w: &mut Window,
    source: &mut S,
) -> Result<ValueKind, ReadError>
    requires { w.old.kept ≡ None }
    ensures { ReadsPart S.left S.faults (when flag kinds.Undefined value_kind) w.old source.old w.new
        source.new result }
{
    if flag {
        read_value_kind(w, source)
    } else {
        Ok(ValueKind::Undefined)
    }
}

/// The value of a slot: an index, and a kind only where it is not 0. The index is tested once the kind is accepted.
#[tactic(auto, unfolding(abc_file_types::specs::Traits::slot_value))]
pub fn read_slot_value<S: Source>(
    w: &mut Window,
    source: &mut S,
    sizes: &Sizes,
) -> Result<Option<OptionValue>, ReadError>
    ensures { ReadsPart S.left S.faults (slot_value sizes.now) w.old source.old w.new source.new result }
{
    let place = w.place();
    let value = read_u30(w, source)?;
    let kind = read_value_kind_if(value != 0, w, source)?;
    if !sizes.has_value(value, kind) {
        return Err(ReadError::Refused {
            place,
            reason: Reason::Index,
        });
    }
    if value == 0 {
        return Ok(None);
    }
    Ok(Some(OptionValue { kind, value }))
}

pub fn put_slot_value(value: &Option<OptionValue>, out: &mut Vec<u8>) -> Result<(), NoMemory>
    ensures { Puts out.old.items out.new.items result (slot_value_bytes value.now) }
{
    match value {
        None => put_u30(0, out),
        Some(option) => put_option_value(option, out),
    }
}
