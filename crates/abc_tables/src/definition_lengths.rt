ghost use Rattle.std.specs.Prelude.{◌≡◌, ◌≤◌, ◌+◌, ◌-◌, ◌/◌, ◌^◌, length, min, if◌then◌else◌};
ghost use Rattle.std.specs.List.{sum_by};
ghost use Rattle.abc_tables.specs.Lengths.{class_len, counted_len, definitions_len, instance_len, metadata_len, method_len, option_len, protected_len, script_len, slot_value_len, trait_fields_len, trait_len};
ghost use Rattle.abc_file_types.specs.CodeBytes.{number_len};
ghost use Rattle.abc_file_types.specs.Methods.{has_flag as is_set};

use crate::lengths::{Measured, len_of_all, len_of_counted, len_of_number};
use abc_base::Table;
use abc_file_types::{
    Abc, ClassInfo, HAS_METADATA, HAS_OPTIONAL, HAS_PARAM_NAMES, Instance, Metadata, Method,
    OptionValue, Script, TraitBody, TraitInfo, count_len, has_flag,
};

impl Measured for OptionValue {
    ghost len = { option_len };

    fn canonical_len(&self) -> u64 {
        len_of_number(self.value) + 1
    }
}

/// The optional values, where a flag says that there are any.
fn len_of_options(method: &Method) -> u64
    ensures { result
        ≡ min (if is_set (method.now).flags 0x08 then counted_len option_len (method.now).options else 0)
        (2 ^ 64 - 1) }
{
    if has_flag(method.flags, HAS_OPTIONAL) {
        len_of_counted(&method.options)
    } else {
        0
    }
}

/// The names of the parameters, where a flag says that there are any.
fn len_of_param_names(method: &Method) -> u64
    ensures { result
        ≡ min (if is_set (method.now).flags 0x80 then sum_by number_len (method.now).param_names else 0)
        (2 ^ 64 - 1) }
{
    if has_flag(method.flags, HAS_PARAM_NAMES) {
        len_of_all(&method.param_names)
    } else {
        0
    }
}

impl Measured for Method {
    ghost len = { method_len };

    #[tactic(auto, unfolding(crate::specs::Lengths::method_len))]
    fn canonical_len(&self) -> u64 {
        let numbers = count_len(self.params.len()) + len_of_number(self.ret);
        let signature = numbers.saturating_add(len_of_all(&self.params));
        signature
            .saturating_add(len_of_number(self.name) + 1)
            .saturating_add(len_of_options(self))
            .saturating_add(len_of_param_names(self))
    }
}

impl Measured for Metadata {
    ghost len = { metadata_len };

    #[tactic(auto, unfolding(crate::specs::Lengths::metadata_len))]
    fn canonical_len(&self) -> u64 {
        let numbers = len_of_number(self.name) + count_len(self.items.len() / 2);
        numbers.saturating_add(len_of_all(&self.items))
    }
}

fn len_of_slot_value(value: &Option<OptionValue>) -> u64
    ensures is { result ≡ slot_value_len value.now }
    ensures bound { result ≤ 6 }
{
    match value {
        Some(option) => len_of_number(option.value) + 1,
        None => 1,
    }
}

fn len_of_trait_fields(body: &TraitBody) -> u64
    ensures is { result ≡ trait_fields_len body.now }
    ensures bound { result ≤ 16 }
{
    match body {
        TraitBody::Slot { id, ty, value, .. } => {
            len_of_number(*id) + len_of_number(*ty) + len_of_slot_value(value)
        }
        TraitBody::Method { disp, method } => len_of_number(*disp) + len_of_number(*method),
        TraitBody::Getter { disp, method } => len_of_number(*disp) + len_of_number(*method),
        TraitBody::Setter { disp, method } => len_of_number(*disp) + len_of_number(*method),
        TraitBody::Class { id, class } => len_of_number(*id) + len_of_number(*class),
        TraitBody::Function { id, method } => len_of_number(*id) + len_of_number(*method),
    }
}

/// The metadata, where an attribute says that there is any.
fn len_of_trait_metadata(info: &TraitInfo) -> u64
    ensures { result
        ≡ min (if is_set (info.now).attrs 4 then counted_len number_len (info.now).metadata else 0)
        (2 ^ 64 - 1) }
{
    if has_flag(info.attrs, HAS_METADATA) {
        len_of_counted(&info.metadata)
    } else {
        0
    }
}

impl Measured for TraitInfo {
    ghost len = { trait_len };

    #[tactic(auto, unfolding(crate::specs::Lengths::trait_len))]
    fn canonical_len(&self) -> u64 {
        let fields = len_of_number(self.name) + 1 + len_of_trait_fields(&self.body);
        fields.saturating_add(len_of_trait_metadata(self))
    }
}

fn len_of_protected(space: &Option<u32>) -> u64
    ensures is { result ≡ protected_len space.now }
    ensures bound { result ≤ 5 }
{
    match space {
        Some(index) => len_of_number(*index),
        None => 0,
    }
}

impl Measured for Instance {
    ghost len = { instance_len };

    #[tactic(auto, unfolding(crate::specs::Lengths::instance_len))]
    fn canonical_len(&self) -> u64 {
        let names = len_of_number(self.name) + len_of_number(self.super_name) + 1;
        (names + len_of_protected(&self.protected_ns))
            .saturating_add(len_of_counted(&self.interfaces))
            .saturating_add(len_of_number(self.iinit))
            .saturating_add(len_of_counted(&self.traits))
    }
}

impl Measured for ClassInfo {
    ghost len = { class_len };

    #[tactic(auto, unfolding(crate::specs::Lengths::class_len))]
    fn canonical_len(&self) -> u64 {
        len_of_number(self.cinit).saturating_add(len_of_counted(&self.traits))
    }
}

impl Measured for Script {
    ghost len = { script_len };

    #[tactic(auto, unfolding(crate::specs::Lengths::script_len))]
    fn canonical_len(&self) -> u64 {
        len_of_number(self.init).saturating_add(len_of_counted(&self.traits))
    }
}

/// The canonical bytes of all definitions.
#[tactic(auto, unfolding(crate::specs::Lengths::definitions_len), using(crate::proofs::Capped::both_capped))]
pub fn len_of_definitions(abc: &Abc) -> u64
    ensures { result ≡ min (definitions_len abc.now) (2 ^ 64 - 1) }
{
    len_of_counted(&abc.methods)
        .saturating_add(len_of_counted(&abc.metadata))
        .saturating_add(count_len(abc.classes.len()))
        .saturating_add(len_of_all(&abc.instances))
        .saturating_add(len_of_all(&abc.classes))
        .saturating_add(len_of_counted(&abc.scripts))
}
