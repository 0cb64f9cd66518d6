ghost use Rattle.std.specs.Prelude.{◌≡◌, ◌↔◌, ◌+◌, ◌-◌, ◌^◌, All, IsTrue, MatchOption, length, min};
ghost use Rattle.std.specs.List.{sum_by};
ghost use Rattle.abc_tables.specs.Fitting.{AreClasses, FitDefinitions, FitOptions, FitParamNames, FitTraits, FitsClass, FitsInstance, FitsMetadata, FitsMethod, FitsOption, FitsProtected, FitsScript, FitsSlotValue, FitsTrait, FitsTraitFields, FitsTraitMetadata};
ghost use Rattle.abc_tables.specs.Lengths.{class_len, definitions_len, instance_len};
ghost use Rattle.abc_file_types.specs.Classes.{sizes_of as all_sizes};
ghost use Rattle.abc_file_types.specs.CodeBytes.{number_len};

use crate::indices::{
    are_entry_indices, are_numbers, are_pool_indices, are_positions, is_count, is_entry_index,
    is_number, is_pool_index, is_position,
};
use crate::walks::{Fitting, len_of_each, len_of_list};
use abc_base::Table;
use abc_file_types::{
    Abc, ClassInfo, HAS_METADATA, HAS_OPTIONAL, HAS_PARAM_NAMES, HAS_PROTECTED, Instance, Metadata,
    Method, OptionValue, Script, Sizes, TraitBody, TraitInfo, count_len, has_flag,
};

/// The least attributes that no trait has.
const ATTRIBUTES_LIMIT: u8 = 16;

#[tactic(auto, using(crate::proofs::MethodsFit::option_fits))]
fn is_option(option: &OptionValue, sizes: &Sizes) -> bool
    ensures { IsTrue result ↔ FitsOption sizes.now option.now }
{
    is_number(option.value) && sizes.has_value(option.value, option.kind)
}

fn are_options(options: &[OptionValue], sizes: &Sizes) -> bool
    ensures { IsTrue result ↔ All (FitsOption sizes.now) options.now }
{
    options.iter().all(|option| is_option(option, sizes))
}

/// Whether some bytes spell the optional values, which a flag asks for, at most one for each parameter.
#[tactic(auto, using(crate::proofs::MethodsFit::options_asked, crate::proofs::MethodsFit::options_unasked))]
fn fit_options(method: &Method, sizes: &Sizes) -> bool
    ensures { IsTrue result ↔ FitOptions sizes.now method.now }
{
    let count = method.options.len();
    if has_flag(method.flags, HAS_OPTIONAL) {
        count <= method.params.len()
            && is_count(count)
            && are_options(method.options.as_slice(), sizes)
    } else {
        count == 0
    }
}

/// Whether some bytes spell the names of the parameters, which a flag asks for, one for each.
#[tactic(auto, using(crate::proofs::MethodsFit::names_asked, crate::proofs::MethodsFit::names_unasked))]
fn fit_param_names(method: &Method) -> bool
    ensures { IsTrue result ↔ FitParamNames method.now }
{
    let count = method.param_names.len();
    if has_flag(method.flags, HAS_PARAM_NAMES) {
        count == method.params.len() && are_numbers(method.param_names.as_slice())
    } else {
        count == 0
    }
}

impl Fitting for Method {
    ghost fits = { FitsMethod };

    #[tactic(auto, using(crate::proofs::MethodsFit::method_fits))]
    fn fits_in(&self, sizes: &Sizes) -> bool {
        is_count(self.params.len())
            && is_pool_index(self.ret, sizes.names)
            && are_pool_indices(self.params.as_slice(), sizes.names)
            && is_pool_index(self.name, sizes.strings)
            && fit_options(self, sizes)
            && fit_param_names(self)
    }
}

impl Fitting for Metadata {
    ghost fits = { FitsMetadata };

    #[tactic(auto, using(crate::proofs::MethodsFit::metadata_fits))]
    fn fits_in(&self, sizes: &Sizes) -> bool {
        let count = self.items.len();
        is_pool_index(self.name, sizes.strings)
            && count % 2 == 0
            && is_count(count / 2)
            && are_pool_indices(self.items.as_slice(), sizes.strings)
    }
}

#[tactic(auto, using(crate::proofs::MethodsFit::no_value_fits, crate::proofs::MethodsFit::value_fits))]
fn is_slot_value(value: &Option<OptionValue>, sizes: &Sizes) -> bool
    ensures { IsTrue result ↔ FitsSlotValue sizes.now value.now }
{
    match value {
        Some(option) => option.value != 0 && is_option(option, sizes),
        None => true,
    }
}

#[tactic(auto, using(crate::proofs::TraitsFit::fields_fit))]
fn are_trait_fields(body: &TraitBody, sizes: &Sizes) -> bool
    ensures { IsTrue result ↔ FitsTraitFields sizes.now body.now }
{
    match body {
        TraitBody::Slot { id, ty, value, .. } => {
            is_number(*id) && is_pool_index(*ty, sizes.names) && is_slot_value(value, sizes)
        }
        TraitBody::Method { disp, method } => {
            is_number(*disp) && is_position(*method, sizes.methods)
        }
        TraitBody::Getter { disp, method } => {
            is_number(*disp) && is_position(*method, sizes.methods)
        }
        TraitBody::Setter { disp, method } => {
            is_number(*disp) && is_position(*method, sizes.methods)
        }
        TraitBody::Class { id, class } => is_number(*id) && is_position(*class, sizes.classes),
        TraitBody::Function { id, method } => {
            is_number(*id) && is_position(*method, sizes.methods)
        }
    }
}

/// Whether some bytes spell the metadata of a trait, which an attribute asks for.
#[tactic(auto, using(crate::proofs::TraitsFit::metadata_asked, crate::proofs::TraitsFit::metadata_unasked))]
fn fits_trait_metadata(info: &TraitInfo, sizes: &Sizes) -> bool
    ensures { IsTrue result ↔ FitsTraitMetadata sizes.now info.now }
{
    let count = info.metadata.len();
    if has_flag(info.attrs, HAS_METADATA) {
        is_count(count) && are_positions(info.metadata.as_slice(), sizes.metadata)
    } else {
        count == 0
    }
}

#[tactic(auto, using(crate::proofs::TraitsFit::trait_fits))]
fn is_trait(info: &TraitInfo, sizes: &Sizes) -> bool
    ensures { IsTrue result ↔ FitsTrait sizes.now info.now }
{
    is_entry_index(info.name, sizes.names)
        && info.attrs < ATTRIBUTES_LIMIT
        && are_trait_fields(&info.body, sizes)
        && fits_trait_metadata(info, sizes)
}

/// Whether some bytes spell a count of traits, and the traits.
#[tactic(auto, using(crate::proofs::TraitsFit::traits_fit))]
pub fn are_traits(traits: &Table<TraitInfo>, sizes: &Sizes) -> bool
    ensures { IsTrue result ↔ FitTraits sizes.now traits.now }
{
    is_count(traits.len()) && traits.as_slice().iter().all(|info| is_trait(info, sizes))
}

/// Whether some bytes spell the protected namespace, which a flag asks for.
#[tactic(auto, using(crate::proofs::ClassesFit::protected_asked, crate::proofs::ClassesFit::protected_missing, crate::proofs::ClassesFit::protected_unasked))]
fn fits_protected(instance: &Instance, sizes: &Sizes) -> bool
    ensures { IsTrue result ↔ FitsProtected sizes.now instance.now }
{
    let asked = has_flag(instance.flags, HAS_PROTECTED);
    match instance.protected_ns {
        Some(space) => asked && is_pool_index(space, sizes.namespaces),
        None => !asked,
    }
}

impl Fitting for Instance {
    ghost fits = { FitsInstance };

    #[tactic(auto, using(crate::proofs::ClassesFit::instance_fits))]
    fn fits_in(&self, sizes: &Sizes) -> bool {
        is_entry_index(self.name, sizes.names)
            && is_pool_index(self.super_name, sizes.names)
            && fits_protected(self, sizes)
            && is_count(self.interfaces.len())
            && are_entry_indices(self.interfaces.as_slice(), sizes.names)
            && is_position(self.iinit, sizes.methods)
            && are_traits(&self.traits, sizes)
    }
}

impl Fitting for ClassInfo {
    ghost fits = { FitsClass };

    #[tactic(auto, using(crate::proofs::ClassesFit::class_fits))]
    fn fits_in(&self, sizes: &Sizes) -> bool {
        is_position(self.cinit, sizes.methods) && are_traits(&self.traits, sizes)
    }
}

impl Fitting for Script {
    ghost fits = { FitsScript };

    #[tactic(auto, using(crate::proofs::ClassesFit::script_fits))]
    fn fits_in(&self, sizes: &Sizes) -> bool {
        is_position(self.init, sizes.methods) && are_traits(&self.traits, sizes)
    }
}

/// How many canonical bytes the instances and classes have, if there are as many of both and some bytes spell each.
fn len_of_classes(abc: &Abc, sizes: &Sizes) -> Option<u64>
    ensures { MatchOption result (AreClasses sizes.now abc.now → ⊥) (λ n. AreClasses sizes.now abc.now
        × (n
        ≡ min (number_len (length (abc.now).classes) + sum_by instance_len (abc.now).instances +
        sum_by class_len (abc.now).classes) (2 ^ 64 - 1))) }
{
    let count = abc.classes.len();
    if !is_count(count) || abc.instances.len() != count {
        return None;
    }
    let instances = len_of_each(&abc.instances, sizes)?;
    let classes = len_of_each(&abc.classes, sizes)?;
    Some(
        count_len(count)
            .saturating_add(instances)
            .saturating_add(classes),
    )
}

/// How many canonical bytes the definitions have, if some bytes spell them. They are gone over once for both. It is 2^64 - 1
/// where that is greater.
#[tactic(auto, unfolding(crate::specs::Lengths::definitions_len), using(crate::proofs::DefinitionsFit::methods_fit, crate::proofs::DefinitionsFit::metadata_fits, crate::proofs::DefinitionsFit::classes_fit, crate::proofs::DefinitionsFit::scripts_fit, crate::proofs::DefinitionsFit::all_fit))]
pub fn len_of_fitting(abc: &Abc, sizes: &Sizes) -> Option<u64>
    requires { sizes.now ≡ all_sizes abc.now }
    ensures { MatchOption result (FitDefinitions abc.now → ⊥)
        (λ n. FitDefinitions abc.now × (n ≡ min (definitions_len abc.now) (2 ^ 64 - 1))) }
{
    let methods = len_of_list(&abc.methods, sizes)?;
    let metadata = len_of_list(&abc.metadata, sizes)?;
    let classes = len_of_classes(abc, sizes)?;
    let scripts = len_of_list(&abc.scripts, sizes)?;
    let first = methods.saturating_add(metadata);
    Some(first.saturating_add(classes).saturating_add(scripts))
}
