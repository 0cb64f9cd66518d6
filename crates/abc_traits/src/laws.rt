ghost use Rattle.abc_file_types.specs.Canonical.{IsCanonical};
ghost use Rattle.abc_file_types.specs.Law.{Exact, IsDetermined};
ghost use Rattle.abc_file_types.specs.declared.tables.Abc.{Abc as AnyAbc};
ghost use Rattle.abc_file_types.specs.declared.tables.Sizes.{Sizes as AnySizes};
ghost use Rattle.abc_file_types.specs.Classes.{class_info, definitions, definitions_bytes, instance, script};
ghost use Rattle.abc_file_types.specs.Methods.{metadata, method, option_value};
ghost use Rattle.abc_file_types.specs.Traits.{trait_info};

/// Beside any pools, what reading definitions answers is what a front of the bytes spells, or their first fault. Bytes
/// begin with definitions in exactly one way, or are refused at exactly one place for one reason, and never both. The
/// canonical bytes spell what any spelling spells, and none is shorter.
pub fn definitions_law()
    ensures exact { (abc : AnyAbc) → Exact (definitions abc) }
    ensures determined { (abc : AnyAbc) → IsDetermined (definitions abc) }
    ensures canonical { (abc : AnyAbc) → IsCanonical (definitions abc) definitions_bytes }
{}

/// What reading the parts of definitions stands on, over tables of any sizes: of each, what reading answers is what a
/// front of the bytes spells, or their first fault.
pub fn definition_parts_law()
    ensures option_value { (sizes : AnySizes) → Exact (option_value sizes) }
    ensures method { (sizes : AnySizes) → Exact (method sizes) }
    ensures metadata { (sizes : AnySizes) → Exact (metadata sizes) }
    ensures trait_info { (sizes : AnySizes) → Exact (trait_info sizes) }
    ensures instance { (sizes : AnySizes) → Exact (instance sizes) }
    ensures class_info { (sizes : AnySizes) → Exact (class_info sizes) }
    ensures script { (sizes : AnySizes) → Exact (script sizes) }
{}
