ghost use Rattle.abc_meaning.specs.TypeLaws.{ComputesCoercion, DecidesTypes};

/// The test of types is true of just the values that are of the type.
pub fn type_test_decides()
    ensures { DecidesTypes }
{}

/// What coercion answers and leaves is what is computed of it.
pub fn coercion_is_computed()
    ensures { ComputesCoercion }
{}
