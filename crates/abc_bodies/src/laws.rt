ghost use Rattle.std.specs.Prelude.{All, List, ℕ};
ghost use Rattle.abc_file_types.specs.Canonical.{IsCanonical};
ghost use Rattle.abc_file_types.specs.Law.{Exact, IsDetermined};
ghost use Rattle.abc_file_types.specs.declared.tables.Abc.{Abc as AnyAbc};
ghost use Rattle.abc_file_types.specs.declared.tables.Sizes.{Sizes as AnySizes};
ghost use Rattle.abc_file_types.specs.Bodies.{bodies, bodies_alone, bodies_bytes, body, handler, IsReadyBody};

/// Beside any other tables, what reading an exception, a body or the bodies answers is what a front of the bytes spells,
/// or their first fault. Bytes begin with bodies in exactly one way, or are refused at exactly one place for one reason, and
/// never both. The canonical bytes spell what any spelling spells, but for the places of instructions as they were read,
/// and none is shorter. Bodies that some bytes spell can be put.
pub fn bodies_law()
    ensures handler { (sizes : AnySizes) (starts : List ℕ) → Exact (handler sizes starts) }
    ensures body { (sizes : AnySizes) (taken : List ℕ) → Exact (body sizes taken) }
    ensures exact { (abc : AnyAbc) → Exact (bodies abc) }
    ensures exact_alone { (abc : AnyAbc) → Exact (bodies_alone abc) }
    ensures determined { (abc : AnyAbc) → IsDetermined (bodies abc) }
    ensures canonical { (abc : AnyAbc) → IsCanonical (bodies_alone abc) bodies_bytes }
    ensures ready { (abc v : AnyAbc) (b : List ℕ) → (bodies_alone abc).spells v b → All IsReadyBody v.bodies }
{}
