ghost use Rattle.std.specs.Prelude.{ℕ};
ghost use Rattle.abc_file_types.specs.Law.{Exact};
ghost use Rattle.abc_file_types.specs.Pools.{double, multiname, multinames, namespace, namespace_set, pools};

/// What reading pools stands on: of each part, what reading answers is what a front of the bytes spells, or their first
/// fault.
pub fn pools_law()
    ensures double { Exact double }
    ensures namespace { (strings : ℕ) → Exact (namespace strings) }
    ensures namespace_set { (spaces : ℕ) → Exact (namespace_set spaces) }
    ensures multiname { (strings spaces sets names : ℕ) → Exact (multiname strings spaces sets names) }
    ensures multinames { (strings spaces sets : ℕ) → Exact (multinames strings spaces sets) }
    ensures pools { Exact pools }
{}
