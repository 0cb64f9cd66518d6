ghost use Rattle.abc_heap_store.specs.Walks.{MeetsEachPosition};

/// A walk over an object that doesn't change meets each filled position once, in rising order, and then none.
pub fn walk_meets_each_position()
    ensures { MeetsEachPosition }
{}
