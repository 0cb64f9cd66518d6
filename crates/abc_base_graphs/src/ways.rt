ghost use Rattle.std.specs.Prelude.{◌≡◌, ℕ, List};
ghost use Rattle.std.specs.declared.option.Option.{Option as Link};
ghost use Rattle.abc_base_graphs.specs.Ways.{IsFalling, IsWay, way};

/// Along links that lead to lower places there is one way from each place, and no other list is one.
pub fn one_way()
    ensures is_way { (next : ℕ → Link ℕ) → IsFalling next → (at : Link ℕ) → IsWay next at (way next at) }
    ensures no_other { (next : ℕ → Link ℕ) → IsFalling next → (at : Link ℕ) → (xs : List ℕ) → IsWay next at xs
        → xs ≡ way next at }
{}
