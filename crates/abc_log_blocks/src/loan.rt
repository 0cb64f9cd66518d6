ghost use Rattle.std.specs.Prelude.{List, ℕ};
ghost use Rattle.std.specs.declared.option.Option.{Option};

use std::marker::Brand;

/// What tells the loan of a source from others, which only proofs read: a type that names it holds the source that was lent.
pub trait SourceLoan {
    ghost name: { ℕ };
}

impl SourceLoan for Brand {
    ghost name = { 0 };
}

/// What tells the loan of a sink from others, and the bytes that the sink had then, which only proofs read: a type that names it holds
/// the sink that was lent.
pub trait SinkLoan {
    ghost name: { ℕ };

    ghost before: { Option (List ℕ) };
}

impl SinkLoan for Brand {
    ghost use Rattle.std.specs.Prelude.{None};

    ghost name = { 0 };

    ghost before = { None };
}
