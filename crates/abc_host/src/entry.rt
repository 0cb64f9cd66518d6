ghost use Rattle.std.specs.Prelude.{◌≡◌, ◌↔◌, IsTrue, ℤ, length};
ghost use Rattle.std.specs.declared.option.Option.{Option};
ghost use Rattle.abc_base.specs.Hosts.{answer_of};
ghost use Rattle.abc_base.specs.declared.plain.Plain.{Plain};

use abc_base::{Formula, Plain};

/// A closure over the arguments of a call.
type Run = Box<dyn Fn(Plain) -> Option<i64>>;

/// A closure, kept with the formula that it computes.
#[derive(Drop)]
pub struct Entry {
    pub(crate) formula: Formula,
    pub(crate) run: Run,
    ghost callable: { (args : Plain) → args.count ≡ length formula.factors → Run.pre run args },
    ghost computes: { (args : Plain) (answer : Option ℤ) → args.count ≡ length formula.factors → Run.post run args answer → answer ≡ answer_of formula args },
}

impl Entry {
    ghost use Rattle.abc_host.specs.Tables.{formula_of};

    /// The entry of a closure that computes the formula: it may be called on as many arguments as the formula has
    /// factors, and answers the formula's value, or `None` exactly where that is outside -2147483648 to 4294967295. It
    /// takes no memory.
    pub fn new(formula: Formula, run: Box<dyn Fn(Plain) -> Option<i64>>) -> Entry
        requires callable { (args : Plain) → args.count ≡ length formula.factors → pre run args }
        requires computes { (args : Plain) (answer : Option ℤ) → args.count ≡ length formula.factors
            → post run args answer → answer ≡ answer_of formula args }
        ensures { formula_of result ≡ formula }
    {
        Entry { formula, run }
    }

    /// The formula that the closure computes, by which an entry that was refused is told from others.
    pub fn formula(&self) -> &Formula
        ensures { result.now ≡ formula_of self.now }
    {
        &self.formula
    }

    /// Whether the formula has this name.
    pub(crate) fn is_named(&self, name: &[u8]) -> bool
        ensures { IsTrue result ↔ ((formula_of self.now).name ≡ name.now) }
    {
        self.formula.name.as_slice() == name
    }

    /// Calls the closure on a copy of the arguments.
    pub(crate) fn call(&self, args: &Plain) -> Option<i64>
        requires { args.now.count ≡ length (formula_of self.now).factors }
        ensures { result ≡ answer_of (formula_of self.now) args.now }
    {
        (self.run)(*args)
    }
}
