ghost use Rattle.std.specs.Prelude.{◌↔◌, ◌≡◌, IsTrue, Contains};
ghost use Rattle.abc_base.specs.Views.{one_more};

/// A count goes up by one, and stands still at its last value.
pub(crate) fn raised(count: u64) -> u64
    ensures { result ≡ one_more count }
{
    count.saturating_add(1)
}

/// Whether the call of this number is to fail.
pub(crate) fn is_failing(failing: &[u32], call: u64) -> bool
    ensures { IsTrue result ↔ Contains failing.now call }
{
    match u32::try_from(call) {
        Ok(number) => failing.contains(&number),
        Err(_) => false,
    }
}
