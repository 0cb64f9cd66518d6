ghost use Rattle.std.specs.Prelude.{◌≡◌, IfOk};
ghost use Rattle.abc_base.specs.Ranges.{IsNumber};
ghost use Rattle.abc_heap_values.specs.Plain.{in_range};

use abc_base::Fault;

/// A result that is a number from -2147483648 to 4294967295; else it is the fault Range.
pub fn within(n: i64) -> Result<i64, Fault>
    ensures value { result ≡ in_range n }
    ensures number { IfOk result IsNumber }
{
    if n < -2147483648 || n > 4294967295 {
        return Err(Fault::Range);
    }
    Ok(n)
}
