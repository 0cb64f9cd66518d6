ghost use Rattle.std.specs.Prelude.{◌≡◌, ◌<◌, List, length, slice_get, Some};
ghost use Rattle.abc_heap_values.specs.declared.values.Value.{Value};

use abc_heap_values::Value;

/// The values with which an object's slots start.
pub trait Starts {
    /// The values, in the order of the slots.
    ghost values: { Self → List Value };

    /// How many slots there are.
    fn count(&self) -> u32
        ensures { result ≡ length (values self.now) };

    /// The value of a slot.
    fn start(&self, k: u32) -> Value
        requires { k < length (values self.now) }
        ensures { slice_get (values self.now) k ≡ Some result };
}
