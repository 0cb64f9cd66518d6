/// Gives back the memory that a value holds. It is proved once for every type: where a large value goes out of scope in a function that
/// knows its type, the proof of that function takes minutes.
pub fn release<T: Drop>(_value: T) {}
