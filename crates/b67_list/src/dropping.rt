/// Drops a value.
///
/// It is a call, so that the proof of a function that lets a value go does not go through all forms that the value may have: where a
/// large enum is held across a call that may fail, a `match` that discards it stands in place of `?`.
pub fn discard<T: Drop>(_value: T) {}
