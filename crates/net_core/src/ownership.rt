/// Lets a value go. It takes what the value's own drop takes.
///
/// A proof of a function that ends in several places looks into each value that it owns there, field by field; after this call it owns none.
pub fn discard<T: Drop>(_value: T) {}
