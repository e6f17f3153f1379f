//! Entries of a table that may be too short.

ghost use Rattle.std.specs.Prelude.{◌≡◌, slice_index_or};

/// Returns entry `n` of the table, counted from 0, or `none` if the table has no such entry.
///
/// Each index needs a proof that it is in bounds. This call needs none.
pub fn entry_or<T: Copy>(table: &[T], n: u64, none: T) -> T
    ensures { result ≡ slice_index_or table.now n none }
{
    table.get(n as usize).copied().unwrap_or(none)
}
