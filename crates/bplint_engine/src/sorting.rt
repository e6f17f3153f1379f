//! Whether to sort the keys of a checked file before many paths are followed.
//!
//! Without key lists a step compares the keys of its dictionary in turn. With them the search halves, but first the
//! keys of all dictionaries have to be sorted, also those that no path leads through.

ghost use Rattle.std.specs.Prelude.{◌≡◌, IfErr, IsTrue, MatchResult, ⊤};
ghost use Rattle.bplint_engine.specs.Prelude.{GivesCursor, OnlyReads, OnlyReadsFile, cursor_read, read_fault_of};
ghost use Rattle.bplint_lines.specs.Faults.{IsExcused};

use bplint_lines::RunFault;
use bplist_cert::Checked;
use bplist_cursor::{CursorFault, Query, locate_counted};
use bplist_lint::upgrade;
use bplist_octets::Source;
use std::alloc::Global;

/// Fewer paths than these compare fewer keys than sorting pays for.
pub(crate) const MANY: usize = 8;

/// So many comparisons for each object of a file take about as long as sorting its keys.
const COMPARISONS: u64 = 2;

/// Returns a checked file with a certificate that suits these queries: with key lists if it pays to make them.
pub(crate) fn suited_to<S: Source>(
    alloc: Global,
    checked: Checked<S>,
    queries: &[Query],
) -> Result<Checked<S>, (RunFault, S)>
    ensures handed { MatchResult result
        (λ suited. (suited.source ≡ checked.source) × (suited.frame ≡ checked.frame))
        (λ refused. OnlyReads (read_fault_of refused.0) checked.source (S.means refused.1)) }
    ensures excused { IsTrue checked.source.honest → IfErr result (λ refused. IsExcused refused.0) }
{
    if queries.len() < MANY || checked.certificate().keys.is_some() {
        return Ok(checked);
    }
    let mut checked = checked;
    match pays_to_sort(&mut checked, queries) {
        Ok(true) => with_key_lists(alloc, checked),
        Ok(false) => Ok(checked),
        Err(fault) => Err((RunFault::from(fault), checked.into_parts().0)),
    }
}

/// True if following these queries' paths compares so many keys that sorting all keys takes less time.
///
/// Follows the paths one after the other, and stops as soon as they took as long as sorting does. So the answer never
/// takes longer than the cheaper of the two ways, and the whole never more than about twice as long.
fn pays_to_sort<S: Source>(checked: &mut Checked<S>, queries: &[Query]) -> Result<bool, CursorFault>
    ensures reads { OnlyReadsFile (cursor_read result) checked.old checked.new }
    ensures unchanged { IsTrue checked.old.source.honest → GivesCursor (λ _. ⊤) result }
{
    let mut left = checked.frame().objects as u64 * COMPARISONS;
    for query in queries {
        let made = comparisons_of(checked, query)?;
        if made > left {
            return Ok(true);
        }
        left -= made;
    }
    Ok(false)
}

/// Counts the keys that are compared to follow the path of a query for a face.
fn comparisons_of<S: Source>(checked: &mut Checked<S>, query: &Query) -> Result<u64, CursorFault>
    ensures reads { OnlyReadsFile (cursor_read result) checked.old checked.new }
    ensures unchanged { IsTrue checked.old.source.honest → GivesCursor (λ _. ⊤) result }
{
    match query {
        Query::Get(path) => {
            let (_found, made) = locate_counted(checked, path)?;
            Ok(made)
        }
        _ => Ok(0),
    }
}

/// By key lists a key is found by halving.
fn with_key_lists<S: Source>(
    alloc: Global,
    checked: Checked<S>,
) -> Result<Checked<S>, (RunFault, S)>
    ensures handed { MatchResult result
        (λ listed. (listed.source ≡ checked.source) × (listed.frame ≡ checked.frame))
        (λ refused. OnlyReads (read_fault_of refused.0) checked.source (S.means refused.1)) }
    ensures excused { IsTrue checked.source.honest → IfErr result (λ refused. IsExcused refused.0) }
{
    let mut checked = checked;
    let frame = checked.frame();
    let made = upgrade(alloc, &mut checked);
    let (src, _) = checked.into_parts();
    match made {
        Ok(certificate) => Ok(Checked::new(src, frame, certificate)),
        Err(fault) => Err((RunFault::from(fault), src)),
    }
}
