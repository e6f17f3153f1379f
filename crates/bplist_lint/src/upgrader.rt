//! Makes a certificate of version 2 from a checked file.

ghost use Rattle.std.specs.Prelude.{◌≡◌, ◌+◌, ◌*◌, ◌≤◌, ◌<◌, ℕ, Bool, List, set, length, IsTrue, IfOk, vec_len};
ghost use Rattle.bplist_lint.specs.Prelude.{OnlyReads, frame_in, HonestlyIn, AreRanks, IsVouchedBy, IsValid};
ghost use Rattle.bplist_lint.specs.Prelude.{HasNamedKeys, Listed, IsUpgraded, RankKeys, Upgrades, upgrade_failed};
ghost use Rattle.bplist_lint.specs.Prelude.{IsMarked, Judges, Never, extent, extents_below, is_marked, refused_read};

use crate::answer::UpgradeFault;
use crate::key_rules::{KeySorting, unlisted};
use bplist_cert::{Certificate, Checked, KeyLists, Refusal, vouched_keys};
use bplist_keys::{KeyNumbers, ranks_of};
use bplist_objects::{Framed, Kind, Objects, Offsets, object_shape, offsets_of};
use bplist_octets::Source;
use std::alloc::Global;

/// Returns the start of the list, or 0 if the object is not a dictionary.
fn list_object<P: Offsets>(src: &mut P, n: u32, lists: &mut KeySorting) -> Result<u32, Refusal>
    requires within { n < (frame_in (P.means src.old)).objects }
    requires few { vec_len lists.old.positions ≤ 4294967295 }
    ensures reads { OnlyReads (refused_read result) (P.means src.old) (P.means src.new) }
    ensures asks { HonestlyIn (P.means src.old) (λ f F. P.asked src.new ≤ P.asked src.old + (36 + extent f F n)) }
    ensures same { lists.new.ranks.table.items ≡ lists.old.ranks.table.items }
    ensures few { IfOk result (λ _. vec_len lists.new.positions ≤ 4294967295) }
    ensures exact { HonestlyIn (P.means src.old) (λ f F. (named : List Bool) (heights starts : List ℕ)
        → AreRanks f F named lists.old.ranks.table.items → HasNamedKeys f F named n
        → IsValid f F heights → IsVouchedBy heights n → n < length starts
        → Listed f F heights n starts lists.old.positions.items
        → Judges (λ start. Listed f F heights (n + 1) (set starts n start) lists.new.positions.items) Never result) }
{
    let _frame = src.frame();
    let head = object_shape(src, n)?;
    match head.kind {
        Kind::Dict => {
            let start = lists.positions.len() as u32;
            if head.count > (u32::MAX - start) as u64 {
                return Err(Refusal::Fault(unlisted(n, &head)));
            }
            lists.list(src, n, &head)?;
            Ok(start)
        }
        _ => Ok(0),
    }
}

/// Returns a certificate of version 2 with these heights, and the key lists of the vouched dictionaries, one after the
/// other in the order of the objects, sorted by these ranks of their keys.
pub fn list_by_ranks<P: Offsets>(
    alloc: Global,
    src: &mut P,
    heights: Vec<u32>,
    ranks: KeyNumbers,
) -> Result<Certificate, Refusal>
    requires { length heights.items ≡ (frame_in (P.means src.old)).objects }
    ensures reads { OnlyReads (refused_read result) (P.means src.old) (P.means src.new) }
    ensures asks { HonestlyIn (P.means src.old) (λ f F. (marks : List Bool)
        → ((n : ℕ) → IsVouchedBy heights.items n → IsMarked marks n)
        → P.asked src.new ≤ P.asked src.old + (36 * F.objects + extents_below f F (is_marked marks) F.objects)) }
    ensures heights { IfOk result (λ certificate. certificate.heights ≡ heights.items) }
    ensures exact { HonestlyIn (P.means src.old) (λ f F. IsValid f F heights.items
        → RankKeys f F (IsVouchedBy heights.items) ranks.table.items
        → Judges (IsUpgraded f F heights.items) Never result) }
{
    let frame = src.frame();
    let mut starts = vec![in alloc; 0; frame.objects as usize]?;
    let mut lists = KeySorting::new(alloc, ranks);
    for n in 0..frame.objects {
        if heights[n as usize] > 0 {
            starts[n as usize] = list_object(src, n, &mut lists)?;
        }
    }
    let KeySorting { positions, .. } = lists;
    Ok(Certificate {
        heights,
        keys: Some(KeyLists { starts, positions }),
    })
}

fn list_vouched<P: Offsets>(
    alloc: Global,
    src: &mut P,
    heights: Vec<u32>,
) -> Result<Certificate, UpgradeFault>
    requires { length heights.items ≡ (frame_in (P.means src.old)).objects }
    ensures reads { OnlyReads (upgrade_failed result) (P.means src.old) (P.means src.new) }
    ensures heights { IfOk result (λ certificate. certificate.heights ≡ heights.items) }
    ensures exact { HonestlyIn (P.means src.old) (λ f F. IsValid f F heights.items
        → Upgrades (IsUpgraded f F heights.items) result) }
{
    let named = vouched_keys(alloc, src, &heights)?;
    let ranks = ranks_of(alloc, src, named)?;
    Ok(list_by_ranks(alloc, src, heights, ranks)?)
}

/// Returns a certificate of version 2 for a checked file: its heights, and the key lists of the vouched dictionaries,
/// one after the other in the order of the objects. The start of a list, even of an empty one, is the number of
/// positions before it. All other starts are 0. If the source is honest, `check` accepts the certificate.
///
/// Errors: `Read` if a read of the source failed; `Memory` if an allocation was refused; `Changed` if the source gives
/// other bytes than when it was checked, which an honest one never does. The checked file stays as it was, except for
/// what its source says of failed reads.
pub fn upgrade<S: Source>(
    alloc: Global,
    checked: &mut Checked<S>,
) -> Result<Certificate, UpgradeFault>
    ensures source { OnlyReads (upgrade_failed result) checked.old.source checked.new.source }
    ensures frame { checked.new.frame ≡ checked.old.frame }
    ensures certificate { checked.new.certificate ≡ checked.old.certificate }
    ensures heights { IfOk result (λ certificate. certificate.heights ≡ checked.old.certificate.heights) }
    ensures exact { IsTrue checked.old.source.honest → Upgrades (λ certificate.
        ∥ IsUpgraded checked.old.source.octets checked.old.frame checked.old.certificate.heights certificate ∥₁) result }
{
    let frame = checked.frame();
    let heights = checked.certificate().heights.to_vec(alloc)?;
    let mut places = offsets_of(alloc, checked, &frame)?;
    list_vouched(
        alloc,
        &mut Objects::new(checked, frame, &mut places),
        heights,
    )
}
