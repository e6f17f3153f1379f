//! Adds up the bytes that objects take together: rule 31.

ghost use Rattle.std.specs.Prelude.{◌≡◌, ℕ, ◌+◌, ◌-◌, ◌≤◌, ◌<◌, List, ◌∷◌, IfOk, MatchResult, Some};
ghost use Rattle.bplist_objects.specs.Prelude.{Overfull, TakeOctets, Takes};
ghost use Rattle.bplist_objects.specs.declared.frame.Frame.{Frame};

use crate::fault::Fault;
use crate::frame::ObjectNo;
use crate::rule::Rule;

/// The bytes that objects take together, each from its marker to its end. An object inside another one counts by
/// itself.
#[derive(Clone, Copy, Debug, PartialEq, Eq, Drop)]
pub struct Extents {
    /// The number of bytes.
    pub octets: u64,
}

impl Extents {
    /// Returns the extents of no objects.
    pub fn new() -> Extents
        ensures { result ≡ record { octets = 0 } }
    {
        Extents { octets: 0 }
    }

    /// Adds the bytes of object `n`, from `place` to `end`, in a file whose offset table begins at `table`. If the
    /// objects then take more bytes than there are between header and offset table, the object breaks rule 31, and this
    /// is the fault.
    #[inline(always)]
    pub fn with(self, table: u64, n: ObjectNo, place: u64, end: u64) -> Result<Extents, Fault>
        requires table { 8 ≤ table }
        requires extent { place ≤ «end» }
        ensures room { MatchResult result
            (λ now. (now.octets ≡ self.octets + («end» - place)) × (now.octets + 8 ≤ table))
            (λ fault. (fault.rule ≡ Overfull) × (fault.object ≡ Some n) × (fault.place ≡ place)
            × (table < self.octets + («end» - place) + 8)) }
        ensures sum { (f ns : List ℕ) (F : Frame) → TakeOctets f F ns self.octets → Takes f F n.0 («end» - place)
            → IfOk result (λ now. TakeOctets f F (n.0 ∷ ns) now.octets) }
    {
        let extent = end - place;
        let room = table - 8;
        if self.octets > room || extent > room - self.octets {
            return Err(Fault {
                rule: Rule::Overfull,
                object: Some(n),
                place,
            });
        }
        Ok(Extents {
            octets: self.octets + extent,
        })
    }
}
