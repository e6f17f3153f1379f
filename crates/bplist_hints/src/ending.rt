//! The numbers of 32 bytes that may be a trailer.

ghost use Rattle.std.specs.Prelude.{◌≡◌, ◌+◌, ◌≤◌, ◌<◌, ◌^◌, length, IfSome};

use bplist_octets::sized;

/// The length of a trailer in bytes.
pub(crate) const TRAILER: usize = 32;

/// The numbers of 32 bytes that may be a trailer.
#[derive(Clone, Copy, Drop)]
pub(crate) struct Ending {
    offset_size: u8,
    ref_size: u8,
    objects: u64,
    top: u64,
    table: u64,
    has_zeros: bool,
}

impl Ending {
    pub(crate) fn of(octets: &[u8]) -> Ending
        requires { length octets.now ≡ 32 }
    {
        Ending {
            offset_size: octets[6],
            ref_size: octets[7],
            objects: sized(&octets[8..16]),
            top: sized(&octets[16..24]),
            table: sized(&octets[24..32]),
            has_zeros: octets[..5].iter().all(|octet| *octet == 0),
        }
    }

    /// True if each number is one that a trailer may have.
    pub(crate) fn has_numbers(&self) -> bool {
        self.offset_size >= 1
            && self.offset_size <= 8
            && self.ref_size >= 1
            && self.ref_size <= 8
            && self.top < self.objects
            && self.table >= 9
    }

    /// True if the bytes look like a trailer, maybe with a wrong number: the highest three bytes of each number of
    /// eight are zero, as in each file below a terabyte; and the first five are zero, as nearly every writer leaves
    /// them, or each number is one that a trailer may have.
    pub(crate) fn has_form(&self) -> bool {
        let limit = 1 << 40;
        let has_low_numbers = self.objects < limit && self.top < limit && self.table < limit;
        has_low_numbers && (self.has_zeros || self.has_numbers())
    }

    pub(crate) fn table_bytes(&self) -> u128
        ensures { result < 2 ^ 72 }
    {
        u128::from(self.objects) * u128::from(self.offset_size)
    }

    pub(crate) fn table_end(&self) -> u128
        ensures { result < 2 ^ 73 }
    {
        u128::from(self.table) + self.table_bytes()
    }

    /// Returns the number of bytes between the place of the table and the trailer of a file of this length.
    pub(crate) fn room(&self, length: u64) -> u64 {
        length
            .saturating_sub(TRAILER as u64)
            .saturating_sub(self.table)
    }
}

/// Returns the place of the last trailer. The offset table of a trailer ends where the trailer begins.
pub(crate) fn trailer_in(block: &[u8], start: u64) -> Option<u64>
    requires { start + length block.now < 2 ^ 64 }
    ensures { IfSome result (λ place. (start ≤ place) × (place + 32 ≤ start + length block.now)) }
{
    for k in (TRAILER..block.len() + 1).rev() {
        let place = start + (k - TRAILER) as u64;
        let ending = Ending::of(&block[k - TRAILER..k]);
        if ending.has_numbers() && ending.table_end() == u128::from(place) {
            return Some(place);
        }
    }
    None
}
