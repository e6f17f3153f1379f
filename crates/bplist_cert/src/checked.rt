//! A source together with a certificate that the check has accepted.

ghost use Rattle.std.specs.Prelude.{◌≡◌, slice_index, IsTrue};
ghost use Rattle.bplist_cert.specs.Prelude.{StandsAt, IsChecked, meaning_of};

use crate::certificate::Certificate;
use bplist_objects::{Frame, Framed, ObjectNo};
use bplist_octets::{ReadFault, SliceSource, Source};
use std::marker::Model;

/// A source, its frame, and a certificate that vouches for its objects. It is itself a source.
#[derive(Drop)]
pub struct Checked<S: Source> {
    source: S,
    frame: Frame,
    certificate: Certificate,
}

impl<S: Source> Model for Checked<S> {
    ghost use Rattle.bplist_cert.specs.CheckedFile.{CheckedFile, IsChecked};

    ghost Value = { CheckedFile };

    ghost view = { λ c. record { source = S.means c.source; frame = c.frame; certificate = c.certificate; asked = S.asked c.source } };

    ghost invariant = { λ c. IsChecked (record { source = S.means c.source; frame = c.frame; certificate = c.certificate; asked = S.asked c.source }) };
}

impl<S: Source> Source for Checked<S> {
    ghost means = { λ c. meaning_of c };

    ghost asked = { λ c. c.asked };

    fn len(&self) -> u64 {
        self.source.len()
    }

    // Inlined, so that a read costs no more than a read of the source.
    #[inline(always)]
    fn read_at(&mut self, at: u64, into: &mut [u8]) -> Result<(), ReadFault> {
        self.source.read_at(at, into)
    }
}

impl<S: Source> Framed for Checked<S> {
    fn frame(&self) -> Frame {
        Checked::frame(self)
    }
}

impl<S: Source> Checked<S> {
    /// Makes a `Checked` from a source, a frame and a certificate for which everything that a `Checked` promises is
    /// already known, from a check or from the linter. It is public for callers that keep frame and certificate and
    /// borrow the source again later.
    pub fn new(source: S, frame: Frame, certificate: Certificate) -> Checked<S>
        requires { IsChecked (record { source = S.means source; frame = frame; certificate = certificate; asked = S.asked source }) }
        ensures source { result.source ≡ S.means source }
        ensures frame { result.frame ≡ frame }
        ensures certificate { result.certificate ≡ certificate }
        ensures asked { result.asked ≡ S.asked source }
    {
        Checked {
            source,
            frame,
            certificate,
        }
    }

    /// Returns the frame of the file.
    pub fn frame(&self) -> Frame
        ensures frame { result ≡ self.now.frame }
        ensures checked { IsChecked self.now }
    {
        self.frame
    }

    /// Returns the height of object `n`: 0 if the certificate does not vouch for it, or the file has no such object.
    pub fn height(&self, n: ObjectNo) -> u32
        ensures { result ≡ slice_index self.now.certificate.heights n.0 }
    {
        match self.certificate.heights.get(n.0 as usize) {
            Some(height) => *height,
            None => 0,
        }
    }

    /// Returns the certificate.
    pub fn certificate(&self) -> &Certificate
        ensures { result.now ≡ self.now.certificate }
    {
        &self.certificate
    }

    /// Returns the source. A `CountingSource` has there the number of bytes that it was asked for.
    pub fn source(&self) -> &S
        ensures source { S.means result.now ≡ self.now.source }
        ensures asked { S.asked result.now ≡ self.now.asked }
    {
        &self.source
    }

    /// Gives the source and the certificate back.
    pub fn into_parts(self) -> (S, Certificate)
        ensures source { S.means result.0 ≡ self.source }
        ensures asked { S.asked result.0 ≡ self.asked }
        ensures certificate { result.1 ≡ self.certificate }
    {
        let Checked {
            source,
            frame: _,
            certificate,
        } = self;
        (source, certificate)
    }
}

impl<'a> Checked<SliceSource<'a>> {
    /// Returns the bytes of the file, from the slice itself and not from a copy. A slice is honest, and no read of it
    /// fails.
    pub fn octets(&self) -> &'a [u8]
        ensures octets { result.now ≡ self.now.source.octets }
        ensures place { StandsAt self.now.source 0 result }
        ensures honest { IsTrue self.now.source.honest }
        ensures failures { self.now.source.failures ≡ 0 }
        ensures asked { self.now.asked ≡ 0 }
    {
        self.source.borrow(0, self.source.len())
    }
}
