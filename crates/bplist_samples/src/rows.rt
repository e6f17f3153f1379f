//! Files with certificates.

use crate::files::{
    A_TO_ONE, PRINTABLE_DICT, Parts, THREE_KEYS, TWO_TRUES, UNPRINTABLE_DICT, doubling,
    keys_by_number, small,
};
use bplist_cert::{CertRefusal, Certificate, Checked, check};
use bplist_lint::{lint, upgrade};
use bplist_octets::{SliceSource, Source};
use std::alloc::Global;
use std::test::Fail;

/// A file with its name and the bytes of a certificate.
#[derive(Drop)]
pub struct Row {
    pub name: &'static str,
    pub octets: Vec<u8>,
    pub certificate: Vec<u8>,
}

impl Row {
    /// Makes a file with the certificate that `lint` gives it.
    pub fn new(alloc: Global, name: &'static str, octets: Vec<u8>) -> Result<Row, Fail> {
        let lint = lint(alloc, &mut SliceSource::new(&octets)).map_err(|_| Fail::new(name))?;
        let certificate = lint.certificate.to_octets(alloc)?;
        Ok(Row {
            name,
            octets,
            certificate,
        })
    }

    /// Makes a small file with the certificate that `lint` gives it.
    pub fn small(alloc: Global, name: &'static str, (objects, table): Parts) -> Result<Row, Fail> {
        Row::new(alloc, name, small(alloc, objects, table)?)
    }

    /// Returns the same file with its certificate of version 2.
    pub fn sorted(self, alloc: Global) -> Result<Row, Fail> {
        let certificate = self.sorted_certificate(alloc)?;
        Ok(Row {
            name: self.name,
            octets: self.octets,
            certificate,
        })
    }

    fn sorted_certificate(&self, alloc: Global) -> Result<Vec<u8>, Fail> {
        let mut checked = self.checked(alloc, SliceSource::new(&self.octets))?;
        let certificate = upgrade(alloc, &mut checked)?;
        Ok(certificate.to_octets(alloc)?)
    }

    /// Returns the certificate of the row.
    pub fn certificate(&self, alloc: Global) -> Result<Certificate, CertRefusal> {
        Certificate::from_octets(alloc, &self.certificate)
    }

    /// Checks a source of the row's bytes with the row's certificate.
    pub fn checked<S: Source + Drop>(&self, alloc: Global, source: S) -> Result<Checked<S>, Fail> {
        match check(alloc, source, self.certificate(alloc)?) {
            Ok(checked) => Ok(checked),
            Err(_) => Err(Fail::new(self.name)),
        }
    }
}

/// Names, and the leaves of files that double.
const DOUBLING: &[(&str, &[u8])] = &[("doubling-64", b"\x09"), ("doubling-64-text", b"\x51a")];

/// Names, and small files.
const SMALL: &[(&str, Parts)] = &[
    ("two-trues", TWO_TRUES),
    ("three-keys", THREE_KEYS),
    ("printable-dict", PRINTABLE_DICT),
    ("unprintable-dict", UNPRINTABLE_DICT),
    ("a-to-one", A_TO_ONE),
];

/// Returns the files on which reads fail and bytes are changed.
pub fn tested_rows(alloc: Global) -> Result<Vec<Row>, Fail> {
    let mut rows = Vec::new(alloc);
    for (name, leaf) in DOUBLING {
        rows.push(Row::new(alloc, name, doubling(alloc, leaf)?)?)?;
    }
    for (name, parts) in SMALL {
        rows.push(Row::small(alloc, name, *parts)?)?;
    }
    Ok(rows)
}

/// Returns a dictionary with the keys `0000` to `0999`.
pub fn thousand_keys(alloc: Global) -> Result<Row, Fail> {
    Row::new(alloc, "thousand-keys", keys_by_number(alloc)?)
}
