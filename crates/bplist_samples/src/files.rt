//! Bytes of files.

use std::alloc::{AllocError, Global};

/// The objects and the table of a file with offsets and references of one byte.
pub type Parts = (&'static [u8], &'static [u8]);

/// The value true.
pub const SMALLEST_FILE: Parts = (&[9], &[8]);

/// An array with the same true twice.
pub const TWO_TRUES: Parts = (&[0xa2, 1, 1, 9], &[8, 11]);

/// A dictionary with the keys `a/b`, the empty text and `s`, an array, false, a set, and true.
pub const THREE_KEYS: Parts = (
    &[
        0xd3, 1, 2, 3, 4, 5, 6, 0x53, 0x61, 0x2f, 0x62, 0x50, 0x51, 0x73, 0xa1, 7, 8, 0xc1, 7, 9,
    ],
    &[8, 15, 19, 20, 22, 24, 25, 27],
);

/// A dictionary with the key `a` and the value 1.
pub const A_TO_ONE: Parts = (&[0xd1, 1, 2, 0x51, 0x61, 0x10, 1], &[8, 11, 13]);

/// A dictionary with the key `a` and the value `b c`.
pub const PRINTABLE_DICT: Parts = (
    &[0xd1, 1, 2, 0x51, 0x61, 0x53, 0x62, 0x20, 0x63],
    &[8, 11, 13],
);

/// A dictionary with the key `a` and the value 5.
pub const UNPRINTABLE_DICT: Parts = (&[0xd1, 1, 2, 0x51, 0x61, 0x10, 5], &[8, 11, 13]);

/// Adds the table, with offsets and references of this size, and the trailer, with object 0 as the top.
pub(crate) fn close(
    file: &mut Vec<u8>,
    table: &[u8],
    size: u8,
    objects: u64,
) -> Result<(), AllocError> {
    let place = file.len() as u64;
    file.extend_from_slice(table)?;
    file.extend_from_slice(&[0, 0, 0, 0, 0, 0, size, size])?;
    file.extend_from_slice(&objects.to_be_bytes())?;
    file.extend_from_slice(&[0; 8])?;
    file.extend_from_slice(&place.to_be_bytes())
}

/// Makes the file of these objects and this table, with offsets and references of one byte.
pub fn small(alloc: Global, objects: &[u8], table: &[u8]) -> Result<Vec<u8>, AllocError> {
    let mut file = Vec::from_slice(alloc, b"bplist00")?;
    file.extend_from_slice(objects)?;
    close(&mut file, table, 1, table.len() as u64)?;
    Ok(file)
}

/// Makes a file of 64 arrays, each with the next object as its member twice; the last one has this leaf.
pub fn doubling(alloc: Global, leaf: &[u8]) -> Result<Vec<u8>, AllocError> {
    let mut objects = Vec::new(alloc);
    let mut table = Vec::new(alloc);
    for next in 1..65u8 {
        objects.extend_from_slice(&[0xa2, next, next])?;
        table.push(3 * next + 5)?;
    }
    objects.extend_from_slice(leaf)?;
    table.push(200)?;
    small(alloc, &objects, &table)
}

/// Makes a dictionary with the keys `0000` to `0999` and one true, with offsets and references of two bytes.
pub(crate) fn keys_by_number(alloc: Global) -> Result<Vec<u8>, AllocError> {
    let mut file = Vec::from_slice(alloc, b"bplist00\xdf\x11\x03\xe8")?;
    for key in 1..1001u16 {
        file.extend_from_slice(&key.to_be_bytes())?;
    }
    for _ in 0..1000 {
        file.extend_from_slice(&1001u16.to_be_bytes())?;
    }
    let mut table = Vec::from_slice(alloc, &8u16.to_be_bytes())?;
    for key in 0..1000u16 {
        table.extend_from_slice(&(4012 + 5 * key).to_be_bytes())?;
        file.extend_from_slice(format!(in alloc; "T{key:04}")?.as_bytes())?;
    }
    table.extend_from_slice(&9012u16.to_be_bytes())?;
    file.push(9)?;
    close(&mut file, &table, 2, 1002)?;
    Ok(file)
}
