//! What windows and pages give, and what they ask of their source.

ghost use Rattle.bplist_octets.specs.Meaning.{borrowed};

use crate::octets::{Read, all_answer, answers};
use bplist_octets::{CountingSource, FaultySource, Pages, ReadFault, SliceSource, Source, Window};
use std::alloc::{AllocError, Global};
use std::process::Abort;
use std::test::Fail;

/// Bytes from which their place can be told.
fn numbered() -> [u8; 70_000] {
    let mut bytes = [0; 70_000];
    for (i, byte) in bytes.iter_mut().enumerate() {
        *byte = (i % 251) as u8;
    }
    bytes
}

/// The number of a read that no window makes, so that none fails.
const NONE: u64 = 100;

/// Which read of the source fails, counted from 0, and the reads of a window.
const WINDOW: &[(u64, &[Read])] = &[
    (
        NONE,
        &[
            (0, 1, Ok(())),
            (4_095, 2, Ok(())),
            (69_999, 1, Ok(())),
            (0, 3, Ok(())),
            (5_000, 4_096, Ok(())),
            (5_000, 4_097, Ok(())),
            (69_998, 2, Ok(())),
            (70_000, 0, Ok(())),
        ],
    ),
    (
        1,
        &[
            (0, 2, Ok(())),
            (4_999, 2, Err(ReadFault::Device)),
            (1, 2, Ok(())),
        ],
    ),
    (
        1,
        &[
            (0, 2, Ok(())),
            (4_999, 5_000, Err(ReadFault::Device)),
            (1, 2, Ok(())),
        ],
    ),
    // It asks only for what it lacks.
    (
        1,
        &[
            (0, 100, Ok(())),
            (5, 100, Ok(())),
            (3_996, 100, Ok(())),
            (1, 100, Ok(())),
            (2_000, 100, Ok(())),
            (0, 100, Ok(())),
        ],
    ),
];

#[test]
fn one_window(rt: HostRuntime) {
    let bytes = numbered();
    for (fails, reads) in WINDOW {
        let mut window = Window::new(FaultySource::new(&bytes, *fails));
        all_answer(&rt, &mut window, &bytes, reads);
    }
}

/// Which read of the source fails, and the reads of pages.
const PAGES: &[(u64, &[Read])] = &[
    (
        NONE,
        &[
            (0, 1, Ok(())),
            (8_191, 1, Ok(())),
            (8_191, 2, Ok(())),
            (8_192, 8_192, Ok(())),
            (12_288, 8_192, Ok(())),
            (33_000, 8_192, Ok(())),
            (232, 3, Ok(())),
            (33_000, 8_193, Ok(())),
            (69_999, 1, Ok(())),
            (61_000, 9_000, Ok(())),
            (70_000, 0, Ok(())),
        ],
    ),
    // A page is empty after a failed read, and the others stay.
    (
        1,
        &[
            (1, 2, Ok(())),
            (32_769, 2, Err(ReadFault::Device)),
            (1, 2, Ok(())),
            (32_769, 2, Ok(())),
        ],
    ),
    // The second part of a request over two pages fails.
    (
        1,
        &[
            (16_380, 2, Ok(())),
            (16_380, 8, Err(ReadFault::Device)),
            (16_380, 4, Ok(())),
            (16_380, 8, Ok(())),
        ],
    ),
];

#[test]
fn pages(rt: HostRuntime) -> Result<(), Fail> {
    let bytes = numbered();
    for (fails, reads) in PAGES {
        let mut pages = Pages::new(rt.alloc(), FaultySource::new(&bytes, *fails))?;
        all_answer(&rt, &mut pages, &bytes, reads);
    }
    Ok(())
}

/// Reads 4,096 bytes, and then each of the five pages. The seventh read of the source would fail.
#[test]
fn forward_in_whole_pages(rt: HostRuntime) -> Result<(), Fail> {
    let bytes = numbered();
    let mut pages = Pages::new(rt.alloc(), FaultySource::new(&bytes, 6))?;
    for k in 0..700 {
        answers(&rt, &mut pages, &bytes, (k * 100, 100, Ok(())));
    }
    Ok(())
}

/// The same backward: reads the last 368 bytes, and then each page.
#[test]
fn backward_in_whole_pages(rt: HostRuntime) -> Result<(), Fail> {
    let bytes = numbered();
    let mut pages = Pages::new(rt.alloc(), FaultySource::new(&bytes, 6))?;
    for k in 1..701 {
        answers(&rt, &mut pages, &bytes, (70_000 - k * 100, 100, Ok(())));
    }
    Ok(())
}

/// A source that is read through a borrow, so that its counts are there afterwards.
#[derive(Drop)]
struct Borrowed<'a, S: Source> {
    source: &'a mut S,
}

impl<S: Source> Source for Borrowed<'_, S> {
    ghost means = { λ b. borrowed b.source.ghost_name (S.means b.source.now) };

    ghost asked = { λ b. S.asked b.source.now };

    fn len(&self) -> u64 {
        self.source.len()
    }

    fn read_at(&mut self, at: u64, into: &mut [u8]) -> Result<(), ReadFault> {
        self.source.read_at(at, into)
    }
}

/// The length of a source of 60 pages.
const LENGTH: usize = 983_040;

/// The places at which a test reads: how many, and how one follows from the one before.
#[derive(Drop)]
struct Places {
    count: usize,
    factor: u64,
    step: u64,
}

/// Reads four bytes at each of these places, through pages of a source that has these bytes.
fn read_at_places<S: Source>(
    rt: &impl Abort,
    alloc: Global,
    source: S,
    bytes: &[u8],
    places: &Places,
) -> Result<(), AllocError>
where
    S: Drop,
{
    let mut pages = Pages::new(alloc, source)?;
    let mut state = 0u64;
    for _ in 0..places.count {
        let at = (state >> 32) % (LENGTH as u64 - 4);
        answers(rt, &mut pages, bytes, (at, 4, Ok(())));
        state = state.wrapping_mul(places.factor).wrapping_add(places.step);
    }
    Ok(())
}

/// The same over bytes in memory. Returns how many bytes the source is asked for, and with how many reads.
fn asked_by(rt: &impl Abort, alloc: Global, places: &Places) -> Result<(u64, u64), AllocError> {
    let bytes = vec![in alloc; 7u8; LENGTH]?;
    let mut counting = CountingSource::new(SliceSource::new(&bytes));
    let borrowed = Borrowed {
        source: &mut counting,
    };
    read_at_places(rt, alloc, borrowed, &bytes, places)?;
    Ok((counting.asked, counting.reads))
}

/// Each page is read twice: the block of the first jump, and then all of it. Few are read over.
#[test]
fn in_no_order(rt: HostRuntime) -> Result<(), Fail> {
    let places = Places {
        count: 2000,
        factor: 6_364_136_223_846_793_005,
        step: 1_442_695_040_888_963_407,
    };
    let (asked, reads) = asked_by(&rt, rt.alloc(), &places)?;
    assert!(rt;
        asked <= 1_500_000 && reads <= 200,
        "{asked} bytes, {reads} reads"
    );
    Ok(())
}

/// No reader makes the source be read again and again. This one always comes to a page beside one that it used lately.
#[test]
fn in_a_bad_order(rt: HostRuntime) -> Result<(), Fail> {
    let places = Places {
        count: 2000,
        factor: 1,
        step: 650_011 << 32,
    };
    let (asked, reads) = asked_by(&rt, rt.alloc(), &places)?;
    assert!(rt;
        asked <= 5_200_000 && reads <= 600,
        "{asked} bytes, {reads} reads"
    );
    Ok(())
}

/// A reader that goes on keeps few pages. So it reads the source again when it begins anew.
#[test]
fn forward_twice(rt: HostRuntime) -> Result<(), Fail> {
    let places = Places {
        count: 2048,
        factor: 1,
        step: 960 << 32,
    };
    let (asked, reads) = asked_by(&rt, rt.alloc(), &places)?;
    assert!(rt;
        asked >= 1_800_000 && asked <= 2_000_000 && reads <= 130,
        "{asked} bytes, {reads} reads"
    );
    Ok(())
}
