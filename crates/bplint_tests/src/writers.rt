//! Writers that fail or are interrupted: what sinks, printed values and commands then say, and what the writers hold.

use crate::runs::{outcome, with_path};
use arrayvec::ArrayVec;
use bplint_engine::{Verb, run_over};
use bplist_ascii::{PrintFault, print};
use bplist_cursor::{Node, measure};
use bplist_objects::ObjectNo;
use bplist_octets::{Sink, SliceSource, WriteFault};
use bplist_samples::{
    PRINTABLE_DICT, Parts, Row, SMALLEST_FILE, ShortWriter, THREE_KEYS, Trouble, small,
};
use std::test::Fail;

fn send_all(sink: &mut Sink, out: &mut ShortWriter, pieces: &[&[u8]]) -> Result<(), WriteFault> {
    for piece in pieces {
        sink.put(out, piece)?;
    }
    sink.flush(out)
}

const DICT: &[&[u8]] = &[b"{", b"a", b"=", b"\"b c\"", b";", b"}", b"\n"];

/// Interrupted writes, the most bytes of a write, the room, and what comes then; the result for `DICT`, and what is
/// held.
const WRITERS: &[(u64, usize, usize, Trouble, Result<(), WriteFault>, &[u8])] = &[
    (0, 100, 100, Trouble::Fails, Ok(()), b"{a=\"b c\";}\n"),
    (
        0,
        100,
        4,
        Trouble::Fails,
        Err(WriteFault { sent: 4 }),
        b"{a=\"",
    ),
    (
        0,
        100,
        4,
        Trouble::TakesNothing,
        Err(WriteFault { sent: 4 }),
        b"{a=\"",
    ),
    (
        0,
        1,
        10,
        Trouble::Fails,
        Err(WriteFault { sent: 10 }),
        b"{a=\"b c\";}",
    ),
    (
        0,
        100,
        10,
        Trouble::Fails,
        Err(WriteFault { sent: 10 }),
        b"{a=\"b c\";}",
    ),
    (0, 100, 0, Trouble::Fails, Err(WriteFault { sent: 0 }), b""),
    (64, 1, 100, Trouble::Fails, Ok(()), b"{a=\"b c\";}\n"),
    (
        65,
        100,
        100,
        Trouble::Fails,
        Err(WriteFault { sent: 0 }),
        b"",
    ),
];

#[test]
fn writers_that_fail(rt: HostRuntime) -> Result<(), Fail> {
    for (interrupts, step, room, last, want, held) in WRITERS {
        let mut out = ShortWriter {
            troubles: *interrupts,
            first: Trouble::Interrupted,
            step: *step,
            room: *room,
            last: *last,
            held: ArrayVec::new(),
        };
        assert_eq!(rt; send_all(&mut Sink::new(), &mut out, DICT), *want);
        assert_eq!(rt; out.held.as_slice(), *held);
    }
    Ok(())
}

/// Only an interrupted write is repeated. A writer that fails once in another way, or takes nothing once, is not asked
/// again, even if it would take everything from then on.
#[test]
fn writers_that_fail_once(rt: HostRuntime) -> Result<(), Fail> {
    for first in [Trouble::WouldBlock, Trouble::Fails, Trouble::TakesNothing] {
        let mut out = ShortWriter::with_room(64);
        out.troubles = 1;
        out.first = first;
        let fault = WriteFault { sent: 0 };
        assert_eq!(rt; send_all(&mut Sink::new(), &mut out, DICT), Err(fault));
        assert!(rt; out.held.is_empty());
    }
    Ok(())
}

/// One sink counts the interrupted writes of everything that goes through it.
#[test]
fn interrupts_are_counted_over_the_whole_sink(rt: HostRuntime) -> Result<(), Fail> {
    let mut sink = Sink::new();
    let mut out = ShortWriter::with_room(100);
    out.troubles = 40;
    assert_eq!(rt; send_all(&mut sink, &mut out, &[b"true\n"]), Ok(()));
    out.troubles = 25;
    let fault = WriteFault { sent: 5 };
    assert_eq!(rt; send_all(&mut sink, &mut out, &[b"null\n"]), Err(fault));
    assert_eq!(rt; out.held.as_slice(), b"true\n".as_slice());
    Ok(())
}

#[test]
fn long_texts_go_past_the_buffer(rt: HostRuntime) -> Result<(), Fail> {
    let long = [0x61; 5000];
    let mut out = Vec::new(rt.alloc());
    let mut sink = Sink::new();
    for n in [3000, 1096, 1, 4096, 5000, 0, 4097, 7] {
        sink.put(&mut out, &long[..n])?;
    }
    sink.flush(&mut out)?;
    assert_eq!(rt; out.len(), 3000 + 1096 + 1 + 4096 + 5000 + 4097 + 7);
    assert!(rt; out.iter().all(|byte| *byte == 0x61));
    Ok(())
}

/// The room of a writer for the text of the printable dictionary, the result of `print`, and what the writer holds.
const ROOMS: &[(usize, Result<(), PrintFault>, &[u8])] = &[
    (4, Err(PrintFault::Write { sent: 4 }), b"{a=\""),
    (10, Ok(()), b"{a=\"b c\";}"),
];

#[test]
fn values(rt: HostRuntime) -> Result<(), Fail> {
    let alloc = rt.alloc();
    let row = Row::small(alloc, "printable-dict", PRINTABLE_DICT)?;
    let mut checked = row.checked(alloc, SliceSource::new(&row.octets))?;
    let top = Node {
        object: ObjectNo(0),
    };
    for (room, want, held) in ROOMS {
        let measures = measure(alloc, &mut checked)?;
        let mut out = ShortWriter::with_room(*room);
        let said = print(alloc, &mut checked, &measures, top, 10, &mut out);
        assert_eq!(rt;
            (said, out.held.as_slice()),
            (*want, *held),
            "with room for {room}"
        );
    }
    Ok(())
}

/// Files, verbs and paths; the interrupted writes and the room; the line, and what the writer holds.
const COMMANDS: &[(Parts, Verb, &str, (u64, usize), &str, &[u8])] = &[
    (SMALLEST_FILE, Verb::Lint, "", (0, 31), "0 ", LINE),
    (
        SMALLEST_FILE,
        Verb::Lint,
        "",
        (0, 30),
        "3 write 30\n",
        b"ok reached 1 height 1 top true",
    ),
    (SMALLEST_FILE, Verb::Lint, "", (0, 3), "3 write 3\n", b"ok "),
    (SMALLEST_FILE, Verb::Lint, "", (0, 0), "3 write 0\n", b""),
    (SMALLEST_FILE, Verb::Lint, "", (64, 100), "0 ", LINE),
    (SMALLEST_FILE, Verb::Lint, "", (65, 100), "3 write 0\n", b""),
    (
        THREE_KEYS,
        Verb::Get,
        "/a~1b",
        (0, 3),
        "3 write 3\n",
        b"arr",
    ),
    (
        PRINTABLE_DICT,
        Verb::Print,
        "",
        (0, 10),
        "3 write 10\n",
        b"{a=\"b c\";}",
    ),
];

/// The line of `lint` for the smallest file.
const LINE: &[u8] = b"ok reached 1 height 1 top true\n";

#[test]
fn writers(rt: HostRuntime) -> Result<(), Fail> {
    let alloc = rt.alloc();
    for ((objects, table), verb, path, (interrupts, room), line, held) in COMMANDS {
        let row = Row::new(alloc, "a file", small(alloc, objects, table)?)?;
        let command = with_path(alloc, *verb, path)?;
        let mut out = ShortWriter {
            troubles: *interrupts,
            first: Trouble::Interrupted,
            step: 7,
            room: *room,
            last: Trouble::Fails,
            held: ArrayVec::new(),
        };
        let answer = run_over(alloc, &command, &row.octets, &row.certificate, &mut out);
        assert_eq!(rt;
            outcome(alloc, answer, b"")?.as_str(),
            *line,
            "with room for {room}"
        );
        assert_eq!(rt; out.held.as_slice(), *held, "with room for {room}");
    }
    Ok(())
}
