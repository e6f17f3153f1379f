//! A source over another source that keeps pages of the bytes that it has read.
//!
//! A reader that goes on from where it was needs few of them. A reader that jumps, as in a file whose objects lie in no
//! order, takes a page more with each jump, so that in the end it reads the file once.

ghost use Rattle.std.specs.Prelude.{◌≡◌, ◌+◌, ◌*◌, ◌/◌, ◌%◌, ◌<◌, ◌≤◌, IfOk, IsTrue, length, max, Ok, OnOk, false, take, vec_len};
ghost use Rattle.std.specs.Result.{result_err};
ghost use Rattle.bplist_octets.specs.Octets.{part};
ghost use Rattle.bplist_octets.specs.Meaning.{OnlyReads};
ghost use Rattle.bplist_octets.specs.Pages.{ArePages, AreUnread, IsPage, IsUnread, past_pages, page_left, pages_left};

use crate::source::{ReadFault, Source};
use crate::window::{JUMP, Window, index_in};
use std::alloc::{AllocError, Global};
use std::mem;

/// The number of bytes of a page. Pages begin at multiples of it.
const PAGE: usize = 16_384;

/// The longest request that goes through a page.
const LONGEST: usize = 8192;

/// The number of pages that are kept for readers that go on from a page: with as many, the offset table, an object,
/// what it refers to and its keys have pages of their own.
const FEW: usize = 8;

/// The largest number of pages: 64 MiB.
const MOST: usize = 4096;

/// How often a source is read over before each page that is read takes a page more.
const TIMES: usize = 4;

/// The longest source of which pages are kept. The table of pages takes three thousandths of its length.
const LONGEST_SOURCE: u64 = 1 << 32;

/// A page of the source, and what is kept of it.
#[derive(Drop)]
struct Page {
    /// Where the bytes that are kept begin.
    start: u64,
    /// How many bytes are kept.
    held: usize,
    /// The bytes that are kept, and room behind them that keeps what was there before.
    octets: Vec<u8>,
    /// How often it was read since it was given up last: at most for a part of it, and then for all of it.
    reads: u8,
    /// The turn in which it was used last.
    taken: u64,
}

fn copy_part(page: &Page, from: usize, into: &mut [u8])
    requires { from + length into.old ≤ vec_len page.now.octets }
    ensures { into.new ≡ part page.now.octets.items from (length into.old) }
{
    into.copy_from_slice(&page.octets[from..from + into.len()]);
}

fn has_room(octets: &mut Vec<u8>, count: usize) -> bool
    ensures { IsTrue result → count ≤ vec_len octets.new }
{
    octets.len() >= count || octets.resize(count, 0).is_ok()
}

fn fill<S: Source>(
    window: &mut Window<S>,
    at: u64,
    into: &mut [u8],
    count: usize,
) -> Result<(), ReadFault>
    requires room { count ≤ length into.old }
    requires inside { at + count ≤ length (S.means window.old.source).octets }
    ensures reads { OnlyReads (result_err result) (S.means window.old.source) (S.means window.new.source) }
    ensures asks { S.asked window.new.source ≤ S.asked window.old.source + max count 4096 }
    ensures filled { OnOk result (IsTrue (S.means window.old.source).honest
        → take count into.new ≡ part (S.means window.old.source).octets at count) }
{
    window.read_at(at, &mut into[..count])
}

/// If the page lacks one of the bytes, reads all of it, or, the first time, only the block of 1,024 bytes with that
/// place, and more if the request ends after the block. Returns false if there is no memory for them. Then, and after a
/// failed read, the page has no bytes.
fn hold<S: Source>(
    window: &mut Window<S>,
    page: &mut Page,
    at: u64,
    count: usize,
    whole: bool,
) -> Result<bool, ReadFault>
    requires inside { at + count ≤ length (S.means window.old.source).octets }
    requires fits { at % 16384 + count ≤ 16384 }
    requires page { IsPage (S.means window.old.source).octets (S.means window.old.source).honest (at / 16384) page.old }
    ensures reads { OnlyReads (result_err result) (S.means window.old.source) (S.means window.new.source) }
    ensures asks { S.asked window.new.source ≤ S.asked window.old.source + 16384 }
    ensures left { IfOk result (λ has. IsTrue has
        → S.asked window.new.source + page_left page.new ≤ S.asked window.old.source + page_left page.old) }
    ensures refused { result ≡ Ok false → S.asked window.new.source ≡ S.asked window.old.source }
    ensures page { IsPage (S.means window.old.source).octets (S.means window.old.source).honest (at / 16384) page.new }
    ensures start { IfOk result (λ has. IsTrue has → page.new.start ≤ at) }
    ensures room { IfOk result (λ has. IsTrue has → at + count ≤ page.new.start + page.new.held) }
{
    if index_in(page.start, page.held, at, count).is_some() {
        return Ok(true);
    }
    let whole = whole || page.reads > 0;
    let block = if whole { PAGE } else { JUMP };
    page.start = at - at % block as u64;
    let room = block.max((at - page.start) as usize + count);
    let held = (window.len() - page.start).min(room as u64) as usize;
    page.held = 0;
    if !has_room(&mut page.octets, held) {
        page.reads = 1;
        return Ok(false);
    }
    page.reads += 1;
    if let Err(fault) = fill(window, page.start, page.octets.as_mut_slice(), held) {
        page.reads = 1;
        return Err(fault);
    }
    page.held = held;
    Ok(true)
}

/// Returns the first `count` pages of a source, of which nothing is kept.
fn pages_of(alloc: Global, count: usize) -> Result<Vec<Page>, AllocError>
    requires { count ≤ 262145 }
    ensures { IfOk result (λ pages. (vec_len pages ≡ count) × AreUnread pages.items) }
{
    let mut pages = Vec::with_capacity(alloc, count)?;
    for number in 0..count {
        pages.push(Page {
            start: (number * PAGE) as u64,
            held: 0,
            octets: Vec::new(alloc),
            reads: 0,
            taken: 0,
        })?;
    }
    Ok(pages)
}

/// A source over a source, which it reads through a [`Window`], and of which it keeps pages of 16,384 bytes. It has the
/// bytes, the honesty, the count of failed reads and the last fault of that source.
///
/// A page is found by its number. If it has all bytes of a request, nothing is read. A request of more than 8,192 bytes
/// goes straight to the window, and so does each request behind the first page if the source is longer than 4 GiB.
///
/// A reader goes on if it comes to a page beside one that it used lately. The page of such a reader takes the place of
/// one that was used long ago, if 8 pages are kept. A reader that does not go on jumps, and a jump takes a page more,
/// up to 4,096 pages. If there is no memory for it, it takes the place of another too. So a source in order takes
/// little memory, and one in no order is read about once. No reader can make it read again and again: after four times
/// as many pages as the source has were given up, each reader takes a page more. So a source of up to 64 MiB is read
/// at most ten times, however many requests there are (`left`), but for requests of more than 8,192 bytes.
///
/// After a jump the block of 1,024 bytes with that place is read, and if a request comes to the same page again, all of
/// it. A reader that comes to the next page near its beginning, or to the one before near its end, reads all of it at
/// once. After a failed read the page is empty.
///
/// `asked` is the number of whole pages that the source was asked for.
#[derive(Drop)]
pub struct Pages<S: Source> {
    window: Box<Window<S>>,
    /// The number of bytes of the source.
    len: u64,
    /// The pages of the source, by their numbers. Only the first if the source is too long, or if there was no memory
    /// for them all.
    pages: Vec<Page>,
    /// The numbers of the pages of which something is kept.
    kept: Vec<usize>,
    /// The number of the page used last.
    last: usize,
    /// The index in `kept` from which a page to be given up is looked for.
    hand: usize,
    /// The number of turns: how often another page was used.
    turn: u64,
    /// How many more pages are given up before each that is read takes a page more.
    spare: usize,
    /// Whether all pages may be kept, and no memory for them was refused.
    bounded: bool,
    alloc: Global,
    ghost whole: { len ≡ length (S.means window.value.source).octets },
    ghost some: { last < vec_len pages },
    ghost all: { IsTrue bounded → len < 16384 * vec_len pages },
    ghost pages_hold: { ArePages
        (S.means window.value.source).octets (S.means window.value.source).honest pages.items },
}

impl<S: Source> Pages<S> {
    /// Returns a source over `source`, or an error if there is no memory for a window and a table of one page. It takes
    /// memory for the bytes of pages when it needs them.
    pub fn new(alloc: Global, source: S) -> Result<Pages<S>, AllocError>
    where
        S: Drop,
        ensures means { IfOk result (λ p. ⟦<Pages<S> as Source>⟧.means p ≡ S.means source) }
        ensures asked { IfOk result (λ p. ⟦<Pages<S> as Source>⟧.asked p ≡ S.asked source / 16384) }
        ensures left { IfOk result (λ p. pages_left p.spare p.pages.items
            ≤ 163840 * (length (S.means source).octets / 16384 + 1)) }
    {
        let len = source.len();
        let all = len / PAGE as u64 + 1;
        let count = if len <= LONGEST_SOURCE {
            all as usize
        } else {
            1
        };
        let pages = match pages_of(alloc, count) {
            Ok(pages) => pages,
            Err(_) => pages_of(alloc, 1)?,
        };
        Ok(Pages {
            window: Box::new(alloc, Window::new(source))?,
            len,
            bounded: pages.len() as u64 == all && pages.len() <= MOST,
            spare: pages.len().saturating_mul(TIMES),
            pages,
            kept: Vec::new(alloc),
            last: 0,
            hand: 0,
            turn: 0,
            alloc,
        })
    }

    fn taken(&self, slot: usize) -> u64
        requires { slot < vec_len self.now.kept }
    {
        match self.pages.get(self.kept[slot]) {
            Some(page) => page.taken,
            None => 0,
        }
    }

    /// Returns an index in `kept`. Looks only at the eight pages from `hand` on.
    fn oldest(&self) -> usize
        requires { 0 < vec_len self.now.kept }
        ensures { result < vec_len self.now.kept }
    {
        let count = self.kept.len();
        let mut oldest = self.hand % count;
        for step in 1..FEW {
            let slot = self.hand.wrapping_add(step) % count;
            if self.taken(slot) < self.taken(oldest) {
                oldest = slot;
            }
        }
        oldest
    }

    fn is_recent(&self, number: usize) -> bool {
        match self.pages.get(number) {
            Some(page) => page.reads > 0 && self.turn.wrapping_sub(page.taken) < FEW as u64,
            None => false,
        }
    }

    /// Gives up the page at an index of `kept`, and gives its memory to page `number`.
    fn hand_over(&mut self, slot: usize, number: usize)
        requires slot { slot < vec_len self.old.kept }
        requires number { number < vec_len self.old.pages }
        requires unread { IsUnread self.old.pages.items number }
        ensures same { self.new.window ≡ self.old.window }
        ensures all { vec_len self.new.pages ≡ vec_len self.old.pages }
        ensures bounded { self.new.bounded ≡ self.old.bounded }
        ensures left { pages_left self.new.spare self.new.pages.items
            ≤ 32768 + pages_left self.old.spare self.old.pages.items }
    {
        let given_up = mem::replace(&mut self.kept[slot], number);
        let Some(page) = self.pages.get_mut(given_up) else {
            return;
        };
        page.reads = 0;
        page.held = 0;
        self.pages[number].octets = mem::replace(&mut page.octets, Vec::new(self.alloc));
    }

    /// Nothing is kept of page `number`. It gets the memory of a page that was used long ago, if `goes_on` says that
    /// the reader was near it lately, or if no page more can be kept.
    fn make_room(&mut self, number: usize, goes_on: bool)
        requires number { number < vec_len self.old.pages }
        requires unread { IsUnread self.old.pages.items number }
        ensures same { self.new.window ≡ self.old.window }
        ensures all { vec_len self.new.pages ≡ vec_len self.old.pages }
        ensures left { IsTrue self.new.bounded → IsTrue self.old.bounded
            × (pages_left self.new.spare self.new.pages.items ≤ pages_left self.old.spare self.old.pages.items) }
    {
        let most = if goes_on && self.spare > 0 {
            FEW
        } else if self.bounded {
            usize::MAX
        } else {
            MOST
        };
        if self.kept.len() < most && self.kept.push(number).is_ok() {
            return;
        }
        if self.spare == 0 {
            self.bounded = false;
        }
        self.spare = self.spare.saturating_sub(1);
        if !self.kept.is_empty() {
            self.hand = self.hand.wrapping_add(FEW) % self.kept.len();
            self.hand_over(self.oldest(), number);
        }
    }

    fn mark_used(&mut self, number: usize)
        ensures same { self.new.window ≡ self.old.window }
        ensures all { vec_len self.new.pages ≡ vec_len self.old.pages }
        ensures bounded { self.new.bounded ≡ self.old.bounded }
        ensures left { pages_left self.new.spare self.new.pages.items ≡ pages_left self.old.spare self.old.pages.items }
    {
        if let Some(page) = self.pages.get_mut(number) {
            page.taken = self.turn;
            self.last = number;
        }
    }

    /// Page `number` is now the one used last. Returns whether the reader goes on to it from a page beside it, so that
    /// all of it is to be read. `index` is the place of the request in the page.
    fn turn_to(&mut self, number: usize, index: usize) -> bool
        requires { number < vec_len self.old.pages }
        ensures same { self.new.window ≡ self.old.window }
        ensures all { vec_len self.new.pages ≡ vec_len self.old.pages }
        ensures left { IsTrue self.new.bounded → IsTrue self.old.bounded
            × (pages_left self.new.spare self.new.pages.items ≤ pages_left self.old.spare self.old.pages.items) }
    {
        self.turn = self.turn.wrapping_add(1);
        let forward = self.is_recent(number.wrapping_sub(1));
        let backward = self.is_recent(number.wrapping_add(1));
        if self.pages[number].reads == 0 {
            self.make_room(number, forward || backward);
        }
        self.mark_used(number);
        forward && index < JUMP || backward && index >= PAGE - JUMP || self.len <= PAGE as u64
    }

    #[inline(always)]
    fn copy_from(&self, number: usize, at: u64, into: &mut [u8]) -> bool
        requires number { number < vec_len self.now.pages }
        requires inside { at + length into.old ≤ length (S.means self.now.window.value.source).octets }
        ensures { IsTrue result → IsTrue (S.means self.now.window.value.source).honest
            → into.new ≡ part (S.means self.now.window.value.source).octets at (length into.old) }
    {
        let page = &self.pages[number];
        if at < page.start {
            return false;
        }
        let from = at - page.start;
        if from + into.len() as u64 > page.held as u64 {
            return false;
        }
        copy_part(page, from as usize, into);
        true
    }

    /// Reads through the page if there is memory for it.
    fn read_page(&mut self, at: u64, into: &mut [u8]) -> Result<(), ReadFault>
        requires inside { at + length into.old ≤ length (S.means self.old.window.value.source).octets }
        requires fits { at % 16384 + length into.old ≤ 16384 }
        ensures reads { OnlyReads (result_err result)
            (S.means self.old.window.value.source) (S.means self.new.window.value.source) }
        ensures asks { S.asked self.new.window.value.source
            ≤ S.asked self.old.window.value.source + 16384 * length into.old }
        ensures most { S.asked self.new.window.value.source ≤ S.asked self.old.window.value.source + 16384 }
        ensures left { OnOk result (IsTrue self.new.bounded → IsTrue self.old.bounded
            × (S.asked self.new.window.value.source + pages_left self.new.spare self.new.pages.items
            ≤ S.asked self.old.window.value.source + pages_left self.old.spare self.old.pages.items)) }
        ensures filled { OnOk result (IsTrue (S.means self.old.window.value.source).honest
            → into.new ≡ part (S.means self.old.window.value.source).octets at (length into.old)) }
    {
        if into.is_empty() {
            return Ok(());
        }
        let number = (at / PAGE as u64) as usize;
        if number >= self.pages.len() {
            return self.window.read_at(at, into);
        }
        let whole = self.turn_to(number, (at % PAGE as u64) as usize);
        let page = &mut self.pages[number];
        if !hold(&mut *self.window, page, at, into.len(), whole)? {
            self.bounded = false;
            return self.window.read_at(at, into);
        }
        copy_part(page, (at - page.start) as usize, into);
        Ok(())
    }

    /// Reads bytes that the page used last lacks. They are in one page or in two.
    fn read_pages(&mut self, at: u64, into: &mut [u8]) -> Result<(), ReadFault>
        requires inside { at + length into.old ≤ length (S.means self.old.window.value.source).octets }
        ensures reads { OnlyReads (result_err result)
            (S.means self.old.window.value.source) (S.means self.new.window.value.source) }
        ensures asks { S.asked self.new.window.value.source
            ≤ S.asked self.old.window.value.source + 16384 * length into.old }
        ensures below { S.asked self.new.window.value.source
            ≤ S.asked self.old.window.value.source + max (length into.old) 32768 }
        ensures left { OnOk result (IsTrue self.new.bounded → IsTrue self.old.bounded
            × (S.asked self.new.window.value.source + pages_left self.new.spare self.new.pages.items
            ≤ S.asked self.old.window.value.source + pages_left self.old.spare self.old.pages.items
            + past_pages (length into.old))) }
        ensures filled { OnOk result (IsTrue (S.means self.old.window.value.source).honest
            → into.new ≡ part (S.means self.old.window.value.source).octets at (length into.old)) }
    {
        let number = (at / PAGE as u64) as usize;
        // A reader of a file in no order mostly finds another page that is kept, for which nothing is chosen or read.
        if number < self.pages.len() && self.copy_from(number, at, into) {
            self.turn = self.turn.wrapping_add(1);
            self.mark_used(number);
            return Ok(());
        }
        if into.len() > LONGEST {
            return self.window.read_at(at, into);
        }
        let room = PAGE - (at % PAGE as u64) as usize;
        let count = room.min(into.len());
        let (front, rest) = into.split_at_mut(count);
        self.read_page(at, front)?;
        self.read_page(at + count as u64, rest)?;
        Ok(())
    }
}

impl<S: Source> Source for Pages<S> {
    ghost means = { λ p. S.means p.window.value.source };

    // In pages, since a request of a byte may read a whole one.
    ghost asked = { λ p. S.asked p.window.value.source / 16384 };

    fn len(&self) -> u64 {
        self.len
    }

    // Inlined, so that reading one byte costs no call if the page used last has it.
    #[inline(always)]
    fn read_at(&mut self, at: u64, into: &mut [u8]) -> Result<(), ReadFault>
        requires { at + length into.old ≤ length (S.means self.old.window.value.source).octets }
        ensures reads { OnlyReads (result_err result)
            (S.means self.old.window.value.source) (S.means self.new.window.value.source) }
        ensures filled { OnOk result (IsTrue (S.means self.old.window.value.source).honest
            → into.new ≡ part (S.means self.old.window.value.source).octets at (length into.old)) }
        ensures asks { S.asked self.new.window.value.source / 16384
            ≤ S.asked self.old.window.value.source / 16384 + length into.old }
        ensures below { S.asked self.new.window.value.source
            ≤ S.asked self.old.window.value.source + max (length into.old) 32768 }
        ensures left { OnOk result (IsTrue self.new.bounded → IsTrue self.old.bounded
            × (S.asked self.new.window.value.source + pages_left self.new.spare self.new.pages.items
            ≤ S.asked self.old.window.value.source + pages_left self.old.spare self.old.pages.items
            + past_pages (length into.old))) }
    {
        if self.copy_from(self.last, at, into) {
            return Ok(());
        }
        self.read_pages(at, into)
    }
}
