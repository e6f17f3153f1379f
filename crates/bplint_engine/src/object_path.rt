//! Finds the path from the top to an object, or to all objects, in any file.
//!
//! The search follows members of arrays and values of dictionaries, as paths do. It does not go on from an object that
//! breaks a rule about markers or counts.

ghost use Rattle.std.specs.Prelude.{◌<◌, IfOk, IfSome, length};
ghost use Rattle.bplist_octets.specs.Meaning.{OnlyReads};
ghost use Rattle.bplist_objects.specs.Safe.{IsSafe, IsSafeFrame, IsSafeHead, ref_count};
ghost use Rattle.bplist_objects.specs.Failures.{failed_to_read};

use bplint_lines::{KeyFront, Naming, ObjectPath, WrittenPath, add_index_name};
use bplist_objects::{
    Failure, Frame, Head, Kind, ObjectFault, ObjectNo, read_units, ref_at, shape_of, trailer_of,
};
use bplist_octets::Source;
use std::alloc::{AllocError, Global};

/// The largest number of units of a key that is read.
const KEY_UNITS: u64 = 4096;

/// One step: from object `from`, through its member or pair number `index`.
#[derive(Clone, Copy, Drop)]
struct Step {
    from: u32,
    index: u32,
}

/// The steps to the objects that a search found. Takes 8 bytes for each object.
#[derive(Drop)]
pub(crate) struct ObjectPaths {
    top: u32,
    /// By object number: the step that found the object first. The top, and an object that was not found, have a step
    /// from themselves.
    steps: Vec<Step>,
    /// The largest number of steps of a path.
    longest: usize,
    /// How many more references may be read. If no objects overlap, a file has fewer references than bytes.
    budget: u64,
    naming: Naming,
    /// The container whose member was asked for last, and its path. Its other members have the same one.
    kept: Option<(u32, WrittenPath)>,
}

/// Returns `None` if the file breaks a rule of frames.
pub(crate) fn frame_in<S: Source>(src: &mut S) -> Result<Option<Frame>, Failure>
    ensures reads { OnlyReads (failed_to_read result) (S.means src.old) (S.means src.new) }
    ensures safe { IfOk result (λ found. IfSome found (IsSafeFrame (length (S.means src.old).octets))) }
{
    match trailer_of(src) {
        Ok(frame) => Ok(Some(frame)),
        Err(ObjectFault::Fault(_)) => Ok(None),
        Err(ObjectFault::Read(fault)) => Err(Failure::Read(fault)),
    }
}

/// Returns the first path from the top to an object.
pub(crate) fn path_to<S: Source>(
    alloc: Global,
    src: &mut S,
    frame: &Frame,
    target: ObjectNo,
    naming: Naming,
) -> Result<ObjectPath, Failure>
    requires { IsSafeFrame (length (S.means src.old).octets) frame.now }
    ensures reads { OnlyReads (failed_to_read result) (S.means src.old) (S.means src.new) }
{
    let mut paths = ObjectPaths::new(alloc, frame, usize::MAX, naming)?;
    paths.search(alloc, src, frame, Some(target))?;
    paths.path_to(alloc, src, frame, target)
}

impl ObjectPaths {
    /// The start of a search: only the top was found. An object counts as not found if its path has more than `longest`
    /// steps, and one step more.
    pub(crate) fn new(
        alloc: Global,
        frame: &Frame,
        longest: usize,
        naming: Naming,
    ) -> Result<ObjectPaths, AllocError> {
        let steps = (0..frame.objects).map(|from| Step { from, index: 0 });
        Ok(ObjectPaths {
            top: frame.top.0,
            steps: steps.collect(alloc)?,
            longest,
            budget: frame.table,
            naming,
            kept: None,
        })
    }

    /// Searches breadth first, so that the path to each object is a shortest one, and for all objects if `target` is
    /// None. Takes 12 bytes of memory for each object, of which 8 stay.
    pub(crate) fn search<S: Source>(
        &mut self,
        alloc: Global,
        src: &mut S,
        frame: &Frame,
        target: Option<ObjectNo>,
    ) -> Result<(), Failure>
        requires { IsSafeFrame (length (S.means src.old).octets) frame.now }
        ensures reads { OnlyReads (failed_to_read result) (S.means src.old) (S.means src.new) }
    {
        let mut met = Vec::new(alloc);
        met.push(self.top)?;
        for k in 0..frame.objects as usize {
            match met.get(k) {
                Some(n) if Some(ObjectNo(*n)) != target && *n < frame.objects => {
                    let n = *n;
                    self.go_on(src, frame, ObjectNo(n), &mut met)?;
                }
                _ => break,
            }
        }
        Ok(())
    }

    /// Finds the objects that object `n` refers to. Adds those that were not found before to `met`.
    fn go_on<S: Source>(
        &mut self,
        src: &mut S,
        frame: &Frame,
        n: ObjectNo,
        met: &mut Vec<u32>,
    ) -> Result<(), Failure>
        requires safe { IsSafe (length (S.means src.old).octets) frame.now }
        requires within { n.0 < frame.now.objects }
        ensures reads { OnlyReads (failed_to_read result) (S.means src.old) (S.means src.new) }
    {
        let Some(head) = head_in(src, frame, n)? else {
            return Ok(());
        };
        let first = match head.kind {
            Kind::Array => 0,
            Kind::Dict => head.count,
            _ => return Ok(()),
        };
        for index in 0..head.count {
            if self.budget == 0 {
                return Ok(());
            }
            self.budget -= 1;
            let m = ref_at(src, frame, &head, first + index)?;
            self.meet(m, n.0, index, met)?;
        }
        Ok(())
    }

    /// No file in which objects do not overlap has so many references that an index does not fit.
    fn meet(
        &mut self,
        object: u64,
        from: u32,
        index: u64,
        met: &mut Vec<u32>,
    ) -> Result<(), AllocError> {
        let (Ok(n), Ok(index)) = (u32::try_from(object), u32::try_from(index)) else {
            return Ok(());
        };
        if n == self.top {
            return Ok(());
        }
        if let Some(step) = self.steps.get_mut(n as usize) {
            if step.from == n && from != n {
                *step = Step { from, index };
                met.push(n)?;
            }
        }
        Ok(())
    }

    /// Returns the path to an object. Keeps that of the container before the last step, so that the next call for a
    /// member of the same container reads one key only.
    pub(crate) fn path_to<S: Source>(
        &mut self,
        alloc: Global,
        src: &mut S,
        frame: &Frame,
        object: ObjectNo,
    ) -> Result<ObjectPath, Failure>
        requires { IsSafeFrame (length (S.means src.old).octets) frame.now }
        ensures reads { OnlyReads (failed_to_read result) (S.means src.old) (S.means src.new) }
    {
        if object.0 == self.top {
            return Ok(ObjectPath::Path(WrittenPath::new(alloc)));
        }
        let Some(step) = self.step_to(object.0) else {
            return Ok(self.without_path());
        };
        let kept = match self.kept.take() {
            Some((container, path)) if container == step.from => path,
            _ => match self.steps_back(alloc, step.from)? {
                Some(steps) => path_of(alloc, src, frame, &steps, self.naming)?,
                None => return Ok(self.without_path()),
            },
        };
        let mut path = kept.copy(alloc)?;
        self.kept = Some((step.from, kept));
        add_step(alloc, src, frame, step, self.naming, &mut path)?;
        Ok(ObjectPath::Path(path))
    }

    fn without_path(&self) -> ObjectPath {
        if self.budget == 0 {
            ObjectPath::Unknown
        } else {
            ObjectPath::None
        }
    }

    /// Returns None for the top and for an object that was not found.
    fn step_to(&self, object: u32) -> Option<Step> {
        match self.steps.get(object as usize) {
            Some(step) if step.from != object => Some(*step),
            _ => None,
        }
    }

    /// The last step comes first. Returns None if the object was not found or has too many steps.
    fn steps_back(&self, alloc: Global, object: u32) -> Result<Option<Vec<Step>>, AllocError> {
        let mut steps = Vec::new(alloc);
        let mut n = object;
        for _ in 0..self.steps.len() {
            if n == self.top {
                return Ok(Some(steps));
            }
            match self.step_to(n) {
                Some(step) if steps.len() < self.longest => {
                    steps.push(step)?;
                    n = step.from;
                }
                _ => return Ok(None),
            }
        }
        Ok(None)
    }
}

/// The last of the steps comes first.
fn path_of<S: Source>(
    alloc: Global,
    src: &mut S,
    frame: &Frame,
    steps: &[Step],
    naming: Naming,
) -> Result<WrittenPath, Failure>
    requires { IsSafe (length (S.means src.old).octets) frame.now }
    ensures reads { OnlyReads (failed_to_read result) (S.means src.old) (S.means src.new) }
{
    let mut path = WrittenPath::new(alloc);
    for k in 0..steps.len() {
        let step = steps[steps.len() - 1 - k];
        add_step(alloc, src, frame, step, naming, &mut path)?;
    }
    Ok(path)
}

/// If the path is full, the step is only counted.
fn add_step<S: Source>(
    alloc: Global,
    src: &mut S,
    frame: &Frame,
    step: Step,
    naming: Naming,
    path: &mut WrittenPath,
) -> Result<(), Failure>
    requires { IsSafe (length (S.means src.old).octets) frame.now }
    ensures reads { OnlyReads (failed_to_read result) (S.means src.old) (S.means src.new) }
{
    if !path.take_step() || step.from >= frame.objects {
        return Ok(());
    }
    let Some(head) = head_in(src, frame, ObjectNo(step.from))? else {
        return Ok(());
    };
    let index = step.index as u64;
    if head.kind == Kind::Dict && index < head.count {
        let key = key_front(alloc, src, frame, &head, index)?;
        return Ok(path.add_key(alloc, naming, index, key.as_ref())?);
    }
    Ok(add_index_name(alloc, "", index, &mut path.text)?)
}

/// Reads at most 4,096 units. Returns None if the key is not a text.
pub(crate) fn key_front<S: Source>(
    alloc: Global,
    src: &mut S,
    frame: &Frame,
    head: &Head,
    index: u64,
) -> Result<Option<KeyFront>, Failure>
    requires safe { IsSafe (length (S.means src.old).octets) frame.now }
    requires head { IsSafeHead frame.now head.now }
    requires within { index < ref_count head.now.kind head.now.count }
    ensures reads { OnlyReads (failed_to_read result) (S.means src.old) (S.means src.new) }
{
    let key = ref_at(src, frame, head, index)?;
    if key >= frame.objects as u64 {
        return Ok(None);
    }
    let _length = src.len();
    match head_in(src, frame, ObjectNo(key as u32))? {
        Some(text) if text.kind == Kind::Ascii || text.kind == Kind::Wide => {
            let mut units = vec![in alloc; 0u16; text.count.min(KEY_UNITS) as usize]?;
            read_units(src, &text, 0, &mut units)?;
            let is_cut = text.count > KEY_UNITS;
            Ok(Some(KeyFront { units, is_cut }))
        }
        _ => Ok(None),
    }
}

/// Returns None if the object breaks a rule about markers or counts.
pub(crate) fn head_in<S: Source>(
    src: &mut S,
    frame: &Frame,
    n: ObjectNo,
) -> Result<Option<Head>, Failure>
    requires safe { IsSafe (length (S.means src.old).octets) frame.now }
    requires within { n.0 < frame.now.objects }
    ensures reads { OnlyReads (failed_to_read result) (S.means src.old) (S.means src.new) }
    ensures safe { IfOk result (λ found. IfSome found (IsSafeHead frame.now)) }
{
    match shape_of(src, frame, n) {
        Ok(head) => Ok(Some(head)),
        Err(ObjectFault::Fault(_)) => Ok(None),
        Err(ObjectFault::Read(fault)) => Err(Failure::Read(fault)),
    }
}
