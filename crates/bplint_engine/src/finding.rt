//! What `lint` finds out about a file, with the path to the object that breaks a rule.

ghost use Rattle.std.specs.Prelude.{◌≡◌, ◌≤◌, MatchResult};
ghost use Rattle.bplist_octets.specs.Meaning.{Honestly};
ghost use Rattle.bplint_lines.specs.FaultLines.{report_of};
ghost use Rattle.bplint_engine.specs.Findings.{IsFindingOf, status_of};

use crate::object_path::{frame_in, path_to};
use bplint_lines::{Naming, ObjectPath, RunFault};
use bplist_hints::hint_of;
use bplist_lint::{LintRefusal, ObjectNos, lint};
use bplist_objects::{Failure, Fault, Kind, ObjectFault, ObjectNo, shape_of, trailer_of};
use bplist_octets::Source;
use std::alloc::Global;

/// The shortest path from the top to an object, or why it is not given.
#[derive(Drop)]
pub struct Way {
    /// The text of the path. With `index`, that of its last part.
    pub path: Option<String>,
    /// The index of the last member on the way that has no path, if there is one. Its key is no text, has half of a
    /// surrogate pair, or has more than 4,096 units.
    pub index: Option<u64>,
    /// Why there is no path though the fault has an object: `unreached` if none leads to it, `overlap` if the search
    /// gave up because objects overlap, `long` if the path has more than 256 steps or some 5,000 bytes, `memory` if
    /// memory for the search was refused.
    pub missing: Option<&'static str>,
}

impl Way {
    fn missing(why: &'static str) -> Way {
        Way {
            path: None,
            index: None,
            missing: Some(why),
        }
    }
}

/// What `lint` finds out about a file.
#[derive(Drop)]
pub enum Finding {
    /// The file holds a value.
    Sound {
        /// How many objects the top reaches, including the top itself.
        reached: u64,
        /// The height of the top.
        height: u32,
        /// The kind of the top.
        top: Kind,
    },
    /// The file breaks a rule other than 23 Circle.
    Broken {
        /// The first fault of the file.
        fault: Fault,
        /// The way to the object that breaks the rule.
        way: Way,
        /// What the file looks like, if that is known.
        looks_like: Option<String>,
    },
    /// References form a circle.
    Circle {
        /// The objects of the circle.
        objects: ObjectNos,
        /// The way to the first of them.
        way: Way,
    },
    /// The file could not be read, or memory was refused.
    Unread {
        /// What failed.
        fault: RunFault,
        /// Why it failed, if that is known, as `no such file`.
        cause: Option<String>,
    },
}

impl Finding {
    /// Returns the exit status: 0 for a file that holds a value, 1 for one that breaks a rule, otherwise that of the
    /// fault.
    pub fn status(&self) -> u8
        ensures exact { result ≡ status_of self.now }
        ensures few { result ≤ 4 }
    {
        match self {
            Finding::Sound { .. } => 0,
            Finding::Broken { .. } | Finding::Circle { .. } => 1,
            Finding::Unread { fault, .. } => fault.status(),
        }
    }
}

/// Lints a source. If a read fails or memory is refused, the finding is `Unread` without a cause. Once a broken rule is
/// known, refused memory only leaves out the path, or what the file looks like.
pub fn find_in<S: Source>(alloc: Global, src: &mut S) -> Finding
    ensures { Honestly (S.means src.old) (λ f. IsFindingOf f result) }
{
    match try_find(alloc, src) {
        Ok(finding) => finding,
        Err(fault) => Finding::Unread { fault, cause: None },
    }
}

fn try_find<S: Source>(alloc: Global, src: &mut S) -> Result<Finding, RunFault>
    ensures { Honestly (S.means src.old) (λ f. MatchResult result (IsFindingOf f) (λ fault. 3 ≤ (report_of fault).1)) }
{
    match lint(alloc, src) {
        Ok(found) => match kind_of_top(src) {
            Ok(top) => Ok(Finding::Sound {
                reached: found.reached,
                height: found.height,
                top,
            }),
            Err(ObjectFault::Fault(_)) => Err(RunFault::Changed),
            Err(ObjectFault::Read(fault)) => Err(RunFault::Read(fault)),
        },
        Err(LintRefusal::Fault(fault)) => {
            let way = way_to(alloc, src, fault.object)?;
            let looks_like = looks_of(alloc, src)?;
            Ok(Finding::Broken {
                fault,
                way,
                looks_like,
            })
        }
        Err(LintRefusal::Circle(objects)) => {
            let first = objects.as_slice().first().copied();
            let way = way_to(alloc, src, first)?;
            Ok(Finding::Circle { objects, way })
        }
        Err(refusal) => Err(RunFault::from(refusal)),
    }
}

fn kind_of_top<S: Source>(src: &mut S) -> Result<Kind, ObjectFault> {
    let frame = trailer_of(src)?;
    Ok(shape_of(src, &frame, frame.top)?.kind)
}

/// If memory for the words is refused, there are none.
fn looks_of<S: Source>(alloc: Global, src: &mut S) -> Result<Option<String>, Failure> {
    match hint_of(src)? {
        Some(hint) => Ok(hint.words(alloc).ok()),
        None => Ok(None),
    }
}

fn way_to<S: Source>(alloc: Global, src: &mut S, object: Option<ObjectNo>) -> Result<Way, Failure> {
    let Some(object) = object else {
        return Ok(Way {
            path: None,
            index: None,
            missing: None,
        });
    };
    match search_way(alloc, src, object) {
        Err(Failure::Memory) => Ok(Way::missing("memory")),
        found => found,
    }
}

fn search_way<S: Source>(alloc: Global, src: &mut S, object: ObjectNo) -> Result<Way, Failure> {
    let Some(frame) = frame_in(src)? else {
        return Ok(Way::missing("unreached"));
    };
    match path_to(alloc, src, &frame, object, Naming::Whole)? {
        ObjectPath::Path(path) if path.more > 0 => Ok(Way::missing("long")),
        ObjectPath::Path(path) => Ok(Way {
            path: Some(String::from_utf8_lossy(alloc, &path.text)?),
            index: path.index,
            missing: None,
        }),
        ObjectPath::None => Ok(Way::missing("unreached")),
        ObjectPath::Unknown => Ok(Way::missing("overlap")),
    }
}
