//! Lists the tree of a file in memory: a line for each node, below the line of its container. A dictionary has its keys
//! and values in turn.
#![tactic(auto)]

use anyhow::Result;
use bplist::{Face, Keys, Node, SliceSource, face, lint_checked, member};
use std::alloc::Global;
use std::fs;

/// The most lines below the top: a small file can mean a tree of any size.
const LINES: u32 = 1000;

/// A text stands as it is, another value as `Debug` shows it.
fn shown(alloc: Global, face: &Face) -> Result<String> {
    Ok(match face {
        Face::Text(units) => String::from_utf16_lossy(alloc, units.as_slice())?,
        other => format!(in alloc; "{other:?}")?,
    })
}

fn list(rt: &HostRuntime, file: &[u8]) -> Result<()> {
    let alloc = rt.alloc();
    let mut checked = match lint_checked(alloc, SliceSource::new(file), Keys::Classes) {
        Ok((checked, _tally)) => checked,
        Err((refusal, _source)) => return Err(refusal.into()),
    };
    let object = checked.frame().top;
    let top = Node { object };
    let line = shown(alloc, &face(alloc, &mut checked, top)?)?;
    println!(rt; "{line}")?;
    // The containers from the top down to the one that is listed, each with the number of its next member.
    let mut open = vec![in alloc; (top, 0u64)]?;
    for _ in 0..LINES {
        let depth = open.len();
        let Some((container, next)) = open.pop() else {
            return Ok(());
        };
        if let Some(node) = member(&mut checked, container, next)? {
            let line = shown(alloc, &face(alloc, &mut checked, node)?)?;
            println!(rt; "{:depth$}{line}", "")?;
            open.push((container, next.saturating_add(1)))?;
            open.push((node, 0))?;
        }
    }
    println!(rt; "..")?;
    Ok(())
}

fn main(rt: HostRuntime) -> Result<()> {
    let file = fs::read(&rt, "Info.plist")?;
    list(&rt, &file)
}
