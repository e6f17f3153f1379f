//! Lints the files of the folder `files`, and prints for each how many objects its value has, or its first fault.
#![tactic(auto)]

use anyhow::Result;
use bplist::{FileSource, Window, lint};
use std::fs;

fn objects_of(rt: &HostRuntime, path: &str) -> Result<u64> {
    let mut source = Window::new(FileSource::open(rt, path)?);
    let sound = lint(rt.alloc(), &mut source)?;
    Ok(sound.reached)
}

fn main(rt: HostRuntime) -> Result<()> {
    let mut paths = Vec::new(rt.alloc());
    for entry in fs::read_dir(&rt, "files")? {
        paths.push(entry?.path().as_str().to_string(rt.alloc())?)?;
    }
    paths.sort_unstable();
    for path in &paths {
        match objects_of(&rt, path) {
            Ok(objects) => println!(rt; "{path}: {objects} objects")?,
            Err(error) => println!(rt; "{path}: {error}")?,
        }
    }
    Ok(())
}
