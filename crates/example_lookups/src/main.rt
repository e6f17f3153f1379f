//! Serves look-ups in a file that may be larger than memory: for each path on a line of standard input it prints a line
//! with the value. Only the pages of the file that are needed are read. The certificate has sorted keys, so that a key
//! is found by halving.
#![tactic(auto)]

use anyhow::Result;
use bplist::{
    Certificate, Checked, Face, FileSource, Found, Pages, Path, Source, check, face, locate,
};
use std::alloc::Global;

/// A text stands as it is, another value as `Debug` shows it.
fn look_up<S: Source>(alloc: Global, checked: &mut Checked<S>, path: &str) -> Result<String> {
    let path = Path::parse(alloc, path)?;
    Ok(match locate(checked, &path)? {
        Found::At(node) => match face(alloc, checked, node)? {
            Face::Text(units) => String::from_utf16_lossy(alloc, units.as_slice())?,
            other => format!(in alloc; "{other:?}")?,
        },
        Found::Missing { step, why } => format!(in alloc; "missing {step} {why:?}")?,
    })
}

fn main(rt: HostRuntime) -> Result<()> {
    let alloc = rt.alloc();
    let mut kept = FileSource::open(&rt, "Info.cert")?;
    let certificate = Certificate::from_source(alloc, &mut kept)?;
    let source = Pages::new(alloc, FileSource::open(&rt, "Info.plist")?)?;
    let mut checked = check(alloc, source, certificate).map_err(|refused| refused.0)?;
    for line in rt.lines(alloc) {
        match look_up(alloc, &mut checked, &line?) {
            Ok(shown) => println!(rt; "{shown}")?,
            Err(error) => println!(rt; "{error}")?,
        }
    }
    Ok(())
}
