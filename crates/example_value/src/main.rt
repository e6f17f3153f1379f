//! Prints one value of a file: `example_value FILE PATH`. The file is linted once. Then its certificate is kept beside
//! it, and the file is only checked. Nothing in the certificate is trusted.
#![tactic(auto)]

use anyhow::{Context, Result};
use bplist::{Certificate, FileSource, Path, Query, Reply, Window, answer, check, lint};
use std::env;
use std::fs::File;

/// Makes the certificate if none is kept.
fn certificate_of(rt: &HostRuntime, file: &str, beside: &str) -> Result<Certificate> {
    if let Ok(mut kept) = FileSource::open(rt, beside) {
        return Ok(Certificate::from_source(rt.alloc(), &mut kept)?);
    }
    let mut source = Window::new(FileSource::open(rt, file)?);
    let made = lint(rt.alloc(), &mut source)?.certificate;
    made.write_to(&mut File::create(rt, beside)?)?;
    Ok(made)
}

/// Returns what is at a path of a file.
fn value_at(rt: &HostRuntime, file: &str, path: &str) -> Result<Reply> {
    let path = Path::parse(rt.alloc(), path)?;
    let beside = format!(in rt.alloc(); "{file}.cert")?;
    let certificate = certificate_of(rt, file, &beside)?;
    let source = Window::new(FileSource::open(rt, file)?);
    let mut checked = check(rt.alloc(), source, certificate).map_err(|refused| refused.0)?;
    Ok(answer(rt.alloc(), &mut checked, &Query::Get(path))?)
}

fn main(rt: HostRuntime) -> Result<()> {
    let mut args = env::args(&rt)?.skip(1);
    let file = args.next().context("FILE is missing")?;
    let path = args.next().context("PATH is missing")?;
    let value = value_at(&rt, &file, &path)?;
    println!(rt; "{value:?}")?;
    Ok(())
}
