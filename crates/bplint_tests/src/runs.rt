//! Runs of the engine.

ghost use Rattle.std.specs.Prelude.{◌≢◌, IfOk};
ghost use Rattle.bplint_engine.specs.Commands.{PrintsOnePath};

use bplint_engine::{Command, Verb, run_over};
use bplint_lines::{RunFault, Said};
use bplist_octets::ReadFault;
use std::alloc::{AllocError, Global};
use std::test::Fail;

/// The verb has no operands of its own.
pub(crate) fn plain(alloc: Global, verb: Verb) -> Command
    requires { verb ≢ Verb.Print }
    ensures { PrintsOnePath result }
{
    Command {
        verb,
        paths: Vec::new(alloc),
        limit: 0,
        hex: false,
        sorted: false,
    }
}

/// The limit is 10.
pub(crate) fn with_path(alloc: Global, verb: Verb, path: &str) -> Result<Command, AllocError>
    ensures { IfOk result PrintsOnePath }
{
    let path = String::from_str(alloc, path)?;
    Ok(Command {
        verb,
        paths: vec![in alloc; path]?,
        limit: 10,
        hex: false,
        sorted: false,
    })
}

/// Returns what was written, or the status and the line of the fault.
pub(crate) fn outcome(
    alloc: Global,
    answer: Result<Said, RunFault>,
    written: &[u8],
) -> Result<String, Fail> {
    match answer {
        Ok(Said::All) => Ok(format!(in alloc; "0 {}", String::from_utf8_lossy(alloc, written)?)?),
        Ok(Said::SomeMissing) => Ok(format!(in alloc;
            "1 {}",
            String::from_utf8_lossy(alloc, written)?
        )?),
        Err(fault) => {
            let status = fault.status();
            let line = fault.line(alloc)?;
            Ok(format!(in alloc; "{status} {line}\n")?)
        }
    }
}

/// Returns `None` if `certify` refuses the file.
pub(crate) fn certificate_of(alloc: Global, file: &[u8]) -> Option<Vec<u8>> {
    let mut out = Vec::new(alloc);
    let answer = run_over(alloc, &plain(alloc, Verb::Certify), file, b"", &mut out);
    answer.ok().map(|_| out)
}

/// The status and the line that bplint gives for a failed read.
pub(crate) fn line_of_read(fault: ReadFault) -> &'static str {
    match fault {
        ReadFault::Device => "3 read Device\n",
        ReadFault::Ended => "3 read Ended\n",
        ReadFault::TooManyTurns => "3 read TooManyTurns\n",
    }
}
