//! Paths, and the texts that spell them (RFC 6901).

ghost use Rattle.std.specs.Prelude.{◌≡◌, ◌≢◌, ◌⊎◌, ◌++◌, [], ◌∷◌, List, ℕ, map, flat_map, IfOk, IfErr, MatchOption};
ghost use Rattle.std.specs.Prelude.{IsTrue, None, Some};
ghost use Rattle.bplist_objects.specs.FaultLines.{fault_line, memory_line};
ghost use Rattle.bplist_objects.specs.declared.rule.Rule.TheVariants.{PathText};
ghost use Rattle.bplist_cursor.specs.declared.path.PathFault.TheVariants.{Text, Memory};
ghost use Rattle.bplist_cursor.specs.Path.{IsPathOf, IsNoPath, IsLoose, escaped, units};
ghost use Rattle.bplist_cursor.specs.Tokens.{IsReadable, Reads, MeetsLoose, left, slash};
ghost use Rattle.bplist_cursor.specs.PathFaults.{OnText};

use std::alloc::{AllocError, AllocFailed, Global};
use std::error::Error;
use std::fmt;
use std::marker::Model;
use std::str::CharIndices;

/// Steps from a value into its parts, each a list of 16-bit units.
///
/// Contracts see the list of the steps.
#[derive(Debug, Drop)]
pub struct Path {
    steps: Vec<Vec<u16>>,
}

impl Model for Path {
    ghost Value = { List (List ℕ) };

    ghost view = { λ p. map (λ s. s.items) p.steps.items };
}

/// Why a path text could not be parsed.
#[derive(Clone, Copy, Debug, PartialEq, Eq)]
pub enum PathFault {
    /// The text does not spell a path.
    Text {
        /// The place of the wrong byte, from the start of the text.
        place: usize,
    },
    /// An allocation was refused.
    Memory,
}

impl fmt::Display for PathFault {
    ghost output = { λ refusal. Some (elim refusal [
      | Text place ↦ fault_line (record { rule = PathText; object = None; place = place })
      | Memory ↦ memory_line
    ]) };

    fn fmt<W: fmt::Write>(&self, f: &mut fmt::Formatter<W>) -> fmt::Result {
        match self {
            PathFault::Text { place } => write!(f, "fault PathText object none place {place}"),
            PathFault::Memory => f.write_str("memory"),
        }
    }
}

impl Error for PathFault {}

impl Path {
    /// Parses a path text by RFC 6901. The empty text has no steps. Any other begins with `/`, and each `/` begins a
    /// step. In a step, `~0` means `~` and `~1` means `/`.
    ///
    /// Errors: `Text` if the text does not spell a path. The place is byte 0 if a non-empty text does not begin with
    /// `/`, else that of the first `~` that is not followed by `0` or `1`. `Memory` if an allocation for the steps was
    /// refused.
    pub fn parse(alloc: Global, text: &str) -> Result<Path, PathFault>
        ensures steps { IfOk result (IsPathOf text.now) }
        ensures wrong { IfErr result (OnText (IsNoPath text.now)) }
    {
        let mut steps = Vec::new(alloc);
        let mut chars = text.char_indices();
        let Some((_, first)) = chars.next() else {
            return Ok(Path { steps });
        };
        if first != '/' {
            return Err(PathFault::Text { place: 0 });
        }
        let mut goes_on = true;
        while goes_on {
            let mut step = Vec::new(alloc);
            goes_on = read_token(&mut chars, &mut step)?;
            steps.push(step)?;
        }
        Ok(Path { steps })
    }

    /// Returns the path of these steps.
    pub fn from_steps(steps: Vec<Vec<u16>>) -> Path
        ensures { result ≡ map (λ s. s.items) steps.items }
    {
        Path { steps }
    }

    pub(crate) fn steps(&self) -> &[Vec<u16>]
        ensures { map (λ s. s.items) result.now ≡ self.now }
    {
        &self.steps
    }
}

/// Also consumes the `/` that follows the token, and returns whether there was one.
fn read_token(chars: &mut CharIndices<'_>, step: &mut Vec<u16>) -> Result<bool, PathFault>
    requires { IsReadable chars.old }
    ensures read { IfOk result (λ goes_on. (token : List ℕ) × Reads chars.old chars.new (flat_map escaped token ++ slash goes_on)
        × (step.new.items ≡ step.old.items ++ units token) × (IsTrue goes_on ⊎ (left chars.new ≡ []))) }
    ensures wrong { IfErr result (OnText (MeetsLoose chars.old)) }
{
    while let Some((place, c)) = chars.next() {
        if c == '/' {
            return Ok(true);
        }
        let Some(c) = unescape(c, chars) else {
            return Err(PathFault::Text { place });
        };
        let mut pair = [0; 2];
        step.extend_from_slice(c.encode_utf16(&mut pair))?;
    }
    Ok(false)
}

/// Returns None if what follows `~` is neither `0` nor `1`.
fn unescape(c: char, rest: &mut CharIndices<'_>) -> Option<char>
    requires readable { IsReadable rest.old }
    requires part { c ≢ 0x2F }
    ensures { MatchOption result (IsLoose (c ∷ left rest.old))
        (λ d. (more : List ℕ) × Reads rest.old rest.new more × (escaped d ≡ c ∷ more)) }
{
    if c != '~' {
        return Some(c);
    }
    let (_, digit) = rest.next()?;
    match digit {
        '0' => Some('~'),
        '1' => Some('/'),
        _ => None,
    }
}

impl From<AllocError> for PathFault {
    ghost use Rattle.bplist_cursor.specs.declared.path.PathFault.TheVariants.{Memory};

    ghost from_gives = { λ _ e. e ≡ Memory };

    fn from(_error: AllocError) -> PathFault {
        PathFault::Memory
    }
}

impl<T: Drop> From<AllocFailed<T>> for PathFault {
    ghost use Rattle.bplist_cursor.specs.declared.path.PathFault.TheVariants.{Memory};

    ghost from_gives = { λ _ e. e ≡ Memory };

    fn from(_error: AllocFailed<T>) -> PathFault {
        PathFault::Memory
    }
}
