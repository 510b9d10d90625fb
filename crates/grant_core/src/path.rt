//! Paths of grants.

ghost use Rattle.std.specs.Prelude.{◌≡◌, IfOk, Some};
ghost use Rattle.grant_core.specs.Text.{printed_path};

use common_types::OutOfMemory;
use std::alloc::Global;
use std::fmt;
use std::marker::Model;

/// Where a grant comes from, which contracts see as the list of numbers, each counted from 1.
///
/// The first number is that of a grant in the list that was expanded, and each further one is a number in the body of the
/// profile that is used there. It prints as decimals with dots between them, such as `2.1`.
#[derive(Debug, Drop)]
pub struct Path {
    numbers: Vec<usize>,
}

impl Model for Path {
    ghost use Rattle.std.specs.Prelude.{List, ℕ};

    ghost Value = { List ℕ };

    ghost view = { λ p. p.numbers.items };
}

impl Path {
    /// The path of these numbers.
    pub fn of(alloc: Global, numbers: &[usize]) -> Result<Path, OutOfMemory>
        ensures { IfOk result (λ path. path ≡ numbers.now) }
    {
        Ok(Path {
            numbers: Vec::from_slice(alloc, numbers)?,
        })
    }

    /// The numbers, the outermost first.
    pub fn as_slice(&self) -> &[usize]
        ensures { result.now ≡ self.now }
    {
        self.numbers.as_slice()
    }

    /// An equal path.
    pub fn copy(&self) -> Result<Path, OutOfMemory>
        ensures { IfOk result (λ path. path ≡ self.now) }
    {
        Ok(Path {
            numbers: self.numbers.clone()?,
        })
    }
}

impl fmt::Display for Path {
    ghost output = { λ path. Some (printed_path path) };

    fn fmt<W: fmt::Write>(&self, f: &mut fmt::Formatter<W>) -> fmt::Result {
        if let Some((first, others)) = self.as_slice().split_first() {
            write!(f, "{first}")?;
            for number in others {
                write!(f, ".{number}")?;
            }
        }
        Ok(())
    }
}
