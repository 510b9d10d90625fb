//! The marks of lines that may say something of requests.

ghost use Rattle.std.specs.Prelude.{◌≡◌, ◌↔◌, IsTrue};
ghost use Rattle.log_core.specs.Marks as spec;
ghost use Rattle.log_core.specs.Marks.{Has, HasOne};

use memchr::memmem::Finder;
use std::marker::Model;

/// A search for each mark of lines that may say something of requests.
#[derive(Drop)]
pub struct Marks {
    decision: Finder<'static>,
    operation: Finder<'static>,
    session: Finder<'static>,
}

impl Model for Marks {
    ghost use Rattle.std.specs.Prelude.{List, ℕ, [], ◌∷◌};

    ghost Value = { List (List ℕ) };

    ghost view = { λ m. m.decision ∷ m.operation ∷ m.session ∷ [] };
}

/// Whether what is searched for stands in some bytes.
fn is_in(bytes: &[u8], mark: &Finder<'static>) -> bool
    ensures { IsTrue result ↔ Has bytes.now mark.now }
{
    match mark.find(bytes) {
        Some(_) => true,
        None => false,
    }
}

impl Marks {
    /// The marks of a decision, of an operation that is taken up, and of a session that begins. It takes no memory.
    pub fn new() -> Marks
        ensures { result ≡ spec.marks }
    {
        Marks {
            decision: Finder::new(b"op_has_sufficient_caps session="),
            operation: Finder::new(b"do_op: op osd_op("),
            session: Finder::new(b" ms_handle_fast_authentication "),
        }
    }

    /// Whether a line has a mark. No other line says anything of requests.
    pub fn are_in(&self, line: &[u8]) -> bool
        ensures { IsTrue result ↔ HasOne line.now self.now }
    {
        is_in(line, &self.decision) || is_in(line, &self.operation) || is_in(line, &self.session)
    }
}
