//! Rules, and the entities that they name.

ghost use Rattle.std.specs.Prelude.{◌≡◌, option_copied};
ghost use Rattle.std.specs.List.{list_any};
ghost use Rattle.rules_core.specs.Rules as spec;

use crate::demand::Demand;
use common_types::Name;
use rights_core::Rights;
use std::marker::Model;

/// Whom a rule is about: the entities that some of the names mean, without those that some of the exceptions mean.
#[derive(Debug)]
pub struct Who {
    /// Names of entities. One that ends in `*` means each name that begins with what is before that.
    pub names: Vec<Name>,
    pub except: Vec<Name>,
}

impl Drop for Who {
    fn drop(self) {
        let Who {
            names: _,
            except: _,
        } = self;
    }
}

/// A rule that entities of a cluster must keep.
#[derive(Debug, Drop)]
pub enum Rule {
    /// Each entity must do what is demanded for a region of requests.
    Each {
        demand: Demand,
        who: Who,
        region: Rights,
    },
    /// None of the ones writes what any of the others reads or writes, nor the other way round.
    Apart {
        ones: Who,
        others: Who,
    },
}

/// An entity: its name, and its rights if its text could be read.
#[derive(Drop)]
pub struct Subject<'a> {
    pub name: &'a str,
    pub rights: Option<&'a Rights>,
}

impl<'a> Model for Subject<'a> {
    ghost use Rattle.std.specs.Prelude.{option_copied};
    ghost use Rattle.rules_core.specs.Subject as seen;

    ghost Value = { seen.Subject };

    ghost view = { λ s. record { name = s.name.now; rights = option_copied s.rights } };
}

impl<'a> Subject<'a> {
    /// Its name.
    pub fn called(&self) -> &'a str
        ensures { result.now ≡ self.now.name }
    {
        self.name
    }

    /// Its rights, if its text could be read.
    pub fn read_rights(&self) -> Option<&'a Rights>
        ensures { option_copied result ≡ self.now.rights }
    {
        self.rights
    }
}

/// Whether a word ends in `*`.
fn is_open(word: &[u8]) -> bool
    ensures { result ≡ spec.is_open word.now }
{
    match word.last() {
        None => false,
        Some(byte) => *byte == b'*',
    }
}

/// Whether a word means a name.
fn means(word: &Name, name: &str) -> bool
    ensures { result ≡ spec.means word.now name.now }
{
    let bytes = word.as_str().as_bytes();
    if is_open(bytes) {
        name.as_bytes().starts_with(&bytes[..bytes.len() - 1])
    } else {
        word.as_str() == name
    }
}

/// Whether some word means a name.
fn some_mean(words: &[Name], name: &str) -> bool
    ensures { result ≡ list_any (λ word. spec.means word name.now) words.now }
{
    words.iter().any(|word| means(word, name))
}

impl Who {
    /// Whether an entity of a name is meant.
    pub fn selects(&self, name: &str) -> bool
        ensures { result ≡ spec.is_selected self.now name.now }
    {
        some_mean(self.names.as_slice(), name) && !some_mean(self.except.as_slice(), name)
    }

    /// Whether one of some entities is meant.
    pub(crate) fn selects_some(&self, subjects: &[Subject<'_>]) -> bool
        ensures { result ≡ spec.somebody self.now subjects.now }
    {
        subjects.iter().any(|subject| self.selects(subject.name))
    }
}

impl Rule {
    /// Whether the rule names an entity.
    pub fn concerns(&self, name: &str) -> bool
        ensures { result ≡ spec.concerns self.now name.now }
    {
        match self {
            Rule::Each { who, .. } => who.selects(name),
            Rule::Apart { ones, others } => ones.selects(name) || others.selects(name),
        }
    }

    /// Whether each side of the rule names one of some entities.
    pub(crate) fn is_of_somebody(&self, subjects: &[Subject<'_>]) -> bool
        ensures { result ≡ spec.is_of_somebody self.now subjects.now }
    {
        match self {
            Rule::Each { who, .. } => who.selects_some(subjects),
            Rule::Apart { ones, others } => {
                ones.selects_some(subjects) && others.selects_some(subjects)
            }
        }
    }
}
