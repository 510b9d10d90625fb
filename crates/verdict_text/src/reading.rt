//! Capability texts that were read, each once.

ghost use Rattle.std.specs.Prelude.{◌≡◌, ◌≤◌, ◌++◌, None, length, IfOk, OnOk, string_bytes};
ghost use Rattle.grant_core.specs.BuiltIn.{built_in};
ghost use Rattle.verdict_text.specs.Reading.{AreGrantsOf, IsCephListReading, IsCephReading, IsCephRights, IsCephTextReading, IsCounted, IsListReading, IsNetworkOf, IsProjectReading, IsReading};
ghost use Rattle.verdict_text.specs.Reading as spec;
ghost use Rattle.verdict_text.specs.Spelled.{IsCephListSpelling, IsCephSpelling, IsCephTextSpelling, IsKept, IsListSpelling, IsProjectSpelling, IsSpelling};

use cap_text::{CapFault, CapList, FaultKind, parse};
use ceph_text::{CephEntry, CephFault, CephList, expand_ceph};
use common_types::{Name, OutOfMemory};
use grant_core::{ExpandFault, ProfileTable, expand};
use network_core::Network;
use rights_core::Rights;
use std::alloc::{AllocError, Global};
use std::fmt;
use std::marker::Model;
use verdict_core::Ticket;

/// By whose rules capability texts are read and expanded.
#[derive(Clone, Copy, Debug, PartialEq, Eq)]
pub enum Rules {
    /// This project's, which scripts and worlds use.
    Project,
    /// Those of Ceph 16.2.15, as measured.
    Ceph,
}

/// Why a capability text grants nothing. It prints as the fault that it is, which begins with the fault's number.
#[derive(Clone, Copy, Debug)]
pub enum TextFault {
    /// By this project's rules it spells no list: its first fault, and the byte of it.
    Spelling(CapFault),
    /// By this project's rules it spells a list that the built-in profiles do not expand.
    Expansion(ExpandFault),
    /// By Ceph's rules it is not read. It is never out of memory.
    Unread(CephFault),
}

impl fmt::Display for TextFault {
    ghost use Rattle.std.specs.Prelude.{Some};
    ghost use Rattle.verdict_text.specs.Reading.{fault_text};

    ghost output = { λ fault. Some (fault_text fault) };

    fn fmt<W: fmt::Write>(&self, f: &mut fmt::Formatter<W>) -> fmt::Result {
        match self {
            TextFault::Spelling(fault) => write!(f, "{fault}"),
            TextFault::Expansion(fault) => write!(f, "{fault}"),
            TextFault::Unread(fault) => write!(f, "{fault}"),
        }
    }
}

impl TextFault {
    /// The byte of the text at which the fault is, counted from 0, if it has one.
    pub fn byte(&self) -> Option<usize>
        ensures { result ≡ spec.fault_byte self.now }
    {
        match self {
            TextFault::Spelling(fault) => Some(fault.at),
            TextFault::Unread(CephFault::Refused { at }) => Some(*at),
            TextFault::Expansion(_)
            | TextFault::Unread(
                CephFault::TooLong
                | CephFault::TooManyGrants
                | CephFault::TooLarge
                | CephFault::OutOfMemory,
            ) => None,
        }
    }
}

/// What is before the first blank of a text.
pub fn first_word(text: &str) -> &str
    ensures { result.now ≡ spec.first_word text.now }
{
    match text.split_once(' ') {
        Some((word, _)) => word,
        None => text,
    }
}

/// Adds a fault's number, with which its printed form begins. Out of memory may leave a beginning of it.
pub fn push_fault_number(
    text: &mut String,
    alloc: Global,
    fault: TextFault,
) -> Result<(), OutOfMemory>
    ensures { OnOk result (string_bytes text.new ≡ string_bytes text.old ++ spec.fault_number fault) }
{
    let printed = format!(in alloc; "{fault}")?;
    text.push_str(first_word(printed.as_str()))
}

/// The rights of a text, or why it has none.
pub type Reading = Result<Rights, TextFault>;

/// What a capability text spells.
#[derive(Debug, Drop)]
pub enum Spelled {
    /// Nothing that is kept. Nothing is spelled by a text with a fault, and by the empty text where Ceph's rules read it.
    Nothing,
    /// This list, by this project's rules.
    Listed(CapList),
    /// This many grants, by Ceph's rules.
    Counted(usize),
}

/// The rights of a text or its fault, and what it spells.
#[derive(Drop)]
struct SpelledReading {
    read: Reading,
    spelled: Spelled,
}

impl SpelledReading {
    /// That of a text with a fault.
    fn refused(fault: TextFault) -> SpelledReading
        ensures { result ≡ record { read = Err fault; spelled = Spelled.Nothing } }
    {
        SpelledReading {
            read: Err(fault),
            spelled: Spelled::Nothing,
        }
    }

    /// The rights or the fault alone.
    fn into_read(self) -> Reading
        ensures { result ≡ self.read }
    {
        let SpelledReading { read, spelled: _ } = self;
        read
    }
}

/// The rights of a list by this project's rules, or why it is not expanded.
fn read_list(
    alloc: Global,
    profiles: &ProfileTable,
    list: CapList,
    until: Option<u64>,
) -> Result<SpelledReading, OutOfMemory>
    requires { profiles.now ≡ built_in }
    ensures read { IfOk result (λ whole. IsListReading list until whole.read) }
    ensures spelled { IfOk result (λ whole. IsListSpelling list until whole.read whole.spelled) }
{
    match expand(alloc, profiles, &list) {
        Ok(tree) => Ok(SpelledReading {
            read: Ok(Rights::of(alloc, tree, until)),
            spelled: Spelled::Listed(list),
        }),
        Err(ExpandFault::OutOfMemory) => Err(AllocError),
        Err(fault) => Ok(SpelledReading::refused(TextFault::Expansion(fault))),
    }
}

/// The rights of a text by this project's rules.
fn read_project(
    alloc: Global,
    profiles: &ProfileTable,
    text: &str,
    until: Option<u64>,
) -> Result<SpelledReading, OutOfMemory>
    requires { profiles.now ≡ built_in }
    ensures read { IfOk result (λ whole. IsProjectReading text.now until whole.read) }
    ensures spelled { IfOk result (λ whole. IsProjectSpelling text.now until whole.read whole.spelled) }
{
    match parse(alloc, text) {
        Ok(list) => read_list(alloc, profiles, list, until),
        Err(
            CapFault {
                kind: FaultKind::OutOfMemory,
                ..
            },
        ) => Err(AllocError),
        Err(fault) => Ok(SpelledReading::refused(TextFault::Spelling(fault))),
    }
}

/// The network that the text of a clause writes, if there is a clause.
fn network_of(text: &Option<Name>) -> Option<Network>
    ensures { IsNetworkOf text.now result }
{
    match text {
        None => None,
        Some(text) => Some(Network::parse(text.as_str().as_bytes())),
    }
}

/// The rights of grants that Ceph's profiles expanded.
#[tactic(auto, using(crate::proofs::CephGrants::one_more))]
pub(crate) fn rights_of_entries(
    alloc: Global,
    entries: Vec<CephEntry>,
    until: Option<u64>,
) -> Result<Rights, OutOfMemory>
    requires { length entries.items ≤ 16384 }
    ensures { IfOk result (λ rights. AreGrantsOf entries.items rights.grants × (rights.until ≡ until)) }
{
    let mut grants = Vec::with_capacity(alloc, entries.len())?;
    let mut networks = Vec::with_capacity(alloc, entries.len())?;
    for entry in entries {
        let (path, text, grant) = entry.into_parts();
        networks.push(network_of(&text))?;
        grants.push((path, grant))?;
    }
    Ok(Rights::from_grants(grants, networks, until))
}

/// The rights of a list by Ceph's rules, or that it expands to too many grants.
fn read_ceph_list(
    alloc: Global,
    list: &CephList,
    until: Option<u64>,
) -> Result<Reading, OutOfMemory>
    ensures { IfOk result (IsCephListReading list.now until) }
{
    match expand_ceph(alloc, list) {
        Ok(entries) => Ok(Ok(rights_of_entries(alloc, entries, until)?)),
        Err(CephFault::OutOfMemory) => Err(AllocError),
        Err(_) => Ok(Err(TextFault::Unread(CephFault::TooLarge))),
    }
}

/// The rights of a list by Ceph's rules with its number of grants, or that it expands to too many.
fn spelled_ceph_list(
    alloc: Global,
    list: &CephList,
    until: Option<u64>,
) -> Result<SpelledReading, OutOfMemory>
    ensures read { IfOk result (λ whole. IsCephListReading list.now until whole.read) }
    ensures spelled { IfOk result (λ whole. IsCephListSpelling list.now whole.read whole.spelled) }
{
    let grants = list.grants();
    match read_ceph_list(alloc, list, until)? {
        Ok(rights) => Ok(SpelledReading {
            read: Ok(rights),
            spelled: Spelled::Counted(grants.len()),
        }),
        Err(fault) => Ok(SpelledReading::refused(fault)),
    }
}

/// The rights of a text that is not empty, by Ceph's rules.
fn read_ceph_text(
    alloc: Global,
    text: &str,
    until: Option<u64>,
) -> Result<SpelledReading, OutOfMemory>
    ensures read { IfOk result (λ whole. IsCephTextReading text.now until whole.read) }
    ensures spelled { IfOk result (λ whole. IsCephTextSpelling text.now whole.read whole.spelled) }
{
    match ceph_text::read(alloc, text) {
        Ok(list) => spelled_ceph_list(alloc, &list, until),
        Err(CephFault::OutOfMemory) => Err(AllocError),
        Err(fault) => Ok(SpelledReading::refused(TextFault::Unread(fault))),
    }
}

/// The rights of a text by Ceph's rules. No text grants nothing, which is no fault.
fn read_ceph(alloc: Global, text: &str, until: Option<u64>) -> Result<SpelledReading, OutOfMemory>
    ensures read { IfOk result (λ whole. IsCephReading text.now until whole.read) }
    ensures spelled { IfOk result (λ whole. IsCephSpelling text.now whole.read whole.spelled) }
{
    if text.is_empty() {
        return Ok(SpelledReading {
            read: Ok(Rights::from_ticket(alloc, Ticket::empty(alloc, until))),
            spelled: Spelled::Nothing,
        });
    }
    read_ceph_text(alloc, text, until)
}

/// A text that Ceph reads: how many grants it has, at most 4,096, and the rights that they expand to.
#[derive(Debug)]
pub struct CephRights {
    pub count: usize,
    pub rights: Rights,
}

impl Drop for CephRights {
    fn drop(self) {
        let CephRights {
            count: _,
            rights: _,
        } = self;
    }
}

/// How many grants a list has, and the rights that they expand to; or the fault that these are too many.
fn counted(alloc: Global, list: &CephList) -> Result<Result<CephRights, TextFault>, OutOfMemory>
    ensures { IfOk result (IsCounted list.now) }
{
    let grants = list.grants();
    match read_ceph_list(alloc, list, None)? {
        Ok(rights) => Ok(Ok(CephRights {
            count: grants.len(),
            rights,
        })),
        Err(fault) => Ok(Err(fault)),
    }
}

/// Reads a capability text by Ceph's rules, as `Reader::read` does, and counts its grants. The empty text is one that Ceph refuses.
/// An `Err` is out of memory alone.
pub fn read_ceph_rights(
    alloc: Global,
    text: &str,
) -> Result<Result<CephRights, TextFault>, OutOfMemory>
    ensures { IfOk result (IsCephRights text.now) }
{
    match ceph_text::read(alloc, text) {
        Ok(list) => counted(alloc, &list),
        Err(CephFault::OutOfMemory) => Err(AllocError),
        Err(fault) => Ok(Err(TextFault::Unread(fault))),
    }
}

/// Reads capability texts by one set of rules. It has what that needs, which is made once for all texts.
pub struct Reader {
    rules: Rules,
    profiles: ProfileTable,
}

impl Drop for Reader {
    fn drop(self) {
        let Reader {
            rules: _,
            profiles: _,
        } = self;
    }
}

impl Model for Reader {
    ghost use Rattle.std.specs.Prelude.{◌≡◌};
    ghost use Rattle.grant_core.specs.BuiltIn.{built_in};
    ghost use Rattle.verdict_text.specs.declared.reading.Rules.{Rules};

    ghost Value = { Rules };

    ghost view = { λ r. r.rules };

    ghost invariant = { λ r. r.profiles ≡ built_in };
}

impl Reader {
    /// A reader by these rules. The only error is out of memory.
    pub fn of(alloc: Global, rules: Rules) -> Result<Reader, OutOfMemory>
        ensures { IfOk result (λ reader. reader ≡ rules) }
    {
        Ok(Reader {
            rules,
            profiles: ProfileTable::builtin(alloc)?,
        })
    }

    /// The rules by which it reads.
    pub fn rules(&self) -> Rules
        ensures { result ≡ self.now }
    {
        self.rules
    }

    /// The built-in profiles, which a reader makes once.
    pub fn profiles(&self) -> &ProfileTable
        ensures { result.now ≡ built_in }
    {
        &self.profiles
    }

    /// Reads a capability text: its rights or its first fault, and what it spells.
    fn spelled(
        &self,
        alloc: Global,
        text: &str,
        until: Option<u64>,
    ) -> Result<SpelledReading, OutOfMemory>
        ensures read { IfOk result (λ whole. IsReading self.now text.now until whole.read) }
        ensures spelled { IfOk result (λ whole. IsSpelling self.now text.now until whole.read whole.spelled) }
    {
        match self.rules {
            Rules::Project => read_project(alloc, &self.profiles, text, until),
            Rules::Ceph => read_ceph(alloc, text, until),
        }
    }

    /// Reads a capability text: its rights, which end at tick `until`, if at any, or its first fault. An `Err` is out of
    /// memory alone.
    pub fn read(
        &self,
        alloc: Global,
        text: &str,
        until: Option<u64>,
    ) -> Result<Reading, OutOfMemory>
        ensures { IfOk result (IsReading self.now text.now until) }
    {
        let whole = self.spelled(alloc, text, until)?;
        Ok(whole.into_read())
    }
}

/// A capability text that was read: the text, its rights or its first fault, and what it spells.
#[derive(Debug)]
pub struct ReadText {
    rules: Rules,
    text: String,
    until: Option<u64>,
    read: Reading,
    spelled: Spelled,
}

impl Drop for ReadText {
    fn drop(self) {
        let ReadText {
            rules: _,
            text: _,
            until: _,
            read: _,
            spelled: _,
        } = self;
    }
}

impl Model for ReadText {
    ghost use Rattle.std.specs.Prelude.{string_bytes};
    ghost use Rattle.verdict_text.specs.Reading.{IsReading};
    ghost use Rattle.verdict_text.specs.Reading as seen;
    ghost use Rattle.verdict_text.specs.Spelled.{IsKept};

    ghost Value = { seen.ReadText };

    ghost view = { λ t. record { rules = t.rules; text = string_bytes t.text; until = t.until; read = t.read } };

    ghost invariant = { λ t. IsReading t.rules (string_bytes t.text) t.until t.read × IsKept t.rules (string_bytes t.text) t.until t.read t.spelled };
}

impl ReadText {
    /// Reads a capability text and keeps it and what it spells, as [`Reader::read`] does. An `Err` is out of memory alone, and drops the text.
    #[tactic(auto, using(crate::proofs::KeptSpelling::kept))]
    pub fn of(
        alloc: Global,
        reader: &Reader,
        text: String,
        until: Option<u64>,
    ) -> Result<ReadText, OutOfMemory>
        ensures rules { IfOk result (λ read. read.rules ≡ reader.now) }
        ensures text { IfOk result (λ read. read.text ≡ string_bytes text) }
        ensures until { IfOk result (λ read. read.until ≡ until) }
    {
        let SpelledReading { read, spelled } = reader.spelled(alloc, text.as_str(), until)?;
        Ok(ReadText {
            rules: reader.rules,
            text,
            until,
            read,
            spelled,
        })
    }

    /// The rules by which it was read.
    pub fn rules(&self) -> Rules
        ensures { result ≡ self.now.rules }
    {
        self.rules
    }

    /// A text whose rights never end, or its fault, as these rules read it. Nothing is kept of what it spells.
    pub(crate) fn from_reading(rules: Rules, text: String, read: Reading) -> ReadText
        requires { IsReading rules (string_bytes text) None read }
        ensures { result ≡ record { rules = rules; text = string_bytes text; until = None; read = read } }
    {
        ReadText {
            rules,
            text,
            until: None,
            read,
            spelled: Spelled::Nothing,
        }
    }

    /// The text.
    pub fn text(&self) -> &str
        ensures { result.now ≡ self.now.text }
    {
        self.text.as_str()
    }

    /// Its rights, or why it has none.
    pub fn read(&self) -> &Reading
        ensures is { result.now ≡ self.now.read }
        ensures of_text { IsReading self.now.rules self.now.text self.now.until self.now.read }
    {
        &self.read
    }
    /// What it spells, as far as that is kept.
    pub fn spelled(&self) -> &Spelled
        ensures { IsKept self.now.rules self.now.text self.now.until self.now.read result.now }
    {
        &self.spelled
    }
}
