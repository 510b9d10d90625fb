//! The log of one copy.

ghost use Rattle.std.specs.Prelude.{◌≡◌, ℕ, ◌<◌, ◌≤◌, ◌+◌, ◌==◌, if◌then◌else◌, Some, [], ◌∷◌, ◌++◌, true, false, length, IfSome, IfOk, OnOk, OnErr, is_some, unwrap_or, option_copied, slice_get, ◌-◌, take, vec_len, vec_capacity};
ghost use Rattle.std.specs.HashMap.{spare};
ghost use Rattle.std.specs.Map.{lookup};
ghost use Rattle.entry_core.specs.Log.{Legal, decision, reply_in, is_in, ids};
ghost use Rattle.entry_core.specs.Fitting as fitting;
ghost use Rattle.entry_core.specs.Fitting.{are_new, decided_behind, fitted, last_id, part_of};
ghost use Rattle.std.specs.Option.{option_map};
ghost use Rattle.entry_core.specs.Drafts.{IsDraft, IsFound};
ghost use Rattle.entry_core.specs.Stored.{LeadsBack, Places, place_in};
ghost use Rattle.store_core.specs.Objects.{change_of};

use crate::draft::Draft;
use common_types::{Items, TryClone};
use std::alloc::{AllocError, Global};
use std::collections::{HashMap, HashSet};
use std::marker::Model;
use store_core::{Decided, Entry, Id, IdHash, ObjectChange, Objects, Reply, Sealed, decide};

/// The entries that one copy of a group holds, in order, with the objects that they make. Contracts see the entries.
///
/// Entries are found by their ids' hash, and objects by the hash of their names. Beside them the log keeps what the
/// last entry's object was before that entry. This is missing after a fit that dropped an entry and decided none.
pub struct Log {
    entries: Vec<Entry>,
    index: HashMap<Id, usize, IdHash>,
    objects: Objects,
    back: Option<ObjectChange>,
}

impl Drop for Log {
    fn drop(self) {
        let Log {
            entries: _,
            index: _,
            objects: _,
            back: _,
        } = self;
    }
}

impl Model for Log {
    ghost use Rattle.std.specs.Prelude.{List};
    ghost use Rattle.store_core.specs.declared.entry.Entry.{Entry};

    ghost Value = { List Entry };

    ghost use Rattle.entry_core.specs.Stored.{IsStored};

    ghost view = { λ l. l.entries.items };

    ghost invariant = { λ l. IsStored l.entries.items l.index.entries l.objects l.back };
}

impl Log {
    /// An empty log. It takes no memory.
    pub fn new(alloc: Global) -> Log
        ensures { result ≡ [] }
    {
        Log {
            entries: Vec::new(alloc),
            index: HashMap::with_hasher(alloc, IdHash::new()),
            objects: Objects::new(alloc),
            back: None,
        }
    }

    /// What it takes its memory from.
    pub fn allocator(&self) -> Global {
        *self.entries.allocator()
    }

    /// How many entries it has.
    pub fn len(&self) -> usize
        ensures { result ≡ length self.now }
    {
        self.entries.len()
    }

    /// Its entries in order.
    pub fn entries(&self) -> &[Entry]
        ensures { result.now ≡ self.now }
    {
        self.entries.as_slice()
    }

    /// Its last entry.
    pub fn last_entry(&self) -> Option<&Entry>
        ensures { option_copied result ≡ slice_get self.now (length self.now - 1) }
    {
        self.entries.as_slice().last()
    }

    /// The id of its last entry's request. It takes no memory.
    pub fn last(&self) -> Option<Id>
        ensures { result ≡ last_id self.now }
    {
        match self.last_entry() {
            None => None,
            Some(entry) => Some(entry.sealed.id()),
        }
    }

    /// Its requests after a place, which another log can be fitted to. They share their parts with the log.
    pub fn part(&self, from: usize) -> Result<Items<Sealed>, AllocError>
        requires { from ≤ length self.now }
        ensures { IfOk result (λ part. part ≡ part_of self.now from) }
    {
        requests_of(self.allocator(), &self.entries()[from..])
    }

    /// The reply to the request of an id, if the log has it.
    pub fn find(&self, id: Id) -> Option<&Reply>
        ensures { option_copied result ≡ reply_in self.now id }
    {
        match self.place_of(id) {
            None => None,
            Some(place) => Some(&self.entries()[place].reply),
        }
    }

    /// The reply to the request of an id, if the log has it before its last entry.
    pub fn find_before_last(&self, id: Id) -> Option<&Reply>
        ensures { option_copied result ≡ reply_in (take (length self.now - 1) self.now) id }
    {
        let last = self.len().saturating_sub(1);
        match self.place_of(id) {
            None => None,
            Some(place) if place < last => Some(&self.entries()[place].reply),
            Some(_) => None,
        }
    }

    /// Whether the log has the request of an id.
    pub fn contains(&self, id: Id) -> bool
        ensures { result ≡ is_in (ids self.now) id }
    {
        self.place_of(id).is_some()
    }

    // Where the entry of an id stands.
    fn place_of(&self, id: Id) -> Option<usize>
        ensures place { result ≡ place_in self.now id }
        ensures within { IfSome result (λ place. place < length self.now) }
    {
        self.index.get(&id).copied()
    }

    /// What becomes of a request at the end of this log. It costs what the request's own object costs, and a listing
    /// piece what all objects cost.
    pub fn decide(&self, sealed: &Sealed) -> Result<Decided, AllocError>
        ensures { IfOk result (λ d. d ≡ decision self.now sealed.now) }
    {
        decide(*self.entries.allocator(), &self.objects, sealed)
    }

    /// Adds what was decided on this log, under a new id. It copies no object.
    ///
    /// Where an allocation fails, the log stays as it was.
    pub fn push(&mut self, decided: Decided) -> Result<(), AllocError>
        requires here { decided ≡ decision self.old decided.entry.sealed }
        requires new { is_in (ids self.old) decided.entry.sealed.id ≡ false }
        ensures ok { OnOk result (self.new ≡ self.old ++ decided.entry ∷ []) }
        ensures err { OnErr result (self.new ≡ self.old) }
    {
        let (entry, left) = decided.into_parts();
        self.entries.reserve(1)?;
        self.index.reserve(1)?;
        let back = self.objects.change(entry.sealed.name(), left)?;
        append(&mut self.entries, &mut self.index, entry);
        self.back = Some(back);
        Ok(())
    }

    // Whether the request of an id stands among the first entries.
    fn is_before(&self, kept: usize, id: Id) -> bool
        ensures { result ≡ is_in (ids (take kept self.now)) id }
    {
        match self.place_of(id) {
            None => false,
            Some(place) => place < kept,
        }
    }

    // Whether no id stands twice where these requests come behind the first entries.
    fn are_new(&self, kept: usize, part: &[Sealed]) -> Result<bool, AllocError>
        ensures { IfOk result (λ new. new ≡ are_new (ids (take kept self.now)) part.now) }
    {
        let mut seen: HashSet<Id, IdHash> = HashSet::with_hasher(self.allocator(), IdHash::new());
        for sealed in part {
            let id = sealed.id();
            if self.is_before(kept, id) {
                return Ok(false);
            }
            if !seen.insert(id)? {
                return Ok(false);
            }
        }
        Ok(true)
    }

    // What the last entry's object was before it. Where that is not known, the earlier requests are decided again.
    fn last_back(&self) -> Result<ObjectChange, AllocError>
        requires { 0 < length self.now }
        ensures { IfOk result (λ back. LeadsBack self.now (Some back)) }
    {
        if let Some(back) = &self.back {
            return back.share();
        }
        let last = self.len() - 1;
        let earlier = decided_again(self.allocator(), &self.entries()[..last])?;
        let object = earlier.objects.shared(self.entries()[last].sealed.name())?;
        Ok(ObjectChange::Became(object))
    }

    // A draft of the first entries: all of them, or all but the last, whose object is put back.
    fn begin(&self, kept: usize, part: &[Sealed]) -> Result<Draft, AllocError>
        requires within { kept ≤ length self.now }
        requires one { length self.now ≤ kept + 1 }
        ensures draft { IfOk result (λ d. IsDraft self.now (take kept self.now) part.now d) }
        ensures entries { IfOk result (λ d. d.entries.items ≡ []) }
    {
        let alloc = self.allocator();
        let mut draft = Draft::new(alloc, self.objects.needed_by(alloc, part)?);
        if kept == self.len() {
            return Ok(draft);
        }
        let back = self.last_back()?;
        let _ = draft.change(self.entries()[kept].sealed.name(), back)?;
        Ok(draft)
    }

    // Decides requests behind the first `kept` entries, as a draft.
    fn draft(&self, kept: usize, part: &[Sealed]) -> Result<Draft, AllocError>
        requires within { kept ≤ length self.now }
        requires one { length self.now ≤ kept + 1 }
        ensures new { IfOk result (λ d. take kept self.now ++ d.entries.items ≡ decided_behind (take kept self.now) part.now) }
        ensures found { IfOk result (λ d. IsFound self.now (take kept self.now ++ d.entries.items) d.changes.items d.back) }
    {
        let mut draft = self.begin(kept, part)?;
        for sealed in part {
            draft.decide(self.allocator(), sealed)?;
        }
        Ok(draft)
    }

    // Does what was found. All that needs memory comes first.
    fn settle(&mut self, kept: usize, draft: Draft) -> Result<(), AllocError>
        requires within { kept ≤ length self.old }
        requires one { length self.old ≤ kept + 1 }
        requires legal { Legal (take kept self.old ++ draft.entries.items) }
        requires found { IsFound self.old (take kept self.old ++ draft.entries.items) draft.changes.items draft.back }
        ensures ok { OnOk result (self.new ≡ take kept self.old ++ draft.entries.items) }
        ensures err { OnErr result (self.new ≡ self.old) }
    {
        let (changes, entries, back) = draft.into_parts();
        self.entries.reserve(entries.len())?;
        self.index.reserve(entries.len())?;
        self.objects.change_all(changes)?;
        cut(&mut self.entries, &mut self.index, kept);
        append_all(&mut self.entries, &mut self.index, entries);
        self.back = back;
        Ok(())
    }

    // Decides requests behind the first entries, and drops the last entry where it is not one of these.
    fn decide_behind(&mut self, kept: usize, part: &[Sealed]) -> Result<bool, AllocError>
        requires within { kept ≤ length self.old }
        requires one { length self.old ≤ kept + 1 }
        ensures fits { IfOk result (λ fits. fits ≡ are_new (ids (take kept self.old)) part.now) }
        ensures log { IfOk result (λ fits. self.new ≡ (if fits then decided_behind (take kept self.old) part.now else self.old)) }
        ensures err { OnErr result (self.new ≡ self.old) }
    {
        if !self.are_new(kept, part)? {
            return Ok(false);
        }
        if kept == self.entries.len() && part.is_empty() {
            return Ok(true);
        }
        let draft = self.draft(kept, part)?;
        self.settle(kept, draft)?;
        Ok(true)
    }

    /// Fits the log to a part of another one, from a position on.
    ///
    /// It skips the part's first requests that this log has at the same positions, by their ids. It drops the entries
    /// behind them, then decides and adds the rest.
    ///
    /// It returns false, and changes nothing, where the position is behind the log's end, where more than one entry
    /// would be dropped, or where an id would occur twice. Where an allocation fails, nothing changes either.
    ///
    /// It costs what the part costs, and nothing in the log's length. Exception: where the last entry goes right after
    /// a fit that dropped one and decided none, the earlier requests are decided again.
    pub fn fit(&mut self, from: usize, part: &[Sealed]) -> Result<bool, AllocError>
        ensures fits { IfOk result (λ fits. fits ≡ is_some (fitted self.old from part.now)) }
        ensures log { OnOk result (self.new ≡ unwrap_or (fitted self.old from part.now) self.old) }
        ensures err { OnErr result (self.new ≡ self.old) }
    {
        if from > self.len() {
            return Ok(false);
        }
        let agreed = agreed(&self.entries()[from..], part);
        let kept = from + agreed;
        if self.len() > kept + 1 {
            return Ok(false);
        }
        self.decide_behind(kept, &part[agreed..])
    }
}

/// The requests of entries.
fn requests_of(alloc: Global, entries: &[Entry]) -> Result<Items<Sealed>, AllocError>
    ensures { IfOk result (λ requests. requests ≡ fitting.requests_of entries.now) }
{
    let mut requests = Vec::with_capacity(alloc, entries.len())?;
    for entry in entries {
        requests.push(entry.sealed.copy()?)?;
    }
    Ok(Items::from_vec(requests))
}

/// How many requests of a part these entries begin with.
fn agreed(entries: &[Entry], part: &[Sealed]) -> usize
    ensures agreed { result ≡ fitting.agreed entries.now part.now }
    ensures entries { result ≤ length entries.now }
    ensures part { result ≤ length part.now }
{
    let most = entries.len().min(part.len());
    for place in 0..most {
        if entries[place].sealed.id() != part[place].id() {
            return place;
        }
    }
    most
}

/// The log of these entries, whose requests are decided again.
fn decided_again(alloc: Global, entries: &[Entry]) -> Result<Log, AllocError>
    requires { Legal entries.now }
    ensures { IfOk result (λ log. log ≡ entries.now) }
{
    let mut log = Log::new(alloc);
    for entry in entries {
        let decided = log.decide(&entry.sealed)?;
        log.push(decided)?;
    }
    Ok(log)
}

/// Equal entries.
fn copy_entries(alloc: Global, entries: &[Entry]) -> Result<Vec<Entry>, AllocError>
    ensures { IfOk result (λ copy. copy.items ≡ entries.now) }
{
    let mut all = Vec::with_capacity(alloc, entries.len())?;
    for entry in entries {
        all.push(entry.copy()?)?;
    }
    Ok(all)
}

/// An equal change.
fn share(back: &Option<ObjectChange>) -> Result<Option<ObjectChange>, AllocError>
    ensures { IfOk result (λ copy. option_map change_of copy ≡ option_map change_of back.now) }
{
    match back {
        None => Ok(None),
        Some(back) => Ok(Some(back.share()?)),
    }
}

/// Adds an entry behind the others. There is room for it.
fn append(entries: &mut Vec<Entry>, index: &mut HashMap<Id, usize, IdHash>, entry: Entry)
    requires entries { vec_len entries.old < vec_capacity entries.old }
    requires index { 0 < spare index.old }
    ensures entries { entries.new.items ≡ entries.old.items ++ entry ∷ [] }
    ensures len { vec_len entries.new ≡ vec_len entries.old + 1 }
    ensures capacity { vec_capacity entries.new ≡ vec_capacity entries.old }
    ensures spare { spare index.old ≤ spare index.new + 1 }
    ensures index { (id : ℕ) → lookup (λ n. id == n) index.new.entries
        ≡ (if entry.sealed.id == id then Some (length entries.old.items) else lookup (λ n. id == n) index.old.entries) }
{
    let _ = index.insert(entry.sealed.id(), entries.len());
    entries.push_reserved(entry);
}

/// Drops the last entry, where there is one more than are kept.
fn cut(entries: &mut Vec<Entry>, index: &mut HashMap<Id, usize, IdHash>, kept: usize)
    requires within { kept ≤ vec_len entries.old }
    requires one { vec_len entries.old ≤ kept + 1 }
    requires legal { Legal entries.old.items }
    requires places { Places index.old.entries entries.old.items }
    ensures entries { entries.new.items ≡ take kept entries.old.items }
    ensures places { Places index.new.entries entries.new.items }
    ensures len { vec_len entries.new ≤ vec_len entries.old }
    ensures capacity { vec_capacity entries.new ≡ vec_capacity entries.old }
    ensures spare { spare index.old ≤ spare index.new }
{
    if kept == entries.len() {
        return;
    }
    if let Some(entry) = entries.pop() {
        let _ = index.remove(&entry.sealed.id());
    }
}

/// Adds entries behind the others. There is room for them.
fn append_all(entries: &mut Vec<Entry>, index: &mut HashMap<Id, usize, IdHash>, more: Vec<Entry>)
    requires entries { vec_len entries.old + vec_len more ≤ vec_capacity entries.old }
    requires index { vec_len more ≤ spare index.old }
    requires places { Places index.old.entries entries.old.items }
    requires new { are_new (ids entries.old.items) (fitting.requests_of more.items) ≡ true }
    ensures entries { entries.new.items ≡ entries.old.items ++ more.items }
    ensures places { Places index.new.entries entries.new.items }
{
    for entry in more {
        append(entries, index, entry);
    }
}

impl TryClone for Log {
    fn copy(&self) -> Result<Log, AllocError> {
        Ok(Log {
            entries: copy_entries(*self.entries.allocator(), self.entries.as_slice())?,
            index: self.index.clone()?,
            objects: self.objects.copy()?,
            back: share(&self.back)?,
        })
    }
}
