//! What was read of the grant that a text is in.

ghost use Rattle.std.specs.Prelude.{◌≡◌, ◌++◌, ◌∷◌, [], None, Some, Ok};
ghost use Rattle.cap_grants.specs.declared.grant.Grant.TheVariants.{Allow, Profile};
ghost use Rattle.cap_grants.specs.Gives.{GivesIn};
ghost use Rattle.cap_text.specs.Assembly.{after_access, after_namespace, after_pool, ended, fresh, grant_of, made, no_more, wants_access, with_access};
ghost use Rattle.cap_text.specs.GrantBuilder.{empty_allow};
ghost use Rattle.cap_text.specs.Draft as heads;

use crate::stage::{ClauseSet, ValueFor};
use cap_grants::{
    Access, AllowGrant, FaultKind, Flags, Grant, Grants, NsMatch, Part, ProfileUse, Tag,
};
use common_types::Name;
use std::alloc::Global;
use std::marker::Model;
use std::mem;

/// What a draft is of.
#[derive(Clone, Copy)]
pub enum Kind {
    /// An `allow` whose access is still due.
    Open,
    /// An `allow` with its access.
    Allow,
    /// The use of the profile whose name the sheet holds.
    Profile,
}

fn no_name(alloc: Global) -> Name {
    Name::from_string(String::new(alloc))
}

fn empty_allow() -> AllowGrant
    ensures { result ≡ empty_allow }
{
    AllowGrant {
        access: Access::All,
        pool: None,
        namespace: None,
        prefix: None,
        tag: None,
    }
}

/// Puts a whole grant behind the others. It is not inlined, since room for one would be made at the end of each.
#[inline(never)]
fn end_whole(grant: &mut AllowGrant, done: &mut Grants) -> Result<(), FaultKind>
    ensures { GivesIn result done.new (Ok (done.old ++ Allow grant.old ∷ [])) }
{
    done.push(Grant::Allow(mem::replace(grant, empty_allow())))
}

/// No clause may come any more.
const NO_MORE: ClauseSet = ClauseSet {
    pool: false,
    namespace: false,
    prefix: false,
    tag: false,
};

const NO_FLAGS: Flags = Flags {
    read: false,
    write: false,
    class_read: false,
    class_write: false,
};

/// A draft in the form of the grant that it becomes; a word and a key that belong to a clause which is not whole; the clauses
/// that may still come, the flags that were read, and what the next value is for. Its access counts only where the kind says so.
///
/// A text has one, which is filled in place and emptied into the list at the end of each grant.
pub struct GrantBuilder {
    kind: Kind,
    profile: Name,
    grant: AllowGrant,
    word: Name,
    key: Part,
    may: ClauseSet,
    flags: Flags,
    slot: ValueFor,
}

impl Drop for GrantBuilder {
    #[inline(always)]
    fn drop(self) {
        let GrantBuilder {
            kind: _,
            profile: _,
            grant: _,
            word: _,
            key: _,
            may: _,
            flags: _,
            slot: _,
        } = self;
    }
}

impl Model for GrantBuilder {
    ghost use Rattle.cap_text.specs.GrantBuilder.{Page, page_of};

    ghost Value = { Page };

    ghost view = { λ s. page_of s.kind s.profile s.grant s.word s.key s.may s.flags s.slot };
}

impl GrantBuilder {
    /// An `allow` with nothing behind it, and no word.
    pub fn new(alloc: Global) -> GrantBuilder {
        GrantBuilder {
            kind: Kind::Open,
            profile: no_name(alloc),
            grant: empty_allow(),
            word: no_name(alloc),
            key: Part::Any,
            may: NO_MORE,
            flags: NO_FLAGS,
            slot: ValueFor::Profile,
        }
    }

    /// Makes it an `allow` with nothing behind it. Usually it already is one, so each part is tested before it is
    /// dropped.
    pub fn clear(&mut self)
        ensures { self.new ≡ record self.old { draft = fresh (heads.Allow None) } }
    {
        self.kind = Kind::Open;
        if self.grant.pool.is_some() {
            self.grant.pool = None;
        }
        if self.grant.namespace.is_some() {
            self.grant.namespace = None;
        }
        if self.grant.prefix.is_some() {
            self.grant.prefix = None;
        }
        if self.grant.tag.is_some() {
            self.grant.tag = None;
        }
    }

    /// Whether it is an `allow` whose access is still due.
    pub fn wants_access(&self) -> bool
        ensures { result ≡ wants_access self.now.draft.head }
    {
        matches!(self.kind, Kind::Open)
    }

    /// Gives it its access, by which it is an `allow` with one.
    pub fn set_access(&mut self, access: Access)
        ensures { self.new ≡ record self.old { draft = with_access self.old.draft access; access = access } }
    {
        self.grant.access = access;
        self.kind = Kind::Allow;
    }

    /// Makes it the use of the profile of this name.
    pub fn set_profile(&mut self, name: Name)
        ensures { self.new ≡ record self.old { draft = record self.old.draft { head = heads.Profile name }; profile = name } }
    {
        self.profile = name;
        self.kind = Kind::Profile;
    }

    /// Writes a pool clause's value.
    pub fn set_pool(&mut self, pool: Name)
        ensures { self.new ≡ record self.old { draft = record self.old.draft { pool = Some pool } } }
    {
        self.grant.pool = Some(pool);
    }

    /// Writes the namespaces of a clause.
    pub fn set_namespace(&mut self, namespace: NsMatch)
        ensures { self.new ≡ record self.old { draft = record self.old.draft { namespace = Some namespace } } }
    {
        self.grant.namespace = Some(namespace);
    }

    /// Writes the prefix of objects' names.
    pub fn set_prefix(&mut self, prefix: Name)
        ensures { self.new ≡ record self.old { draft = record self.old.draft { prefix = Some prefix } } }
    {
        self.grant.prefix = Some(prefix);
    }

    /// Writes a tag that is whole.
    pub fn set_tag(&mut self, tag: Tag)
        ensures { self.new ≡ record self.old { draft = record self.old.draft { tag = Some tag } } }
    {
        self.grant.tag = Some(tag);
    }

    /// Holds a word that belongs to a clause which is not whole.
    pub fn hold_word(&mut self, word: Name)
        ensures { self.new ≡ record self.old { word = word } }
    {
        self.word = word;
    }

    /// Holds the key of a tag.
    pub fn hold_key(&mut self, key: Part)
        ensures { self.new ≡ record self.old { key = key } }
    {
        self.key = key;
    }

    /// The word that it holds, for good.
    pub fn take_word(&mut self, alloc: Global) -> Name
        ensures word { result ≡ self.old.word }
        ensures others { self.new ≡ record self.old { word = self.new.word } }
    {
        mem::replace(&mut self.word, no_name(alloc))
    }

    /// The key that it holds, for good.
    pub fn take_key(&mut self) -> Part
        ensures key { result ≡ self.old.key }
        ensures others { self.new ≡ record self.old { key = self.new.key } }
    {
        mem::replace(&mut self.key, Part::Any)
    }

    /// The clauses that may still come.
    pub fn may(&self) -> &ClauseSet
        ensures { result.now ≡ self.now.may }
    {
        &self.may
    }

    /// Says which clauses may still come.
    pub fn set_may(&mut self, may: ClauseSet)
        ensures { self.new ≡ record self.old { may = may } }
    {
        self.may = may;
    }

    /// An access that comes first is followed by the clauses; one that follows them ends the grant.
    pub fn pass_access(&mut self)
        ensures { self.new ≡ record self.old { may = after_access self.old.may } }
    {
        if !self.may.pool {
            self.may = NO_MORE;
        }
    }

    /// Behind a pool neither it nor a tag may come.
    pub fn pass_pool(&mut self)
        ensures { self.new ≡ record self.old { may = after_pool self.old.may } }
    {
        self.may.pool = false;
        self.may.tag = false;
    }

    /// Behind a namespace neither it nor a pool may come.
    pub fn pass_namespace(&mut self)
        ensures { self.new ≡ record self.old { may = after_namespace self.old.may } }
    {
        self.may.pool = false;
        self.may.namespace = false;
    }

    /// Behind a prefix or a tag no clause may come.
    pub fn pass_last(&mut self)
        ensures { self.new ≡ record self.old { may = no_more } }
    {
        self.may = NO_MORE;
    }

    /// The flags that were read.
    pub fn flags(&self) -> Flags
        ensures { result ≡ self.now.flags }
    {
        self.flags
    }

    /// Keeps the flags that were read.
    pub fn set_flags(&mut self, flags: Flags)
        ensures { self.new ≡ record self.old { flags = flags } }
    {
        self.flags = flags;
    }

    /// What the next value is for.
    pub fn slot(&self) -> ValueFor
        ensures { result ≡ self.now.slot }
    {
        self.slot
    }

    /// Says what the next value is for.
    pub fn set_slot(&mut self, slot: ValueFor)
        ensures { self.new ≡ record self.old { slot = slot } }
    {
        self.slot = slot;
    }

    /// Puts the grant behind the others, where its access is there. The error is an access that is missing (C4), or a growth
    /// that was refused (C8).
    pub fn end_in(&mut self, alloc: Global, done: &mut Grants) -> Result<(), FaultKind>
        ensures { GivesIn result done.new (ended done.old (grant_of self.old.draft)) }
    {
        match self.kind {
            Kind::Open => Err(FaultKind::BadAccess),
            Kind::Allow => self.end_allow(done),
            Kind::Profile => self.end_profile(alloc, done),
        }
    }

    /// Puts an `allow` behind the others. Most name a pool at most: such a one is made where it stays.
    #[inline(always)]
    fn end_allow(&mut self, done: &mut Grants) -> Result<(), FaultKind>
        ensures { GivesIn result done.new (Ok (done.old ++ Allow (made self.old.draft self.old.access) ∷ [])) }
    {
        let access = match &self.grant {
            AllowGrant {
                access: Access::All,
                namespace: None,
                prefix: None,
                tag: None,
                ..
            } => Access::All,
            AllowGrant {
                access: Access::Flags(flags),
                namespace: None,
                prefix: None,
                tag: None,
                ..
            } => Access::Flags(*flags),
            _ => return end_whole(&mut self.grant, done),
        };
        done.push(Grant::Allow(AllowGrant {
            access,
            pool: self.grant.pool.take(),
            namespace: None,
            prefix: None,
            tag: None,
        }))
    }

    /// Puts the use of a profile behind the others.
    #[inline(never)]
    fn end_profile(&mut self, alloc: Global, done: &mut Grants) -> Result<(), FaultKind>
        ensures { GivesIn result done.new (Ok (done.old ++ Profile (record { name = self.old.profile; pool = self.old.draft.pool; namespace = self.old.draft.namespace }) ∷ [])) }
    {
        done.push(Grant::Profile(ProfileUse {
            name: mem::replace(&mut self.profile, no_name(alloc)),
            pool: self.grant.pool.take(),
            namespace: self.grant.namespace.take(),
        }))
    }
}
