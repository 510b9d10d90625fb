//! The users and their commands.

ghost use Rattle.std.specs.Prelude.{◌≡◌, ◌≤◌, [], true, false, IfOk, IfErr, OnOk, OnErr, IfSome, IsNone, length};
ghost use Rattle.std.specs.List.Sorted.{IsStrictlySortedBy};
ghost use Rattle.std.specs.List.{All};
ghost use Rattle.std.specs.Map.{keys_of, values_of};
ghost use Rattle.std.specs.Ordering.{nat_cmp};
ghost use Rattle.std.specs.Cmp.Lexicographic.{slice_cmp};
ghost use Rattle.auth_db.specs.Entries.{users_of};
ghost use Rattle.common_types.specs.Refused.{RefusedFirst};
ghost use Rattle.auth_db.specs.Refusals.{again, auth_refusal, Judged, RefusalsAreTheTexts, RefusedOrMemory};
ghost use Rattle.common_types.specs.Refused.{RefusedExactly};
ghost use Rattle.auth_db.specs.Refusals as spec;
ghost use Rattle.auth_db.specs.Names.{is_user_name};
ghost use Rattle.auth_db.specs.Texts.{IsGood, has_long_text};
ghost use Rattle.auth_db.specs.Users.{user_at, users_after, after, Add, GetOrCreate, SetCaps, Delete, GoesByStep, HasTicket};

use crate::caps::Caps;
use crate::fault::AuthFault;
use crate::name::is_user_name;
use crate::osd_texts::{check_osd, osd_ticket};
use crate::users::{Users, count, find, has_user, names, put, take};
use cap_text::{CapFault, FaultKind};
use common_types::Name;
use grant_core::ProfileTable;
use std::alloc::Global;
use std::collections::BTreeMap;
use std::marker::Model;
use verdict_core::Ticket;

/// The most users that there may be.
const MAX_USERS: usize = 1024;

/// What a call of `get_or_create` found.
#[derive(Clone, Copy, Debug, PartialEq, Eq)]
pub enum Creation {
    /// There was no user of the name, and now there is.
    Made,
    /// The user was there.
    There,
}

/// The users, at most 1,024, each with its texts, and the profiles that osd texts may use.
///
/// Contracts see the table of profiles and the list of the users by their names' bytes. Each name is a user's name, no
/// text has more than 4,096 bytes, and the osd text of each user spells a list of grants that is expanded with the
/// table. Names are found by search.
pub struct AuthDb {
    alloc: Global,
    table: ProfileTable,
    users: Users,
}

impl Drop for AuthDb {
    fn drop(self) {
        let AuthDb {
            alloc: _,
            table: _,
            users: _,
        } = self;
    }
}

impl Model for AuthDb {
    ghost use Rattle.auth_db.specs.Users.{Database, IsKept};
    ghost use Rattle.auth_db.specs.Entries.{users_of};

    ghost Value = { Database };

    ghost view = { λ a. record { table = a.table; users = users_of a.users.entries } };

    ghost invariant = { λ a. IsKept a.table (users_of a.users.entries) };
}

impl AuthDb {
    /// No users. It takes no memory.
    pub fn new(alloc: Global, table: ProfileTable) -> AuthDb
        ensures table { result.table ≡ table }
        ensures users { result.users ≡ users_after [] }
    {
        AuthDb {
            alloc,
            table,
            users: BTreeMap::new(alloc),
        }
    }

    /// Adds a user.
    ///
    /// It is refused by the first of these that holds: A1 the name is not valid; A2 the user exists; A8 there are 1,024
    /// users; A5 a text is too long, or the osd text spells no list; A6 its list is not expanded; A7 out of memory.
    pub fn add(&mut self, name: &str, caps: Caps) -> Result<(), AuthFault>
        ensures added { OnOk result (self.new ≡ after self.old (Add name.now caps)) }
        ensures judged { Judged (spec.add_refusal self.old.users name.now caps) self.old.table caps.osd result }
        ensures refused { RefusedOrMemory (auth_refusal self.old (Add name.now caps)) result }
        ensures unchanged { OnErr result (self.new ≡ self.old) }
    {
        if let Some(fault) = add_refusal(&self.users, name, &caps) {
            return Err(fault);
        }
        if let Err(fault) = check_osd(self.alloc, &self.table, &caps.osd) {
            return Err(fault);
        }
        put(self.alloc, &mut self.users, name, caps)?;
        Ok(())
    }

    /// Makes a user, or finds it where no texts are given or just those that it has.
    ///
    /// It is refused by A1 where the name is not valid, by A4 where the user exists with other texts, and otherwise as
    /// `add` is.
    pub fn get_or_create(&mut self, name: &str, caps: Caps) -> Result<Creation, AuthFault>
        ensures stepped { OnOk result (self.new ≡ after self.old (GetOrCreate name.now caps)) }
        ensures there { IfSome (user_at self.old.users name.now) (λ stored. result ≡ again name.now stored caps) }
        ensures made { IsNone (user_at self.old.users name.now) → IfOk result (λ creation. creation ≡ Creation.Made) }
        ensures judged { IsNone (user_at self.old.users name.now)
            → Judged (spec.add_refusal self.old.users name.now caps) self.old.table caps.osd result }
        ensures refused { RefusedOrMemory (auth_refusal self.old (GetOrCreate name.now caps)) result }
        ensures unchanged { OnErr result (self.new ≡ self.old) }
    {
        if let Some(stored) = find(&self.users, name) {
            return found_again(name, stored, &caps);
        }
        match self.add(name, caps) {
            Ok(()) => Ok(Creation::Made),
            Err(fault) => Err(fault),
        }
    }

    /// Replaces all four texts of a user.
    ///
    /// It is refused by the first of these that holds: A1 the name is not valid; A3 there is no such user; A5 a text is
    /// too long, or the osd text spells no list; A6 its list is not expanded; A7 out of memory.
    pub fn caps(&mut self, name: &str, caps: Caps) -> Result<(), AuthFault>
        ensures put { OnOk result (self.new ≡ after self.old (SetCaps name.now caps)) }
        ensures judged { Judged (spec.caps_refusal self.old.users name.now caps) self.old.table caps.osd result }
        ensures refused { RefusedOrMemory (auth_refusal self.old (SetCaps name.now caps)) result }
        ensures unchanged { OnErr result (self.new ≡ self.old) }
    {
        if let Some(fault) = caps_refusal(&self.users, name, &caps) {
            return Err(fault);
        }
        if let Err(fault) = check_osd(self.alloc, &self.table, &caps.osd) {
            return Err(fault);
        }
        put(self.alloc, &mut self.users, name, caps)?;
        Ok(())
    }

    /// Removes a user. It allocates nothing.
    ///
    /// It is refused by A1 where the name is not valid, and by A3 where there is no such user.
    pub fn del(&mut self, name: &str) -> Result<(), AuthFault>
        ensures removed { OnOk result (self.new ≡ after self.old (Delete name.now)) }
        ensures refused { RefusedExactly (auth_refusal self.old (Delete name.now)) result }
        ensures unchanged { OnErr result (self.new ≡ self.old) }
    {
        if !is_user_name(name) {
            return Err(AuthFault::BadName);
        }
        if take(&mut self.users, name) {
            Ok(())
        } else {
            Err(AuthFault::NoEntity)
        }
    }

    /// The texts of a user. It allocates nothing.
    ///
    /// It is refused by A1 where the name is not valid, and by A3 where there is no such user.
    pub fn get(&self, name: &str) -> Result<&Caps, AuthFault>
        ensures found { IfOk result (λ caps. user_at self.now.users name.now ≡ Some caps.now) }
        ensures good { IfOk result (λ caps. IsGood self.now.table caps.now.osd) }
        ensures short { IfOk result (λ caps. has_long_text caps.now ≡ false) }
        ensures refused { RefusedExactly (spec.known_refusal self.now.users name.now) result }
    {
        if !is_user_name(name) {
            return Err(AuthFault::BadName);
        }
        match find(&self.users, name) {
            Some(caps) => Ok(caps),
            None => Err(AuthFault::NoEntity),
        }
    }

    /// The names of the users, in the order of their bytes. It is refused by A7 alone.
    pub fn list(&self) -> Result<Vec<Name>, AuthFault>
        ensures names { IfOk result (λ names. names.items ≡ keys_of self.now.users) }
        ensures sorted { IsStrictlySortedBy (slice_cmp nat_cmp) (keys_of self.now.users) }
        ensures few { length self.now.users ≤ 1024 }
        ensures named { All (λ name. is_user_name name ≡ true) (keys_of self.now.users) }
        ensures short { All (λ caps. has_long_text caps ≡ false) (values_of self.now.users) }
        ensures refused { IfErr result (λ fault. fault ≡ AuthFault.OutOfMemory) }
    {
        match names(self.alloc, &self.users) {
            Ok(names) => Ok(names),
            Err(_) => Err(AuthFault::OutOfMemory),
        }
    }

    /// The ticket of a user, until a tick or for ever: the grants that its osd text expands to with the table.
    /// Without an osd text the ticket has no grants.
    ///
    /// It is refused by A1 where the name is not valid, by A3 where there is no such user, and by A7 where an
    /// allocation fails.
    pub fn ticket(&self, name: &str, until: Option<u64>) -> Result<Ticket, AuthFault>
        ensures ticket { IfOk result (λ ticket. HasTicket self.now name.now until ticket) }
        ensures refused { RefusedFirst (spec.known_refusal self.now.users name.now) AuthFault.OutOfMemory result }
    {
        if !is_user_name(name) {
            return Err(AuthFault::BadName);
        }
        match find(&self.users, name) {
            None => Err(AuthFault::NoEntity),
            Some(caps) => match osd_ticket(self.alloc, &self.table, &caps.osd, until) {
                Ok(ticket) => Ok(ticket),
                Err(_) => Err(AuthFault::OutOfMemory),
            },
        }
    }
}

/// The law that one more command is one more step of the users.
pub fn goes_by_step()
    ensures { GoesByStep }
{}

/// The law that an osd text is refused by the function of contracts just where it is not good. It does nothing.
pub fn refusals_are_the_texts()
    ensures { RefusalsAreTheTexts }
{}

// Why a user is not added, before its osd text is read.
fn add_refusal(users: &Users, name: &str, caps: &Caps) -> Option<AuthFault>
    ensures { result ≡ spec.add_refusal (users_of users.now.entries) name.now caps.now }
{
    if !is_user_name(name) {
        return Some(AuthFault::BadName);
    }
    if has_user(users, name) {
        return Some(AuthFault::Exists);
    }
    if count(users) >= MAX_USERS {
        return Some(AuthFault::Limit);
    }
    long_text(caps)
}

// Why a user's texts are not changed, before its osd text is read.
fn caps_refusal(users: &Users, name: &str, caps: &Caps) -> Option<AuthFault>
    ensures { result ≡ spec.caps_refusal (users_of users.now.entries) name.now caps.now }
{
    if !is_user_name(name) {
        return Some(AuthFault::BadName);
    }
    if !has_user(users, name) {
        return Some(AuthFault::NoEntity);
    }
    long_text(caps)
}

// The refusal of a text that is too long.
fn long_text(caps: &Caps) -> Option<AuthFault>
    ensures { result ≡ spec.long_refusal caps.now }
{
    if caps.is_too_long() {
        Some(AuthFault::BadCaps(CapFault {
            kind: FaultKind::TooLong,
            at: 0,
        }))
    } else {
        None
    }
}

// What the creation of a user who exists answers.
fn found_again(name: &str, stored: &Caps, caps: &Caps) -> Result<Creation, AuthFault>
    ensures { result ≡ again name.now stored.now caps.now }
{
    if !is_user_name(name) {
        return Err(AuthFault::BadName);
    }
    if caps.is_empty() || caps.equals(stored) {
        Ok(Creation::There)
    } else {
        Err(AuthFault::CapsDiffer)
    }
}
