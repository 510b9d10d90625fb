//! The map of users.

ghost use Rattle.std.specs.Prelude.{◌≡◌, ◌+◌, ◌≤◌, false, if◌then◌else◌, length, IfOk, OnOk, OnErr};
ghost use Rattle.std.specs.Option.{option_copied};
ghost use Rattle.std.specs.List.Sorted.{IsStrictlySortedBy};
ghost use Rattle.std.specs.Map.{keys_of};
ghost use Rattle.std.specs.Ordering.{nat_cmp};
ghost use Rattle.std.specs.Cmp.Lexicographic.{slice_cmp};
ghost use Rattle.auth_db.specs.Entries.{users_of};
ghost use Rattle.auth_db.specs.Users.{user_at, with_user, without_user};
ghost use Rattle.auth_db.specs.Users as spec;

use crate::caps::Caps;
use common_types::{Name, OutOfMemory};
use std::alloc::Global;
use std::collections::BTreeMap;

/// Users by their names.
pub(crate) type Users = BTreeMap<String, Caps>;

/// Whether there is a user of this name.
pub(crate) fn has_user(users: &Users, name: &str) -> bool
    ensures { result ≡ spec.has_user (users_of users.now.entries) name.now }
{
    users.contains_key(name)
}

/// How many users there are.
pub(crate) fn count(users: &Users) -> usize
    ensures { result ≡ length (users_of users.now.entries) }
{
    users.len()
}

/// The texts of the user of this name.
pub(crate) fn find<'a>(users: &'a Users, name: &str) -> Option<&'a Caps>
    ensures { option_copied result ≡ user_at (users_of users.now.entries) name.now }
{
    users.get(name)
}

/// Puts a user's texts.
pub(crate) fn put(
    alloc: Global,
    users: &mut Users,
    name: &str,
    caps: Caps,
) -> Result<(), OutOfMemory>
    ensures ok { OnOk result (users_of users.new.entries ≡ with_user (users_of users.old.entries) name.now caps) }
    ensures len { OnOk result (length (users_of users.new.entries)
        ≡ length (users_of users.old.entries) + (if spec.has_user (users_of users.old.entries) name.now then 0 else 1)) }
    ensures err { OnErr result (users_of users.new.entries ≡ users_of users.old.entries) }
{
    let name = String::from_str(alloc, name)?;
    users.insert(name, caps)?;
    Ok(())
}

/// Takes a user out, and says whether it was there.
pub(crate) fn take(users: &mut Users, name: &str) -> bool
    ensures there { result ≡ spec.has_user (users_of users.old.entries) name.now }
    ensures removed { users_of users.new.entries ≡ without_user (users_of users.old.entries) name.now }
    ensures len { length (users_of users.new.entries) ≤ length (users_of users.old.entries) }
    ensures unchanged { result ≡ false → users_of users.new.entries ≡ users_of users.old.entries }
{
    users.remove(name).is_some()
}

/// The names of the users, in the order of their bytes.
pub(crate) fn names(alloc: Global, users: &Users) -> Result<Vec<Name>, OutOfMemory>
    ensures names { IfOk result (λ names. names.items ≡ keys_of (users_of users.now.entries)) }
    ensures sorted { IsStrictlySortedBy (slice_cmp nat_cmp) (keys_of (users_of users.now.entries)) }
{
    let mut names = Vec::new(alloc);
    for name in users.keys() {
        names.push(Name::new(alloc, name.as_str())?)?;
    }
    Ok(names)
}
