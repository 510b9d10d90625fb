//! Commands on the users, and what the front asks of them.

ghost use Rattle.std.specs.Prelude.{◌≡◌, OnOk, OnErr, IfOk};
ghost use Rattle.std.specs.Option.{option_map};
ghost use Rattle.auth_db.specs.Refusals.{auth_refusal, known_refusal};
ghost use Rattle.auth_db.specs.Refusals as refusals;
ghost use Rattle.auth_db.specs.Users.{after, user_at, GetOrCreate, SetCaps};
ghost use Rattle.world_front.specs.Event.{OfUsers};
ghost use Rattle.world_front.specs.ControlPlane.{command_of, told_auth, told_creation};
ghost use Rattle.world_front.specs.ControlPlane as spec;
ghost use Rattle.common_types.specs.Refused.{RefusedExactly};
ghost use Rattle.world_front.specs.Refusing.{RefusedOrMemory};

use auth_db::{AuthDb, AuthFault, Caps, Creation};
use common_types::Name;
use verdict_core::SharedTicket;
use world_events::{AuthCommand, Told, WorldFault};

/// Carries out a command on the users, and reports its result.
///
/// Where the command is refused, or an allocation fails, the users stay as they were.
pub fn change_users(users: &mut AuthDb, command: AuthCommand) -> Result<Told, AuthFault>
    ensures steps { OnOk result (users.new ≡ after users.old (command_of command)) }
    ensures tells { IfOk result (λ told. told ≡ told_auth users.old command) }
    ensures refused { refusals.RefusedOrMemory (auth_refusal users.old (command_of command)) result }
    ensures unchanged { OnErr result (users.new ≡ users.old) }
{
    match command {
        AuthCommand::Add { name, caps } => match users.add(name.as_str(), caps) {
            Ok(()) => Ok(Told::Done),
            Err(fault) => Err(fault),
        },
        AuthCommand::GetOrCreate { name, caps } => get_or_create(users, name.as_str(), caps),
        AuthCommand::SetCaps { name, caps } => set_caps(users, name.as_str(), caps),
        AuthCommand::Delete { name } => match users.del(name.as_str()) {
            Ok(()) => Ok(Told::Done),
            Err(fault) => Err(fault),
        },
    }
}

// Makes a user, or finds it.
fn get_or_create(users: &mut AuthDb, name: &str, caps: Caps) -> Result<Told, AuthFault>
    ensures steps { OnOk result (users.new ≡ after users.old (GetOrCreate name.now caps)) }
    ensures tells { IfOk result (λ told. told ≡ told_creation (user_at users.old.users name.now)) }
    ensures refused { refusals.RefusedOrMemory (auth_refusal users.old (GetOrCreate name.now caps)) result }
    ensures unchanged { OnErr result (users.new ≡ users.old) }
{
    match users.get_or_create(name, caps) {
        Ok(Creation::Made) => Ok(Told::Made),
        Ok(Creation::There) => Ok(Told::There),
        Err(fault) => Err(fault),
    }
}

// Gives a user other texts.
fn set_caps(users: &mut AuthDb, name: &str, caps: Caps) -> Result<Told, AuthFault>
    ensures steps { OnOk result (users.new ≡ after users.old (SetCaps name.now caps)) }
    ensures tells { IfOk result (λ told. told ≡ Told.Done) }
    ensures refused { refusals.RefusedOrMemory (auth_refusal users.old (SetCaps name.now caps)) result }
    ensures unchanged { OnErr result (users.new ≡ users.old) }
{
    match users.caps(name, caps) {
        Ok(()) => Ok(Told::Done),
        Err(fault) => Err(fault),
    }
}

/// Refuses an unknown user. It allocates nothing.
pub(crate) fn check_user(users: &AuthDb, entity: &Name) -> Result<(), WorldFault>
    ensures { RefusedExactly (option_map OfUsers (known_refusal users.now.users entity.now)) result }
{
    match users.get(entity.as_str()) {
        Ok(_) => Ok(()),
        Err(fault) => Err(WorldFault::Auth(fault)),
    }
}

/// A user's ticket, until a tick or for ever, with the places of its grants.
pub(crate) fn ticket_for(
    users: &AuthDb,
    entity: &Name,
    until: Option<u64>,
) -> Result<SharedTicket, WorldFault>
    ensures ticket { IfOk result (λ ticket. ticket ≡ spec.ticket_for users.now entity.now until) }
    ensures refused { RefusedOrMemory (option_map OfUsers (known_refusal users.now.users entity.now)) result }
{
    let ticket = users.ticket(entity.as_str(), until)?;
    match SharedTicket::of(ticket) {
        Ok(ticket) => Ok(ticket),
        Err(_) => Err(WorldFault::OutOfMemory),
    }
}
