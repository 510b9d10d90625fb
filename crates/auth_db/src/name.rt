//! The names of users.

ghost use Rattle.std.specs.Prelude.{◌≡◌};
ghost use Rattle.auth_db.specs.Names as spec;

use common_types::are_word_bytes;

/// Whether a name is a type, a dot and an ID. It is cut at its first dot.
pub(crate) fn is_user_name(name: &str) -> bool
    ensures { result ≡ spec.is_user_name name.now }
{
    is_of_type(name, "client.")
        || is_of_type(name, "osd.")
        || is_of_type(name, "mon.")
        || is_of_type(name, "mgr.")
        || is_of_type(name, "mds.")
}

// Whether a name is this type with its dot, and an ID.
fn is_of_type(name: &str, type_and_dot: &str) -> bool
    ensures { result ≡ spec.is_of_type name.now type_and_dot.now }
{
    match name.as_bytes().strip_prefix(type_and_dot.as_bytes()) {
        None => false,
        Some(id) => is_id(id),
    }
}

fn is_id(id: &[u8]) -> bool
    ensures { result ≡ spec.is_id id.now }
{
    1 <= id.len() && id.len() <= 64 && are_word_bytes(id)
}
