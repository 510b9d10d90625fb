//! The printed form of a grant, as Ceph reads it.

ghost use Rattle.std.specs.Prelude.{◌≡◌, ◌++◌, ◌∷◌, [], ◌&&◌, ◌==◌, Some, codes, length, not, string_bytes, OnOk};
ghost use Rattle.std.specs.List.{list_all, list_any};
ghost use Rattle.common_types.specs.WordBytes.{is_word_byte};
ghost use Rattle.cap_text.specs.Printed.{printed_access, printed_pool, printed_prefix, printed_value, quote_for, quoted};
ghost use Rattle.ceph_text.specs.Printed as spec;

use cap_text::{Access, AllowGrant, Flags, NsMatch, Part, Tag};
use common_types::{Name, OutOfMemory, are_word_bytes};

fn has_double_quote(bytes: &[u8]) -> bool
    ensures { result ≡ list_any (λ b. b == 34) bytes.now }
{
    bytes.iter().any(|byte| *byte == b'"')
}

/// The kind of quotes that a text is put between.
fn quote_for(bytes: &[u8]) -> &'static str
    ensures { result.now ≡ quote_for bytes.now ∷ [] }
{
    if has_double_quote(bytes) { "'" } else { "\"" }
}

fn push_quoted(text: &mut String, name: &Name) -> Result<(), OutOfMemory>
    ensures { OnOk result (string_bytes text.new ≡ string_bytes text.old ++ quoted name.now) }
{
    let quote = quote_for(name.as_str().as_bytes());
    text.push_str(quote)?;
    text.push_str(name.as_str())?;
    text.push_str(quote)
}

fn push_value(text: &mut String, name: &Name) -> Result<(), OutOfMemory>
    ensures { OnOk result (string_bytes text.new ≡ string_bytes text.old ++ printed_value name.now) }
{
    if are_word_bytes(name.as_str().as_bytes()) {
        text.push_str(name.as_str())
    } else {
        push_quoted(text, name)
    }
}

fn push_part(text: &mut String, part: &Part) -> Result<(), OutOfMemory>
    ensures { OnOk result (string_bytes text.new ≡ string_bytes text.old ++ spec.printed_part part.now) }
{
    match part {
        Part::Any => text.push_str("*"),
        Part::Is(name) => {
            if name.as_str().starts_with("all") {
                push_quoted(text, name)
            } else {
                push_value(text, name)
            }
        }
    }
}

fn push_tag(text: &mut String, tag: &Option<Tag>) -> Result<(), OutOfMemory>
    ensures { OnOk result (string_bytes text.new ≡ string_bytes text.old ++ spec.printed_tag tag.now) }
{
    if let Some(tag) = tag {
        text.push_str(" tag ")?;
        push_value(text, &tag.application)?;
        text.push_str(" ")?;
        push_part(text, &tag.key)?;
        text.push_str("=")?;
        push_part(text, &tag.value)?;
    }
    Ok(())
}

/// Whether a prefix of namespaces is written without quotes.
fn is_bare(front: &Name) -> bool
    ensures { result ≡ (list_all is_word_byte front.now && not (length front.now == 0)) }
{
    are_word_bytes(front.as_str().as_bytes()) && !front.is_empty()
}

fn push_front(text: &mut String, front: &Name) -> Result<(), OutOfMemory>
    ensures { OnOk result (string_bytes text.new ≡ string_bytes text.old ++ spec.printed_namespace (NsMatch.Prefix front.now)) }
{
    if is_bare(front) {
        text.push_str(front.as_str())?;
        return text.push_str("*");
    }
    let quote = quote_for(front.as_str().as_bytes());
    text.push_str(quote)?;
    text.push_str(front.as_str())?;
    text.push_str("*")?;
    text.push_str(quote)
}

fn push_namespace(text: &mut String, namespace: &NsMatch) -> Result<(), OutOfMemory>
    ensures { OnOk result (string_bytes text.new ≡ string_bytes text.old ++ spec.printed_namespace namespace.now) }
{
    match namespace {
        NsMatch::Exact(name) => {
            if name.is_empty() {
                text.push_str("\"\"")
            } else {
                push_value(text, name)
            }
        }
        NsMatch::Prefix(front) => push_front(text, front),
    }
}

fn push_namespaces(text: &mut String, namespace: &Option<NsMatch>) -> Result<(), OutOfMemory>
    ensures { OnOk result (string_bytes text.new ≡ string_bytes text.old ++ spec.printed_namespaces namespace.now) }
{
    if let Some(namespace) = namespace {
        text.push_str(" namespace=")?;
        push_namespace(text, namespace)?;
    }
    Ok(())
}

fn push_pool(text: &mut String, pool: &Option<Name>) -> Result<(), OutOfMemory>
    ensures { OnOk result (string_bytes text.new ≡ string_bytes text.old ++ printed_pool pool.now) }
{
    if let Some(name) = pool {
        text.push_str(" pool=")?;
        push_value(text, name)?;
    }
    Ok(())
}

fn push_prefix(text: &mut String, prefix: &Option<Name>) -> Result<(), OutOfMemory>
    ensures { OnOk result (string_bytes text.new ≡ string_bytes text.old ++ printed_prefix prefix.now) }
{
    if let Some(name) = prefix {
        text.push_str(" object_prefix ")?;
        push_value(text, name)?;
    }
    Ok(())
}

fn push_clauses(text: &mut String, grant: &AllowGrant) -> Result<(), OutOfMemory>
    ensures { OnOk result (string_bytes text.new ≡ string_bytes text.old ++ spec.clauses grant.now) }
{
    push_pool(text, &grant.pool)?;
    push_namespaces(text, &grant.namespace)?;
    push_prefix(text, &grant.prefix)?;
    push_tag(text, &grant.tag)
}

/// How flags are written: letters, and a class word where only one of the class flags is set.
fn flag_words(flags: Flags) -> &'static str
    ensures { result.now ≡ printed_access (Access.Flags flags) }
{
    match (flags.read, flags.write, flags.class_read, flags.class_write) {
        (false, false, false, false) => "",
        (false, false, false, true) => "class-write",
        (false, false, true, false) => "class-read",
        (false, false, true, true) => "x",
        (false, true, false, false) => "w",
        (false, true, false, true) => "w class-write",
        (false, true, true, false) => "w class-read",
        (false, true, true, true) => "wx",
        (true, false, false, false) => "r",
        (true, false, false, true) => "r class-write",
        (true, false, true, false) => "r class-read",
        (true, false, true, true) => "rx",
        (true, true, false, false) => "rw",
        (true, true, false, true) => "rw class-write",
        (true, true, true, false) => "rw class-read",
        (true, true, true, true) => "rwx",
    }
}

fn push_method(
    text: &mut String,
    class: &Name,
    method: &Name,
    grant: &AllowGrant,
) -> Result<(), OutOfMemory>
    ensures { OnOk result (string_bytes text.new ≡ string_bytes text.old ++ spec.printed_form (Access.Class class.now (Some method.now)) (spec.clauses grant.now)) }
{
    text.push_str("allow class ")?;
    push_value(text, class)?;
    text.push_str(" ")?;
    push_value(text, method)?;
    push_clauses(text, grant)
}

/// Adds the printed form of a grant, as Ceph reads it: names bare where they can be. A class without a method is behind the
/// clauses, since Ceph would read the word behind it as a method. Out of memory may leave a beginning of it.
pub fn push_ceph_grant(text: &mut String, grant: &AllowGrant) -> Result<(), OutOfMemory>
    ensures { OnOk result (string_bytes text.new ≡ string_bytes text.old ++ spec.printed_ceph grant.now) }
{
    match &grant.access {
        Access::All => {
            text.push_str("allow *")?;
            push_clauses(text, grant)
        }
        Access::Flags(flags) => {
            text.push_str("allow ")?;
            text.push_str(flag_words(*flags))?;
            push_clauses(text, grant)
        }
        Access::Class {
            class,
            method: None,
        } => {
            text.push_str("allow")?;
            push_clauses(text, grant)?;
            text.push_str(" class ")?;
            push_value(text, class)
        }
        Access::Class {
            class,
            method: Some(method),
        } => push_method(text, class, method, grant),
    }
}
