//! The printed form of capability lists.

ghost use Rattle.std.specs.Prelude.{◌≡◌, ◌≤◌, ◌++◌, ◌==◌, [], ◌∷◌, length, string_bytes, codes, IfOk, OnOk};
ghost use Rattle.std.specs.List.{list_any, flat_map};
ghost use Rattle.cap_text.specs.Words.{keyword_of};
ghost use Rattle.cap_text.specs.Grammar.{begins_clause, Spells};
ghost use Rattle.cap_text.specs.Printed.{quote_for, quoted, printed_value, printed_method, printed_namespace, printed_part, printed_access, printed_pool, printed_namespaces, printed_prefix, printed_tag, printed_allow, printed_profile, printed_grant, printed};

use crate::caps::CapList;
use crate::keyword::{IN_PRINT, Keyword, keyword_of};
use cap_grants::{Access, AllowGrant, Flags, Grant, NsMatch, Part, ProfileUse, Tag};
use common_types::{Name, OutOfMemory, are_word_bytes};
use std::alloc::Global;

/// The list's printed form: grants joined by `, `, names bare where they can be.
///
/// Parsing a printed text of at most 4,096 bytes gives the list again. The work is linear in the text's length.
pub fn print(alloc: Global, list: &CapList) -> Result<String, OutOfMemory>
    ensures form { IfOk result (λ text. string_bytes text ≡ printed list.now) }
    ensures back { length (printed list.now) ≤ 4096 → Spells (printed list.now) list.now }
{
    let mut text = String::new(alloc);
    if let [first, others @ ..] = list.grants() {
        push_grant(&mut text, first)?;
        push_others(&mut text, others)?;
    }
    Ok(text)
}

fn push_others(text: &mut String, grants: &[Grant]) -> Result<(), OutOfMemory>
    ensures { OnOk result (string_bytes text.new ≡ string_bytes text.old ++ flat_map (λ g. codes ", " ++ printed_grant g) grants.now) }
{
    for grant in grants {
        text.push_str(", ")?;
        push_grant(text, grant)?;
    }
    Ok(())
}

fn push_grant(text: &mut String, grant: &Grant) -> Result<(), OutOfMemory>
    ensures { OnOk result (string_bytes text.new ≡ string_bytes text.old ++ printed_grant grant.now) }
{
    match grant {
        Grant::Allow(allow) => push_allow(text, allow),
        Grant::Profile(used) => push_profile(text, used),
    }
}

/// Adds an allowing grant's printed form to a text, as it stands in a printed list.
pub fn push_allow(text: &mut String, grant: &AllowGrant) -> Result<(), OutOfMemory>
    ensures { OnOk result (string_bytes text.new ≡ string_bytes text.old ++ printed_allow grant.now) }
{
    text.push_str("allow ")?;
    push_access(text, &grant.access)?;
    push_pool(text, &grant.pool)?;
    push_namespaces(text, &grant.namespace)?;
    push_prefix(text, &grant.prefix)?;
    push_tag(text, &grant.tag)
}

fn push_profile(text: &mut String, used: &ProfileUse) -> Result<(), OutOfMemory>
    ensures { OnOk result (string_bytes text.new ≡ string_bytes text.old ++ printed_profile used.now) }
{
    text.push_str("profile ")?;
    push_value(text, &used.name)?;
    push_pool(text, &used.pool)?;
    push_namespaces(text, &used.namespace)
}

fn push_access(text: &mut String, access: &Access) -> Result<(), OutOfMemory>
    ensures { OnOk result (string_bytes text.new ≡ string_bytes text.old ++ printed_access access.now) }
{
    match access {
        Access::All => text.push_str("*"),
        Access::Flags(flags) => text.push_str(flag_words(*flags)),
        Access::Class { class, method } => push_class(text, class, method),
    }
}

fn push_class(text: &mut String, class: &Name, method: &Option<Name>) -> Result<(), OutOfMemory>
    ensures { OnOk result (string_bytes text.new ≡ string_bytes text.old ++ printed_access (Access.Class class.now method.now)) }
{
    text.push_str("class ")?;
    push_value(text, class)?;
    if let Some(method) = method {
        text.push_str(" ")?;
        push_method(text, method)?;
    }
    Ok(())
}

/// How the flags are written: letters, and a class word where only one of the class flags is set.
fn flag_words(flags: Flags) -> &'static str
    ensures { result.now ≡ printed_access (Access.Flags flags) }
{
    match (flags.read, flags.write, flags.class_read, flags.class_write) {
        (false, false, false, false) => "",
        (false, false, false, true) => "class-write",
        (false, false, true, false) => "class-read",
        (false, false, true, true) => "x",
        (false, true, false, false) => "w",
        (false, true, false, true) => "w class-write",
        (false, true, true, false) => "w class-read",
        (false, true, true, true) => "wx",
        (true, false, false, false) => "r",
        (true, false, false, true) => "r class-write",
        (true, false, true, false) => "r class-read",
        (true, false, true, true) => "rx",
        (true, true, false, false) => "rw",
        (true, true, false, true) => "rw class-write",
        (true, true, true, false) => "rw class-read",
        (true, true, true, true) => "rwx",
    }
}

fn push_pool(text: &mut String, pool: &Option<Name>) -> Result<(), OutOfMemory>
    ensures { OnOk result (string_bytes text.new ≡ string_bytes text.old ++ printed_pool pool.now) }
{
    if let Some(name) = pool {
        text.push_str(" pool=")?;
        push_value(text, name)?;
    }
    Ok(())
}

fn push_namespaces(text: &mut String, namespace: &Option<NsMatch>) -> Result<(), OutOfMemory>
    ensures { OnOk result (string_bytes text.new ≡ string_bytes text.old ++ printed_namespaces namespace.now) }
{
    if let Some(namespace) = namespace {
        text.push_str(" namespace=")?;
        push_namespace(text, namespace)?;
    }
    Ok(())
}

#[tactic(auto, unfolding(crate::specs::Printed::printed_namespace))]
fn push_namespace(text: &mut String, namespace: &NsMatch) -> Result<(), OutOfMemory>
    ensures { OnOk result (string_bytes text.new ≡ string_bytes text.old ++ printed_namespace namespace.now) }
{
    match namespace {
        NsMatch::Exact(name) => {
            if name.is_empty() {
                text.push_str("\"\"")
            } else {
                push_value(text, name)
            }
        }
        NsMatch::Prefix(front) => push_front(text, front),
    }
}

#[tactic(auto, unfolding(crate::specs::Printed::printed_namespace))]
fn push_front(text: &mut String, front: &Name) -> Result<(), OutOfMemory>
    ensures { OnOk result (string_bytes text.new ≡ string_bytes text.old ++ printed_namespace (NsMatch.Prefix front.now)) }
{
    if are_word_bytes(front.as_str().as_bytes()) {
        text.push_str(front.as_str())?;
        return text.push_str("*");
    }
    let quote = quote_for(front.as_str().as_bytes());
    text.push_str(quote)?;
    text.push_str(front.as_str())?;
    text.push_str("*")?;
    text.push_str(quote)
}

fn push_prefix(text: &mut String, prefix: &Option<Name>) -> Result<(), OutOfMemory>
    ensures { OnOk result (string_bytes text.new ≡ string_bytes text.old ++ printed_prefix prefix.now) }
{
    if let Some(name) = prefix {
        text.push_str(" object_prefix ")?;
        push_value(text, name)?;
    }
    Ok(())
}

fn push_tag(text: &mut String, tag: &Option<Tag>) -> Result<(), OutOfMemory>
    ensures { OnOk result (string_bytes text.new ≡ string_bytes text.old ++ printed_tag tag.now) }
{
    if let Some(tag) = tag {
        text.push_str(" tag ")?;
        push_value(text, &tag.application)?;
        text.push_str(" ")?;
        push_part(text, &tag.key)?;
        text.push_str("=")?;
        push_part(text, &tag.value)?;
    }
    Ok(())
}

fn push_part(text: &mut String, part: &Part) -> Result<(), OutOfMemory>
    ensures { OnOk result (string_bytes text.new ≡ string_bytes text.old ++ printed_part part.now) }
{
    match part {
        Part::Any => text.push_str("*"),
        Part::Is(name) => push_value(text, name),
    }
}

#[tactic(auto, unfolding(crate::specs::Printed::printed_method))]
fn push_method(text: &mut String, method: &Name) -> Result<(), OutOfMemory>
    ensures { OnOk result (string_bytes text.new ≡ string_bytes text.old ++ printed_method method.now) }
{
    if begins_clause(keyword_of::<IN_PRINT>(method.as_str())) {
        push_quoted(text, method)
    } else {
        push_value(text, method)
    }
}

fn push_value(text: &mut String, name: &Name) -> Result<(), OutOfMemory>
    ensures { OnOk result (string_bytes text.new ≡ string_bytes text.old ++ printed_value name.now) }
{
    if are_word_bytes(name.as_str().as_bytes()) {
        text.push_str(name.as_str())
    } else {
        push_quoted(text, name)
    }
}

fn push_quoted(text: &mut String, name: &Name) -> Result<(), OutOfMemory>
    ensures { OnOk result (string_bytes text.new ≡ string_bytes text.old ++ quoted name.now) }
{
    let quote = quote_for(name.as_str().as_bytes());
    text.push_str(quote)?;
    text.push_str(name.as_str())?;
    text.push_str(quote)
}

/// The kind of quotes that a text is put between.
fn quote_for(bytes: &[u8]) -> &'static str
    ensures { result.now ≡ quote_for bytes.now ∷ [] }
{
    if has_double_quote(bytes) { "'" } else { "\"" }
}

fn has_double_quote(bytes: &[u8]) -> bool
    ensures { result ≡ list_any (λ b. b == 34) bytes.now }
{
    bytes.iter().any(|byte| *byte == b'"')
}

/// Whether the word begins a clause of a grant.
fn begins_clause(keyword: Keyword) -> bool
    ensures { result ≡ begins_clause keyword }
{
    matches!(
        keyword,
        Keyword::Pool | Keyword::Namespace | Keyword::ObjectPrefix | Keyword::Tag | Keyword::Network
    )
}
