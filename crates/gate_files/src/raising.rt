//! Monitor texts by which an entity can give itself or others any text.

/// Commands of a monitor that store the texts of entities.
const STORING: &[&str; 5] = &[
    "auth caps",
    "auth get-or-create",
    "auth get-or-create-key",
    "auth add",
    "auth import",
];

/// Whether this stands between words.
fn is_between(letter: char) -> bool {
    letter.is_whitespace() || matches!(letter, '=' | '"' | '\'')
}

/// Whether a word gives every right.
fn is_whole(word: &str) -> bool {
    let has = |letter: char| word.contains(letter);
    word == "all" || word.starts_with('*') || (has('r') && has('w') && has('x') && word.len() == 3)
}

/// Whether the first word of a text gives every right.
fn begins_whole(text: &str) -> bool {
    match text.split_whitespace().next() {
        Some(word) => is_whole(word),
        None => false,
    }
}

/// What is behind a word, if a text begins with it.
fn behind<'a>(text: &'a str, word: &str) -> Option<&'a str> {
    let rest = text.strip_prefix(word)?;
    Some(rest.trim_start_matches(is_between))
}

/// Whether a text behind `allow` gives every right, a command that stores texts, or every right at the service of entities.
fn allows_raising(text: &str) -> bool {
    if begins_whole(text) {
        return true;
    }
    if let Some(command) = behind(text, "command") {
        return STORING.iter().any(|name| command.starts_with(*name));
    }
    if let Some(service) = behind(text, "service") {
        return match behind(service, "auth") {
            Some(rights) => begins_whole(rights),
            None => false,
        };
    }
    is_role_definer(text)
}

/// Whether a text is the profile of who defines roles.
fn is_role_definer(text: &str) -> bool {
    match behind(text, "profile") {
        Some(name) => name.starts_with("role-definer"),
        None => false,
    }
}

/// Whether a grant lets an entity raise itself or others.
fn grant_raises(grant: &str) -> bool {
    let grant = grant.trim();
    match behind(grant, "allow") {
        Some(text) => allows_raising(text),
        None => is_role_definer(grant),
    }
}

/// Whether a monitor's text lets an entity raise itself or others: a grant of every right, of a command that stores texts (`auth
/// caps`, `auth get-or-create`, `auth get-or-create-key`, `auth add`, `auth import`), of every right at the service `auth`, or of
/// `profile role-definer`. Other texts are not looked into.
pub fn can_raise(text: &str) -> bool {
    text.split(|letter: char| matches!(letter, ',' | ';'))
        .any(grant_raises)
}
