//! The position in the grammar that a text has reached.

use cap_grants::Flags;

/// The clauses that may still come in a grant.
#[derive(Clone, Copy)]
pub struct ClauseSet {
    pub pool: bool,
    pub namespace: bool,
    pub prefix: bool,
    pub tag: bool,
}

/// What a value is for.
#[derive(Clone, Copy)]
pub enum ValueFor {
    Profile,
    Class,
    Pool,
    Prefix,
    Application,
}

/// What may come next. It is a plain number, which a step passes in a register. All else stays in the sheet.
#[derive(Clone, Copy)]
pub enum Next {
    /// The first grant, or the end of an empty text.
    Start,
    /// A grant, behind a separator.
    Separator,
    /// A clause, the access where it is still due, or the end of the grant.
    Clauses,
    /// `class-read` or `class-write` behind the letters, or what follows the access.
    Letters,
    /// `class-write` behind `class-read`, or what follows the access.
    ClassRead,
    /// The method of the class that the sheet holds, or what follows the access.
    Method,
    /// `=`, or the value.
    Assigned,
    /// The value.
    Value,
    /// `=`, or the namespace.
    Namespace,
    /// The namespace.
    NamespaceEquals,
    /// A star directly behind the word of a namespace that the sheet holds, or what follows the clause.
    NamespaceWord,
    /// The key of a tag, whose application the sheet holds.
    Key,
    /// The `=` behind the key, which the sheet holds too.
    KeyEquals,
    /// The value of the key.
    KeyValue,
}
