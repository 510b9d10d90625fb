//! The grants that a capability text spells.
//!
//! Their forms are those of the Ceph manual's User Management chapter, "Authorization capabilities".

ghost use Rattle.std.specs.Prelude.{◌≡◌, IfOk};

use common_types::{Name, OutOfMemory, copy_name};

/// One grant of a capability text.
#[derive(Debug)]
pub enum Grant {
    /// `allow ..`
    Allow(AllowGrant),
    /// `profile ..`
    Profile(ProfileUse),
}

impl Drop for Grant {
    #[inline(always)]
    fn drop(self) {
        match self {
            Grant::Allow(_) | Grant::Profile(_) => (),
        }
    }
}

/// What is allowed, and where. A part that is `None` asks for nothing.
#[derive(Debug)]
pub struct AllowGrant {
    pub access: Access,
    pub pool: Option<Name>,
    pub namespace: Option<NsMatch>,
    /// The bytes that an object's name must begin with.
    pub prefix: Option<Name>,
    pub tag: Option<Tag>,
}

impl Drop for AllowGrant {
    #[inline(always)]
    fn drop(self) {
        let AllowGrant {
            access: _,
            pool: _,
            namespace: _,
            prefix: _,
            tag: _,
        } = self;
    }
}

/// The use of a named list of grants, narrowed to a pool and a namespace where these are given.
#[derive(Debug)]
pub struct ProfileUse {
    pub name: Name,
    pub pool: Option<Name>,
    pub namespace: Option<NsMatch>,
}

impl Drop for ProfileUse {
    #[inline(always)]
    fn drop(self) {
        let ProfileUse {
            name: _,
            pool: _,
            namespace: _,
        } = self;
    }
}

/// What a grant gives.
#[derive(Debug)]
pub enum Access {
    /// `*` or `all`
    All,
    /// Letters and class words. A text spells only flags of which at least one is set.
    Flags(Flags),
    /// `class C [M]`: calls of a class, or of one method of it.
    Class { class: Name, method: Option<Name> },
}

impl Drop for Access {
    #[inline(always)]
    fn drop(self) {
        match self {
            Access::All
            | Access::Flags(_)
            | Access::Class {
                class: _,
                method: _,
            } => (),
        }
    }
}

/// `r`, `w`, and the two kinds of class methods; the letter `x` is both of the latter.
#[derive(Clone, Copy, Debug, PartialEq, Eq)]
pub struct Flags {
    pub read: bool,
    pub write: bool,
    pub class_read: bool,
    pub class_write: bool,
}

/// The namespaces that a grant is for.
#[derive(Debug)]
pub enum NsMatch {
    Exact(Name),
    /// All namespaces that begin with these bytes.
    Prefix(Name),
}

impl Drop for NsMatch {
    #[inline(always)]
    fn drop(self) {
        match self {
            NsMatch::Exact(_) | NsMatch::Prefix(_) => (),
        }
    }
}

/// The application tag that a grant's pool must have.
#[derive(Debug)]
pub struct Tag {
    pub application: Name,
    pub key: Part,
    pub value: Part,
}

impl Drop for Tag {
    #[inline(always)]
    fn drop(self) {
        let Tag {
            application: _,
            key: _,
            value: _,
        } = self;
    }
}

/// One side of a tag's pair.
#[derive(Debug, Drop)]
pub enum Part {
    /// `*`
    Any,
    Is(Name),
}

impl Grant {
    /// An equal grant.
    pub fn copy(&self) -> Result<Grant, OutOfMemory>
        ensures { IfOk result (λ grant. grant ≡ self.now) }
    {
        match self {
            Grant::Allow(allow) => Ok(Grant::Allow(allow.copy()?)),
            Grant::Profile(used) => Ok(Grant::Profile(used.copy()?)),
        }
    }
}

impl AllowGrant {
    /// An equal grant.
    pub fn copy(&self) -> Result<AllowGrant, OutOfMemory>
        ensures { IfOk result (λ grant. grant ≡ self.now) }
    {
        Ok(AllowGrant {
            access: self.access.copy()?,
            pool: copy_name(&self.pool)?,
            namespace: copy_namespace(&self.namespace)?,
            prefix: copy_name(&self.prefix)?,
            tag: copy_tag(&self.tag)?,
        })
    }
}

impl ProfileUse {
    /// An equal use.
    pub fn copy(&self) -> Result<ProfileUse, OutOfMemory>
        ensures { IfOk result (λ used. used ≡ self.now) }
    {
        Ok(ProfileUse {
            name: self.name.copy()?,
            pool: copy_name(&self.pool)?,
            namespace: copy_namespace(&self.namespace)?,
        })
    }
}

impl Access {
    /// An equal access.
    pub fn copy(&self) -> Result<Access, OutOfMemory>
        ensures { IfOk result (λ access. access ≡ self.now) }
    {
        match self {
            Access::All => Ok(Access::All),
            Access::Flags(flags) => Ok(Access::Flags(*flags)),
            Access::Class { class, method } => Ok(Access::Class {
                class: class.copy()?,
                method: copy_name(method)?,
            }),
        }
    }
}

impl NsMatch {
    /// An equal match.
    pub fn copy(&self) -> Result<NsMatch, OutOfMemory>
        ensures { IfOk result (λ namespace. namespace ≡ self.now) }
    {
        match self {
            NsMatch::Exact(name) => Ok(NsMatch::Exact(name.copy()?)),
            NsMatch::Prefix(name) => Ok(NsMatch::Prefix(name.copy()?)),
        }
    }
}

impl Tag {
    /// An equal tag.
    pub fn copy(&self) -> Result<Tag, OutOfMemory>
        ensures { IfOk result (λ tag. tag ≡ self.now) }
    {
        Ok(Tag {
            application: self.application.copy()?,
            key: self.key.copy()?,
            value: self.value.copy()?,
        })
    }
}

impl Part {
    /// An equal part.
    pub fn copy(&self) -> Result<Part, OutOfMemory>
        ensures { IfOk result (λ part. part ≡ self.now) }
    {
        match self {
            Part::Any => Ok(Part::Any),
            Part::Is(name) => Ok(Part::Is(name.copy()?)),
        }
    }
}

/// An equal optional match.
pub fn copy_namespace(namespace: &Option<NsMatch>) -> Result<Option<NsMatch>, OutOfMemory>
    ensures { IfOk result (λ copy. copy ≡ namespace.now) }
{
    match namespace {
        None => Ok(None),
        Some(namespace) => Ok(Some(namespace.copy()?)),
    }
}

fn copy_tag(tag: &Option<Tag>) -> Result<Option<Tag>, OutOfMemory>
    ensures { IfOk result (λ copy. copy ≡ tag.now) }
{
    match tag {
        None => Ok(None),
        Some(tag) => Ok(Some(tag.copy()?)),
    }
}
