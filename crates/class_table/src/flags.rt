//! A method and its flags.

ghost use Rattle.std.specs.Prelude.{◌≡◌};

/// What a method does, as its class registers it. A method may have neither of the first two flags.
#[derive(Clone, Copy, Debug, PartialEq, Eq)]
pub struct MethodFlags {
    /// It reads.
    pub reads: bool,
    /// It writes.
    pub writes: bool,
    /// It promotes the object to the cache tier first. Capabilities ignore this flag.
    pub promotes: bool,
}

/// A class, one of its methods, and the method's flags.
#[derive(Clone, Copy, Debug)]
pub struct ClassMethod(pub &'static str, pub &'static str, pub MethodFlags);

impl ClassMethod {
    /// The name of the class.
    pub fn class(&self) -> &'static str
        ensures { result.now ≡ self.now.0.now }
    {
        self.0
    }

    /// The name of the method.
    pub fn method(&self) -> &'static str
        ensures { result.now ≡ self.now.1.now }
    {
        self.1
    }

    /// The method's flags.
    pub fn flags(&self) -> MethodFlags
        ensures { result ≡ self.now.2 }
    {
        self.2
    }
}
