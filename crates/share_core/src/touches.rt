//! What a tenant does to an object.

use verdict_core::ClassCall;

/// One way in which a request touches an object (this project's profile).
#[derive(Debug)]
pub enum Touch {
    /// It asks to read, and for nothing else.
    Read,
    /// It asks to write, and for nothing else.
    Write,
    /// It has this call of a class's method, and asks for nothing else. The call says itself what its method does.
    Call(ClassCall),
    /// It reads in any way: it asks to read, or has a call whose method reads, of any class and any method. It may ask for
    /// more.
    AnyRead,
    /// It writes in any way: it asks to write, or has a call whose method writes, of any class and any method. It may ask for
    /// more.
    AnyWrite,
}

impl Drop for Touch {
    fn drop(self) {
        match self {
            Touch::Read | Touch::Write | Touch::Call(_) | Touch::AnyRead | Touch::AnyWrite => (),
        }
    }
}
