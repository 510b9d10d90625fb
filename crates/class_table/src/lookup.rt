//! Methods by their names.

ghost use Rattle.std.specs.Prelude.{◌≡◌};
ghost use Rattle.class_table.specs.Lookup as spec;

use crate::flags::{ClassMethod, MethodFlags};
use crate::table::{PARTS, part};
use std::alloc::{AllocError, Global};

/// Every method of the table: the classes in alphabetical order, and the methods of each in the order of its library.
/// The only error is out of memory.
pub fn methods(alloc: Global) -> Result<Vec<ClassMethod>, AllocError> {
    let mut methods = Vec::new(alloc);
    for index in 0..PARTS {
        for entry in part(index) {
            methods.push(*entry)?;
        }
    }
    Ok(methods)
}

/// Whether an entry is of this class and method.
fn is_method(entry: &ClassMethod, class: &[u8], method: &[u8]) -> bool
    ensures { result ≡ spec.is_method class.now method.now entry.now }
{
    entry.class().as_bytes() == class && entry.method().as_bytes() == method
}

/// The flags of a method in a table: those of the first entry with these names, or `None` where there is no such entry.
pub fn find_in(table: &[ClassMethod], class: &[u8], method: &[u8]) -> Option<MethodFlags>
    ensures { result ≡ spec.flags_in table.now class.now method.now }
{
    for entry in table {
        if is_method(entry, class, method) {
            return Some(entry.flags());
        }
    }
    None
}

/// The flags of a method of Ceph 16.2.15, or `None` for one that its table lacks. It is `find_in` on each part of the table in
/// turn, and takes no memory.
pub fn find(class: &[u8], method: &[u8]) -> Option<MethodFlags> {
    for index in 0..PARTS {
        if let Some(flags) = find_in(part(index), class, method) {
            return Some(flags);
        }
    }
    None
}
