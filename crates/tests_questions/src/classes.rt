//! The table beside the file that it was made from, and lookups in it.

use class_table::{MethodFlags, default_list, find, find_in, is_listed, methods};
use std::test::Fail;

/// The FNV-1a hash, at 64 bits, of `data/ceph_classes.tsv`: a line with class, method and flags for each method.
const FILE_HASH: u64 = 0x6cd6616a3dbc2a62;

/// The hash of some bytes behind others that have this hash.
fn hashed(hash: u64, bytes: &[u8]) -> u64 {
    let mut hash = hash;
    for byte in bytes {
        hash = (hash ^ u64::from(*byte)).wrapping_mul(0x100_0000_01b3);
    }
    hash
}

/// The flags as Ceph's number of them.
fn number(flags: MethodFlags) -> &'static str {
    match (flags.reads, flags.writes, flags.promotes) {
        (false, false, false) => "0",
        (true, false, false) => "1",
        (false, true, false) => "2",
        (true, true, false) => "3",
        (false, false, true) => "8",
        (true, false, true) => "9",
        (false, true, true) => "10",
        (true, true, true) => "11",
    }
}

#[test]
fn the_table_is_the_file(rt: HostRuntime) -> Result<(), Fail> {
    let methods = methods(rt.alloc())?;
    let mut hash = 0xcbf2_9ce4_8422_2325;
    for entry in methods.as_slice() {
        hash = hashed(hash, entry.class().as_bytes());
        hash = hashed(hash, b"\t");
        hash = hashed(hash, entry.method().as_bytes());
        hash = hashed(hash, b"\t");
        hash = hashed(hash, number(entry.flags()).as_bytes());
        hash = hashed(hash, b"\n");
    }
    assert_eq!(rt; hash, FILE_HASH);
    Ok(())
}

#[test]
fn every_method_is_found(rt: HostRuntime) -> Result<(), Fail> {
    let methods = methods(rt.alloc())?;
    for entry in methods.as_slice() {
        let class = entry.class().as_bytes();
        let method = entry.method().as_bytes();
        assert_eq!(rt; find(class, method), Some(entry.flags()));
        assert_eq!(rt;
            find_in(methods.as_slice(), class, method),
            Some(entry.flags())
        );
    }
    Ok(())
}

#[test]
fn methods_are_found(rt: HostRuntime) {
    let flags = find(b"rbd", b"get_size").map(|flags| (flags.reads, flags.writes));
    assert_eq!(rt; flags, Some((true, false)));
    let flags = find(b"rbd", b"set_size").map(|flags| (flags.reads, flags.writes));
    assert_eq!(rt; flags, Some((true, true)));
    let flags = find(b"hello", b"record_hello").map(|flags| (flags.writes, flags.promotes));
    assert_eq!(rt; flags, Some((true, true)));
    assert_eq!(rt; find(b"rbd", b"get_siz"), None);
    assert_eq!(rt; find(b"rb", b"get_size"), None);
}

#[test]
fn classes_are_listed(rt: HostRuntime) {
    assert!(rt; is_listed(b"rbd", default_list()));
    assert!(rt; is_listed(b"2pc_queue", default_list()));
    assert!(rt; !is_listed(b"lua", default_list()));
    assert!(rt; !is_listed(b"kvs", default_list()));
    assert!(rt; is_listed(b"kvs", &["lock", "kvs"]));
}
