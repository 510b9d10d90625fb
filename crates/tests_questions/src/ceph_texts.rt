//! Texts as an OSD of Ceph 16.2.15 read and expanded them.

use ceph_text::{CephEntry, CephFault, expand_ceph, push_ceph_grant, read, unknown_profiles};
use common_types::OutOfMemory;
use std::alloc::Global;
use std::fmt::Write;
use std::test::Fail;

/// Adds a grant with its path and its network.
fn push_entry(text: &mut String, entry: &CephEntry) -> Result<(), OutOfMemory> {
    if !text.is_empty() {
        text.push_str(" / ")?;
    }
    let path = &entry.path;
    write!(text, "{path} ")?;
    push_ceph_grant(text, &entry.grant)?;
    if let Some(network) = &entry.network {
        let network = network.as_str();
        write!(text, " network {network}")?;
    }
    Ok(())
}

/// What a text expands to, or its fault.
fn expansion(alloc: Global, text: &str) -> Result<String, CephFault> {
    let list = read(alloc, text)?;
    let mut expansion = String::new(alloc);
    for entry in &expand_ceph(alloc, &list)? {
        push_entry(&mut expansion, entry)?;
    }
    Ok(expansion)
}

/// Each text beside what it expands to.
const EXPANSIONS: &[(&str, &str); 30] = &[
    ("allow r", "1 allow r"),
    ("\n\tallow rwx \n", "1 allow rwx"),
    (
        "allow r,allow w;allow x",
        "1 allow r / 2 allow w / 3 allow x",
    ),
    ("allow r \t;\t allow w", "1 allow r / 2 allow w"),
    ("allow *", "1 allow *"),
    ("allow all", "1 allow *"),
    ("allow class-write", "1 allow class-write"),
    ("allow pool a r", "1 allow r pool=a"),
    (
        "allow r pool=\"a b\" namespace=''",
        "1 allow r pool=\"a b\" namespace=\"\"",
    ),
    ("allow r namespace=\"*\"", "1 allow r namespace=\"*\""),
    ("allow r namespace=\"a*\"", "1 allow r namespace=a*"),
    ("allow r namespace=\"a**\"", "1 allow r namespace=\"a**\""),
    ("allow r namespace=\"a*b\"", "1 allow r namespace=\"a*b\""),
    (
        "allow r object_prefix \"x*\"",
        "1 allow r object_prefix \"x*\"",
    ),
    (
        "allow rw tag cephfs data=all",
        "1 allow rw tag cephfs data=*",
    ),
    (
        "allow rw tag cephfs data = *",
        "1 allow rw tag cephfs data=*",
    ),
    (
        "allow rw tag cephfs data=\"all\"",
        "1 allow rw tag cephfs data=\"all\"",
    ),
    ("allow r tag rbd \"*\"='*'", "1 allow r tag rbd *=*"),
    (
        "allow namespace=n tag rbd a=b r",
        "1 allow r namespace=n tag rbd a=b",
    ),
    ("allow class c pool", "1 allow class c pool"),
    ("allow class c m pool=a", "1 allow class c m pool=a"),
    ("allow pool=a class c", "1 allow pool=a class c"),
    ("allow r network 10.0.0.0/8", "1 allow r network 10.0.0.0/8"),
    ("allow r pool='\u{e9}'", "1 allow r pool=\"\u{e9}\""),
    ("profile osd", ""),
    ("profile=read-only pool=p", "1.1 allow r pool=p"),
    (
        "profile read-write namespace=n network ::/0",
        "1.1 allow rw namespace=n network ::/0",
    ),
    (
        "profile rbd pool=p namespace=n",
        "1.1 allow r object_prefix rbd_info / 1.2 allow class-read object_prefix rbd_children / 1.3 allow class-read object_prefix rbd_mirroring / 1.4 allow class rbd metadata_list pool=p namespace=\"\" object_prefix rbd_info / 1.5 allow rwx pool=p namespace=n",
    ),
    (
        "profile rbd-read-only pool=p",
        "1.1 allow class rbd metadata_list pool=p namespace=\"\" object_prefix rbd_info / 1.2 allow r class-read pool=p / 1.3 allow class rbd child_attach pool=p object_prefix rbd_header. / 1.4 allow class rbd child_detach pool=p object_prefix rbd_header.",
    ),
    ("profile nosuch, profile read-only", "2.1 allow r"),
];

#[test]
fn texts_expand(rt: HostRuntime) -> Result<(), Fail> {
    for (text, expected) in EXPANSIONS {
        let found = expansion(rt.alloc(), text)?;
        assert_eq!(rt; found.as_str(), *expected);
    }
    Ok(())
}

/// Each text that Ceph refuses, beside the byte behind the last whole grant.
const REFUSED: &[(&str, usize); 26] = &[
    ("", 0),
    (" ", 1),
    ("allow", 0),
    ("Allow r", 0),
    ("allow*", 0),
    ("allow wr", 7),
    ("allow r w", 8),
    ("allow r,\nallow w", 7),
    ("allow r\n, allow w", 8),
    ("allow r, ", 7),
    ("allow r pool=", 8),
    ("allow r pool= a", 8),
    ("allow r pool =a", 8),
    ("allow r pool=*", 8),
    ("allow r pool=\"\"", 8),
    ("allow r namespace=*", 8),
    ("allow r namespace=a*r", 20),
    ("allow r object_prefix=a", 8),
    ("allow rw tag cephfs data=allied", 28),
    ("allow class C pool=x", 18),
    ("allow r pool=a tag cephfs data=b", 15),
    ("allow r network 10.0.0.0 /8", 25),
    ("allow r network -1", 8),
    ("profile", 0),
    ("profile rbd object_prefix a", 12),
    ("allow rw pool=a, permit r", 15),
];

#[test]
fn texts_are_refused(rt: HostRuntime) {
    for (text, at) in REFUSED {
        let fault = read(rt.alloc(), text).err();
        assert_eq!(rt; fault, Some(CephFault::Refused { at: *at }), "{text}");
    }
}

#[test]
fn unknown_profiles_are_numbered(rt: HostRuntime) -> Result<(), Fail> {
    let list = read(
        rt.alloc(),
        "profile osd, allow r, profile crash, profile rbd",
    )?;
    let numbers = unknown_profiles(rt.alloc(), &list)?;
    assert_eq!(rt; numbers.as_slice(), [1, 3].as_slice());
    Ok(())
}

#[test]
fn limits_are_named(rt: HostRuntime) -> Result<(), Fail> {
    let mut text = String::from_str(rt.alloc(), "allow r")?;
    for _ in 1..4096 {
        text.push_str(",allow r")?;
    }
    assert_eq!(rt; read(rt.alloc(), text.as_str())?.grants().len(), 4096);
    text.push_str(",allow r")?;
    assert_eq!(rt;
        read(rt.alloc(), text.as_str()).err(),
        Some(CephFault::TooManyGrants)
    );
    let mut text = String::from_str(rt.alloc(), " ")?;
    for _ in 0..20 {
        let half = text.clone()?;
        text.push_str(half.as_str())?;
    }
    assert_eq!(rt;
        read(rt.alloc(), text.as_str()).err(),
        Some(CephFault::Refused { at: 1_048_576 })
    );
    text.push_str(" ")?;
    assert_eq!(rt;
        read(rt.alloc(), text.as_str()).err(),
        Some(CephFault::TooLong)
    );
    Ok(())
}
