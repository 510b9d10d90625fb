//! Verdicts of grants with networks, as an OSD of Ceph 16.2.15 gave them.

use cap_text::{Access, AllowGrant, Flags};
use common_types::{Items, OutOfMemory};
use grant_core::Path;
use network_core::{Address, Network};
use request_types::{Condition, Needs, Target};
use rights_core::{Everywhere, Rights, addresses, judge_at, judge_everywhere, tickets};
use std::alloc::Global;
use std::test::Fail;

fn flags(read: bool, write: bool) -> AllowGrant {
    AllowGrant {
        access: Access::Flags(Flags {
            read,
            write,
            class_read: false,
            class_write: false,
        }),
        pool: None,
        namespace: None,
        tag: None,
        prefix: None,
    }
}

/// `allow r, allow rw network N`.
fn read_and_write_from(alloc: Global, network: &[u8]) -> Result<Rights, OutOfMemory> {
    let mut grants = Vec::new(alloc);
    grants.push((Path::of(alloc, &[1])?, flags(true, false)))?;
    grants.push((Path::of(alloc, &[2])?, flags(true, true)))?;
    let mut networks = Vec::new(alloc);
    networks.push(None)?;
    networks.push(Some(Network::parse(network)))?;
    if grants.len() > 16384 {
        grants.clear();
    }
    Ok(Rights::from_grants(grants, networks, None))
}

/// The verdict on a write or a read from any address.
fn verdict(alloc: Global, rights: &Rights, writes: bool) -> Result<Everywhere, OutOfMemory> {
    let tags = Items::new(alloc);
    let target = Target {
        pool: b"data",
        tags: &tags,
        namespace: b"",
        object: b"o",
    };
    let needs = Needs {
        reads: !writes,
        writes,
        calls: Items::new(alloc),
    };
    judge_everywhere(alloc, rights, &target, &needs, 0)
}

/// The address that is allowed and the one that is denied.
fn depends(verdict: Everywhere) -> Option<(Address, Address)> {
    match verdict {
        Everywhere::Depends { allowed, denied } => Some((allowed, denied)),
        _ => None,
    }
}

/// Whether a write from an address is allowed.
fn is_allowed(alloc: Global, rights: &Rights, address: &[u8]) -> Result<Option<bool>, OutOfMemory> {
    let Some(address) = Address::parse(address) else {
        return Ok(None);
    };
    let tags = Items::new(alloc);
    let target = Target {
        pool: b"data",
        tags: &tags,
        namespace: b"",
        object: b"o",
    };
    let needs = Needs {
        reads: false,
        writes: true,
        calls: Items::new(alloc),
    };
    Ok(Some(judge_at(alloc, rights, &address, &target, &needs, 0)?))
}

#[test]
fn a_write_depends_on_the_address(rt: HostRuntime) -> Result<(), Fail> {
    let alloc = rt.alloc();
    let rights = read_and_write_from(alloc, b"10.1.2.3/8")?;
    assert_eq!(rt; verdict(alloc, &rights, false)?, Everywhere::Allowed);
    let (allowed, denied) = depends(verdict(alloc, &rights, true)?).ok_or("no dependence")?;
    assert!(rt; Network::parse(b"10.0.0.0/8").matches(&allowed));
    assert!(rt; !Network::parse(b"10.0.0.0/8").matches(&denied));
    assert_eq!(rt; is_allowed(alloc, &rights, b"10.255.255.255")?, Some(true));
    assert_eq!(rt; is_allowed(alloc, &rights, b"11.0.0.0")?, Some(false));
    assert_eq!(rt;
        is_allowed(alloc, &rights, b"::ffff:10.0.0.1")?,
        Some(false)
    );
    Ok(())
}

#[test]
fn a_dead_network_allows_nobody(rt: HostRuntime) -> Result<(), Fail> {
    let alloc = rt.alloc();
    let rights = read_and_write_from(alloc, b"127.0.0.1")?;
    assert_eq!(rt; verdict(alloc, &rights, true)?, Everywhere::Denied);
    assert_eq!(rt; verdict(alloc, &rights, false)?, Everywhere::Allowed);
    Ok(())
}

#[test]
fn samples_have_tickets(rt: HostRuntime) -> Result<(), Fail> {
    let alloc = rt.alloc();
    let rights = read_and_write_from(alloc, b"10.0.0.0/8")?;
    assert!(rt; rights.has_networks());
    assert!(rt; rights.as_ticket().is_none());
    let samples = addresses(alloc, &[&rights])?;
    let found = tickets(alloc, &rights, samples.as_slice())?;
    assert_eq!(rt; found.len(), samples.len());
    assert!(rt; found.iter().any(|ticket| ticket.grants().len() == 1));
    assert!(rt; found.iter().any(|ticket| ticket.grants().len() == 2));
    Ok(())
}

#[test]
fn a_dead_network_is_left_out_anywhere(rt: HostRuntime) -> Result<(), Fail> {
    let alloc = rt.alloc();
    let rights = read_and_write_from(alloc, b"127.0.0.1")?;
    assert_eq!(rt; rights.len(), 2);
    assert!(rt; !rights.is_empty());
    assert_eq!(rt; rights.anywhere(alloc)?.grants().len(), 1);
    let rights = read_and_write_from(alloc, b"10.0.0.0/8")?;
    assert_eq!(rt; rights.anywhere(alloc)?.grants().len(), 2);
    Ok(())
}

#[test]
fn entries_have_their_networks(rt: HostRuntime) -> Result<(), Fail> {
    let alloc = rt.alloc();
    let rights = read_and_write_from(alloc, b"10.0.0.0/8")?;
    let (path, network, _) = rights.entry(0).ok_or("no first grant")?;
    assert_eq!(rt; path.as_slice(), [1].as_slice());
    assert_eq!(rt; network, None);
    let (path, network, _) = rights.entry(1).ok_or("no second grant")?;
    assert_eq!(rt; path.as_slice(), [2].as_slice());
    assert_eq!(rt; network, Some(Network::parse(b"10.0.0.0/8")));
    assert!(rt; rights.entry(2).is_none());
    Ok(())
}

/// The conditions that a write fails, grant by grant.
fn failures(
    alloc: Global,
    rights: &Rights,
    from: Option<Address>,
) -> Result<Vec<Condition>, OutOfMemory> {
    let tags = Items::new(alloc);
    let target = Target {
        pool: b"data",
        tags: &tags,
        namespace: b"",
        object: b"o",
    };
    let needs = Needs {
        reads: false,
        writes: true,
        calls: Items::new(alloc),
    };
    let report = rights.report(alloc, &target, &needs, 0, &from)?;
    let mut conditions = Vec::new(alloc);
    for line in report.lines() {
        conditions.push(line.1)?;
    }
    Ok(conditions)
}

#[test]
fn a_report_names_the_network(rt: HostRuntime) -> Result<(), Fail> {
    let alloc = rt.alloc();
    let rights = read_and_write_from(alloc, b"10.0.0.0/8")?;
    let from_outside = failures(alloc, &rights, Address::parse(b"11.0.0.0"))?;
    assert_eq!(rt;
        from_outside.as_slice(),
        [Condition::Write, Condition::Network].as_slice()
    );
    let from_inside = failures(alloc, &rights, Address::parse(b"10.0.0.1"))?;
    assert_eq!(rt; from_inside.as_slice(), [Condition::Write].as_slice());
    let rights = read_and_write_from(alloc, b"127.0.0.1")?;
    let from_anywhere = failures(alloc, &rights, None)?;
    assert_eq!(rt;
        from_anywhere.as_slice(),
        [Condition::Write, Condition::Network].as_slice()
    );
    Ok(())
}
