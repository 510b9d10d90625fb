//! Networks and addresses as a running Ceph 16.2.15 was seen to read them.

use network_core::{Address, Network, samples};
use std::process::Abort;
use std::test::Fail;

/// A network, an address, and whether a grant of that network is used for it.
static MATCHES: [(&str, &str, bool); 26] = [
    ("10.0.0.0/8", "10.255.255.255", true),
    ("10.0.0.0/8", "11.0.0.0", false),
    ("10.0.0.0/8", "9.255.255.255", false),
    ("10.1.2.3/8", "10.9.9.9", true),
    ("10.0.0.0/08", "10.9.9.9", true),
    ("10.0.0.0/9", "10.128.0.0", false),
    ("10.1.2.3/32", "10.1.2.3", true),
    ("10.1.2.3/32", "10.1.2.2", false),
    ("10.1.2.3/99", "10.1.2.3", true),
    ("10.1.2.3/99", "10.1.2.2", false),
    ("0.0.0.0/0", "255.255.255.255", true),
    ("0.0.0.0/0", "::", false),
    ("::/0", "ffff::1", true),
    ("::/0", "0.0.0.0", false),
    ("fd00::/8", "fdff::1", true),
    ("fd00::/8", "fe00::", false),
    ("2001:db8::/40", "2001:db8:ff::1", true),
    ("2001:db8::/200", "2001:db8::1", false),
    ("::ffff:10.0.0.1/128", "::ffff:10.0.0.1", true),
    ("::ffff:10.0.0.1/128", "10.0.0.1", false),
    ("10.0.0.1/4294967304", "10.1.0.0", true),
    ("10.0.0.1/4294967304", "11.0.0.0", false),
    ("10.0.0.1/4294967296", "255.0.0.0", true),
    ("10.0.0.1/9223372032559808520", "10.1.0.0", true),
    ("10.0.0.1/9223372036854775807", "10.0.0.2", false),
    ("10.0.0.1/18446744073709551624", "10.0.0.2", false),
];

/// Texts that Ceph takes in a `network` clause and that match nothing.
static NEVER: [&str; 16] = [
    "127.0.0.1",
    "fd00::1",
    "[fd00::]/8",
    "0/0",
    "10/8",
    "127.1/8",
    "010.0.0.0/8",
    "/",
    "beef",
    "10.0.0.0/8/9",
    "10.0.0.0//8",
    "10.0.0.0/8a",
    "10.0.0.0/",
    "/8",
    "10.0.0.256/8",
    "1:2:3:4:5:6:7:8::/8",
];

/// Texts of addresses with the form that is printed (RFC 5952, section 4).
static PRINTED: [(&str, &str); 8] = [
    ("10.0.0.1", "10.0.0.1"),
    ("255.255.255.255", "255.255.255.255"),
    ("::", "::"),
    ("0:0:0:0:0:0:0:1", "::1"),
    ("2001:0DB8::0001", "2001:db8::1"),
    ("2001:db8:0:0:1:0:0:1", "2001:db8::1:0:0:1"),
    ("2001:db8:0:1:1:1:1:1", "2001:db8:0:1:1:1:1:1"),
    ("::ffff:a00:1", "::ffff:10.0.0.1"),
];

/// Texts that are no addresses.
static REFUSED: [&str; 10] = [
    "",
    "1.2.3",
    "1.2.3.4.5",
    "01.2.3.4",
    "256.0.0.0",
    ":::",
    "1::2::3",
    "12345::",
    "::1%1",
    "[::1]",
];

fn is_matched(network: &str, address: &str) -> Option<bool> {
    let address = Address::parse(address.as_bytes())?;
    Some(Network::parse(network.as_bytes()).matches(&address))
}

#[test]
fn networks_match(rt: HostRuntime) {
    for (network, address, expected) in &MATCHES {
        assert_eq!(rt;
            is_matched(network, address),
            Some(*expected),
            "{network} {address}"
        );
    }
}

#[test]
fn other_texts_never_match(rt: HostRuntime) {
    for text in &NEVER {
        assert!(rt; Network::parse(text.as_bytes()).is_never(), "{text}");
    }
    assert!(rt; !Network::parse(b"10.0.0.0/8").is_never());
}

#[test]
fn addresses_print_and_read_back(rt: HostRuntime) -> Result<(), Fail> {
    for (text, expected) in &PRINTED {
        let address = Address::parse(text.as_bytes()).ok_or("no address")?;
        let printed = format!(in rt.alloc(); "{address}")?;
        assert_eq!(rt; printed.as_str(), *expected);
        assert_eq!(rt; Address::parse(printed.as_str().as_bytes()), Some(address));
    }
    Ok(())
}

#[test]
fn other_texts_are_no_addresses(rt: HostRuntime) {
    for text in &REFUSED {
        assert_eq!(rt; Address::parse(text.as_bytes()), None, "{text}");
    }
}

/// Which of the networks match an address.
fn matched(rt: &impl Abort, networks: &[Network; 4], address: &str) -> [bool; 4] {
    let address = Address::parse(address.as_bytes()).expect(rt, "an address");
    matched_by(networks, &address)
}

fn matched_by(networks: &[Network; 4], address: &Address) -> [bool; 4] {
    [
        networks[0].matches(address),
        networks[1].matches(address),
        networks[2].matches(address),
        networks[3].matches(address),
    ]
}

#[test]
fn samples_stand_for_addresses(rt: HostRuntime) -> Result<(), Fail> {
    let networks = [
        Network::parse(b"10.0.0.0/8"),
        Network::parse(b"10.1.0.0/16"),
        Network::parse(b"fd00::/8"),
        Network::parse(b"beef"),
    ];
    let samples = samples(rt.alloc(), &networks)?;
    assert_eq!(rt; samples.as_slice().first(), Some(&Address::V4(0)));
    for address in &[
        "10.1.2.3",
        "10.2.0.0",
        "10.0.255.255",
        "11.0.0.0",
        "192.0.2.1",
        "fd00::1",
        "fe80::1",
    ] {
        let wanted = matched(&rt, &networks, address);
        let found = samples
            .iter()
            .any(|sample| matched_by(&networks, sample) == wanted);
        assert!(rt; found, "{address}");
    }
    Ok(())
}
