//! Addresses.

ghost use Rattle.std.specs.Prelude.{◌≡◌, ◌<◌, ◌≤◌, ◌^◌, Some, MatchOption};
ghost use Rattle.network_core.specs.Address as spec;
ghost use Rattle.network_core.specs.declared.address.Address.{Address};

use std::fmt;
use std::net::{IpAddr, Ipv4Addr, Ipv6Addr};

/// An IP address, as the number of its bits: the first bit is the highest.
///
/// An address of either family is different from each of the other: `::ffff:10.0.0.1` is no IPv4 address.
#[derive(Clone, Copy, Debug, PartialEq, Eq, PartialOrd, Ord, Hash)]
pub enum Address {
    /// 32 bits.
    V4(u32),
    /// 128 bits.
    V6(u128),
}

impl Address {
    /// Reads what `inet_pton` reads: dotted IPv4 without leading zeros, or the text form of IPv6. `None` for every other text.
    pub fn parse(text: &[u8]) -> Option<Address>
        ensures { MatchOption result ((a : Address) → ¬ (spec.IsAddressText text.now a)) (λ a. spec.IsAddressText text.now a) }
    {
        match IpAddr::parse_ascii(text) {
            Ok(IpAddr::V4(ip)) => Some(Address::V4(ip.to_bits())),
            Ok(IpAddr::V6(ip)) => Some(Address::V6(ip.to_bits())),
            Err(_) => None,
        }
    }

    /// How many bits an address of its family has: 32 or 128.
    pub fn width(&self) -> u8
        ensures { result ≡ spec.width self.now }
    {
        match self {
            Address::V4(_) => 32,
            Address::V6(_) => 128,
        }
    }

    /// Its bits as a number.
    pub fn number(&self) -> u128
        ensures value { result ≡ spec.number self.now }
        ensures fits { result < 2 ^ spec.width self.now }
    {
        match self {
            Address::V4(number) => u128::from(*number),
            Address::V6(number) => *number,
        }
    }
}

/// Prints the dotted form, or that of RFC 5952.
impl fmt::Display for Address {
    ghost output = { λ a. Some (spec.address_text a) };

    fn fmt<W: fmt::Write>(&self, f: &mut fmt::Formatter<W>) -> fmt::Result {
        match self {
            Address::V4(number) => fmt::Display::fmt(&Ipv4Addr::from_bits(*number), f),
            Address::V6(number) => fmt::Display::fmt(&Ipv6Addr::from_bits(*number), f),
        }
    }
}
