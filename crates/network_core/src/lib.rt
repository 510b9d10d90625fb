//! Addresses and networks of capability texts.
//!
//! A network is `ADDRESS/LENGTH`, and matches the addresses of its family that share its first bits. Finitely many
//! sample addresses decide a question over all addresses.
#![tactic(auto)]

mod address;
mod network;
mod sampling;

pub use address::Address;
pub use network::Network;
pub use sampling::samples;
