//! How texts are compared.

use compare_core::Registry;
use verdict_text::Format;

/// Over which class registries texts are compared, whether a gain fails, and how the answer is printed.
#[derive(Clone, Copy, Debug)]
pub struct Comparison {
    pub registry: Registry,
    /// Whether it fails where a new text allows what the old one denies.
    pub check: bool,
    pub format: Format,
}
