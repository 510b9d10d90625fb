//! Lengths in a picture.

use std::fmt;
use std::ops::{Add, Mul, Sub};

/// A length or a place, in pixels. A sum that is too great is the greatest one, a difference below 0 is 0.
#[derive(Clone, Copy)]
pub(crate) struct Px(pub(crate) u32);

impl Px {
    /// So many pixels, or the greatest length.
    pub(crate) fn of(count: usize) -> Px {
        match u32::try_from(count) {
            Ok(count) => Px(count),
            Err(_) => Px(u32::MAX),
        }
    }

    /// The greater of two lengths.
    pub(crate) fn or_more(self, other: Px) -> Px {
        if self.0 < other.0 { other } else { self }
    }
}

impl Add for Px {
    type Output = Px;

    fn add(self, other: Px) -> Px {
        Px(self.0.saturating_add(other.0))
    }
}

impl Sub for Px {
    type Output = Px;

    fn sub(self, other: Px) -> Px {
        Px(self.0.saturating_sub(other.0))
    }
}

impl Mul<usize> for Px {
    type Output = Px;

    fn mul(self, count: usize) -> Px {
        Px(self.0.saturating_mul(Px::of(count).0))
    }
}

impl fmt::Display for Px {
    fn fmt<W: fmt::Write>(&self, f: &mut fmt::Formatter<W>) -> fmt::Result {
        let Px(pixels) = self;
        write!(f, "{pixels}")
    }
}
