//! Sets of daemons.

ghost use Rattle.std.specs.Prelude.{◌≡◌, ◌≤◌, ◌<◌, ◌==◌, length, slice_index_or, slice_set, take, false, All, AllPairs, ◌≢◌, map, nat_lt};
ghost use Rattle.std.specs.List.{range_with_len, list_any};
ghost use Rattle.place_core.specs.Placement.{numbers_of};

use std::marker::Model;

/// A set of the daemons numbered 0 to 15, which contracts see as 16 flags, one at each number.
#[derive(Clone, Copy, Debug, PartialEq, Eq)]
pub struct DaemonSet {
    flags: [bool; 16],
}

impl Model for DaemonSet {
    ghost use Rattle.std.specs.Prelude.{◌≡◌, List, Bool, length};

    ghost Value = { List Bool };

    ghost view = { λ s. s.flags };

    ghost invariant = { λ s. length s.flags ≡ 16 };

    ghost inverse = { λ flags. record { flags = flags } };
}

impl DaemonSet {
    /// The `count` daemons with the smallest numbers, or all 16.
    pub fn first(count: u8) -> DaemonSet
        ensures { result ≡ map (λ d. nat_lt d count) (range_with_len 0 16) }
    {
        let mut flags = [false; 16];
        for number in 0..16 {
            flags[number] = number < usize::from(count);
        }
        DaemonSet { flags }
    }

    /// Whether a daemon is in the set.
    pub fn has(&self, daemon: u8) -> bool
        ensures value { result ≡ slice_index_or self.now daemon false }
        ensures member { result ≡ list_any (λ d. d == daemon) (numbers_of self.now) }
        ensures long { length self.now ≡ 16 }
    {
        let daemon = usize::from(daemon);
        daemon < 16 && self.flags[daemon]
    }

    /// Puts a daemon into the set, or takes it out. A number of 16 or more changes nothing.
    pub fn set(&mut self, daemon: u8, is_in: bool)
        ensures { self.new ≡ slice_set self.old daemon is_in }
    {
        let daemon = usize::from(daemon);
        if daemon < 16 {
            self.flags[daemon] = is_in;
        }
    }

    /// Writes the numbers of the daemons to the front of `numbers`, from the smallest on, and answers how many they are. It takes no memory.
    pub fn numbers(&self, numbers: &mut [u8; 16]) -> usize
        ensures few { result ≤ 16 }
        ensures list { take result numbers.new ≡ numbers_of self.now }
        ensures small { All (λ d. d < 16) (numbers_of self.now) }
        ensures distinct { AllPairs (λ a b. a ≢ b) (numbers_of self.now) }
    {
        let mut count = 0;
        for daemon in 0..16 {
            if self.flags[daemon] {
                numbers[count] = daemon as u8;
                count += 1;
            }
        }
        count
    }
}
