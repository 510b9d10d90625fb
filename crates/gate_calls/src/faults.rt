//! Faults of capability texts, in the numbers that C gets.

ghost use Rattle.std.specs.Prelude.{◌≡◌, Some, length};
ghost use Rattle.std.specs.Option.{option_map};
ghost use Rattle.gate_calls.specs.Buffers.{filled};
ghost use Rattle.gate_calls.specs.Faults as spec;

use crate::buffers::copy_in;
use crate::making::Refusal;
use cap_text::FaultKind;
use ceph_text::CephFault;
use grant_core::ExpandFault;

/// The rule that a text breaks, and where: C's `sig_fault`.
///
/// Rules C1 to C7 are 1 to 7, and `at` is the offset of a byte. G1 is 17 and G5 is 21, and `at` is the number of a grant, counted
/// from 1, or 0. E1 is 33, and `at` is the offset of the byte where Ceph's reading stops; E2 to E4 are 34 to 36, and `at` is 0.
#[repr(C)]
#[derive(Drop)]
pub struct SigFault {
    pub rule: u32,
    pub at: usize,
}

fn spelling_rule(kind: FaultKind) -> u32
    ensures { result ≡ spec.spelling_rule kind }
{
    match kind {
        FaultKind::TooLong => 1,
        FaultKind::TooManyGrants => 2,
        FaultKind::UnknownWord => 3,
        FaultKind::BadAccess => 4,
        FaultKind::BadMatch => 5,
        FaultKind::BadWord => 6,
        FaultKind::NetworkClause => 7,
        FaultKind::OutOfMemory => 8,
    }
}

fn expansion_fault(fault: ExpandFault) -> SigFault
    ensures { (result.rule, result.at) ≡ spec.expansion_rule fault }
{
    match fault {
        ExpandFault::UnknownProfile(number) => SigFault {
            rule: 17,
            at: number,
        },
        ExpandFault::DuplicateProfile => SigFault { rule: 18, at: 0 },
        ExpandFault::TagInProfile(number) => SigFault {
            rule: 19,
            at: number,
        },
        ExpandFault::TooManyProfiles => SigFault { rule: 20, at: 0 },
        ExpandFault::TooLarge => SigFault { rule: 21, at: 0 },
        ExpandFault::OutOfMemory => SigFault { rule: 22, at: 0 },
    }
}

fn ceph_fault(fault: CephFault) -> SigFault
    ensures { (result.rule, result.at) ≡ spec.ceph_rule fault }
{
    match fault {
        CephFault::Refused { at } => SigFault { rule: 33, at },
        CephFault::TooLong => SigFault { rule: 34, at: 0 },
        CephFault::TooManyGrants => SigFault { rule: 35, at: 0 },
        CephFault::TooLarge => SigFault { rule: 36, at: 0 },
        CephFault::OutOfMemory => SigFault { rule: 37, at: 0 },
    }
}

/// The fault behind a refusal; `None` if an allocation failed.
pub(crate) fn fault_of(refusal: Refusal) -> Option<SigFault>
    ensures { option_map (λ fault. (fault.rule, fault.at)) result ≡ spec.told refusal }
{
    match refusal {
        Refusal::Spelling(fault) => Some(SigFault {
            rule: spelling_rule(fault.kind),
            at: fault.at,
        }),
        Refusal::Expansion(fault) => Some(expansion_fault(fault)),
        Refusal::Ceph(fault) => Some(ceph_fault(fault)),
        Refusal::OutOfMemory => None,
    }
}

fn rule_name(rule: u32) -> &'static str
    ensures { result.now ≡ spec.rule_name rule }
{
    match rule {
        1 => "C1 TooLong",
        2 => "C2 TooManyGrants",
        3 => "C3 UnknownWord",
        4 => "C4 BadAccess",
        5 => "C5 BadMatch",
        6 => "C6 BadWord",
        7 => "C7 NetworkClause",
        17 => "G1 UnknownProfile",
        21 => "G5 TooLarge",
        33 => "E1 CephRefuses",
        34 => "E2 TextTooLong",
        35 => "E3 TooManyGrants",
        36 => "E4 TooLarge",
        _ => "",
    }
}

/// Writes the printed name of a rule, as `C7 NetworkClause`, and returns its length: 0 for a number that no fault has.
pub fn fault_name(rule: u32, out: &mut [u8]) -> usize
    ensures needed { result ≡ length (spec.rule_name rule) }
    ensures written { out.new ≡ filled (spec.rule_name rule) out.old }
{
    copy_in(out, rule_name(rule).as_bytes())
}
