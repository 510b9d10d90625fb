//! By whose rules a document holds.

ghost use Rattle.std.specs.Prelude.{◌≡◌, IfOk, string_bytes};
ghost use Rattle.verdict_text.specs.RulesMember as spec;

use crate::reading::Rules;
use common_types::OutOfMemory;
use std::alloc::Global;

/// The word of rules, as `--rules` takes it.
pub fn rules_word(rules: Rules) -> &'static str
    ensures { result.now ≡ spec.rules_word rules }
{
    match rules {
        Rules::Project => "project",
        Rules::Ceph => "ceph",
    }
}

/// A line without the brace that begins it.
fn without_brace(line: &str) -> &str
    ensures { result.now ≡ spec.without_brace line.now }
{
    match line.strip_prefix('{') {
        Some(rest) => rest,
        None => line,
    }
}

/// A document on a line with the member `rules`, the first, which says by whose rules the answer holds. The line is that of a
/// document with members. The only error is out of memory.
pub fn with_rules(alloc: Global, line: &str, rules: Rules) -> Result<String, OutOfMemory>
    ensures { IfOk result (λ text. string_bytes text ≡ spec.with_rules rules line.now) }
{
    let mut text = String::from_str(alloc, "{\"rules\":\"")?;
    text.push_str(rules_word(rules))?;
    text.push_str("\",")?;
    text.push_str(without_brace(line))?;
    Ok(text)
}
