//! Documents of texts: of one of two that is refused, and of one that is tidied.

use command_steps::{Answered, text_fault_value};
use common_types::OutOfMemory;
use serde_json::{Value, json};
use std::alloc::Global;
use verdict_text::{Printed, TextFault};

/// The document of one of two texts that is refused: its fault, and which one it is.
pub(crate) fn refused_side(
    alloc: Global,
    side: &str,
    fault: TextFault,
) -> Result<Printed, OutOfMemory> {
    let fault = text_fault_value(alloc, fault)?;
    let document: Value = json!(in alloc; {"fault": fault, "side": side})?;
    let mut text = document.to_string(alloc)?;
    text.push_str("\n")?;
    Ok(Printed { text, fails: true })
}

/// The document of a line that is a tidied text, or the reason why no text was tidied.
fn tidied_value(alloc: Global, line: &str) -> Result<Value, OutOfMemory> {
    match line.strip_prefix("refused ") {
        Some(why) => json!(in alloc; {"fault": why}),
        None => json!(in alloc; {"tidied": line}),
    }
}

/// The answer with a tidied text, as a document.
pub(crate) fn tidied_answer(alloc: Global, answered: Answered) -> Result<Answered, OutOfMemory> {
    let mut answered = answered;
    let line = answered.printed.text.as_str();
    let document = tidied_value(alloc, line.strip_suffix('\n').unwrap_or(line))?;
    answered.printed.text = document.to_string(alloc)?;
    answered.printed.text.push_str("\n")?;
    Ok(answered)
}
