//! The man page, made of the help of the command line.

use crate::commands::{commands, whole_command};
use clap::Command;
use common_types::OutOfMemory;
use std::alloc::Global;

const SYNOPSIS: &str = "
.SH SYNOPSIS
.B osdgate
.I COMMAND
.RI [ OPTIONS ]
.br
.B osdgate help
.RI [ COMMAND ]
.SH COMMANDS
";

const OUTPUT: &str = "\
.SH OUTPUT
Answers go to standard output: lines of text, or with
.B \\-\\-format json
one document. What is told beside an answer goes to standard error, behind
.BR osdgate: ,
so do the caret below the fault of a capability text, and advice.
A name with bytes outside of 32 to 126 is shown with
.B \\ex
and two hexadecimal digits for each.
";

const STATUS: &str = "\
.SH EXIT STATUS
.TP
.B 0
Nothing was found. A denial is 0, unless
.B \\-\\-check
is given.
.TP
.B 1
Something was found: a capability text or the calls are refused; a check finds what it is for; an entity could not be checked,
or access depends on tags that are not known, unless
.B \\-\\-known
is given; a suggestion widens a text; a rule fails or names nobody; a script has a bad line; or workers met a fault.
.TP
.B 2
There is no answer: the words are no command line, a file cannot be read or is not what it is read for, memory is out, or
the answer cannot be written.
";

/// Adds a text as roff shows it.
fn push_roff(text: &mut String, more: &str) -> Result<(), OutOfMemory> {
    for letter in more.chars() {
        match letter {
            '-' => text.push_str("\\-")?,
            '\\' => text.push_str("\\e")?,
            '\'' => text.push_str("\\(aq")?,
            '.' => text.push_str("\\&.")?,
            _ => text.push(letter)?,
        }
    }
    Ok(())
}

/// Adds a tagged paragraph.
fn push_tagged(text: &mut String, tag: &str, help: &str) -> Result<(), OutOfMemory> {
    text.push_str(".TP\n.B ")?;
    push_roff(text, tag)?;
    text.push_str("\n")?;
    push_roff(text, help)?;
    text.push_str("\n")
}

/// Adds a line of usage.
fn push_usage(text: &mut String, usage: &str) -> Result<(), OutOfMemory> {
    text.push_str(".br\n")?;
    push_roff(text, usage)?;
    text.push_str("\n")
}

/// Adds what a line of a command's help says: an option or an operand with its values, or a usage.
fn push_line(text: &mut String, line: &str) -> Result<(), OutOfMemory> {
    let words = line.trim_start();
    if let Some(usage) = words.strip_prefix("Usage: ") {
        return push_usage(text, usage);
    }
    if words.len() == line.len() {
        return Ok(());
    }
    match words.split_once("  ") {
        Some((tag, help)) => push_tagged(text, tag, help.trim_start()),
        None => push_usage(text, words),
    }
}

/// Adds a section on a command, made of its help.
fn push_command(text: &mut String, name: &str, about: &str, help: &str) -> Result<(), OutOfMemory> {
    text.push_str(".SS ")?;
    push_roff(text, name)?;
    text.push_str("\n")?;
    push_roff(text, about)?;
    text.push_str(".\n")?;
    for line in help.lines() {
        push_line(text, line)?;
    }
    Ok(())
}

/// Adds the examples of a command's help.
fn push_examples(text: &mut String, help: &str) -> Result<(), OutOfMemory> {
    for line in help.lines() {
        if let Some(example) = line.strip_prefix("Example: ") {
            text.push_str(".PP\n.nf\n")?;
            push_roff(text, example)?;
            text.push_str("\n.fi\n")?;
        }
    }
    Ok(())
}

/// What a command is called, what it is for, and its help.
#[derive(Drop)]
struct Helped<'a> {
    name: &'a str,
    about: &'a str,
    help: String,
}

/// The help of a command, under the program's name.
fn help_of<'a>(alloc: Global, command: Command<'a>) -> Result<Helped<'a>, OutOfMemory> {
    let name = command.get_name();
    let about = command.get_about().unwrap_or("");
    let called = format!(in alloc; "osdgate {name}")?;
    let mut command = command.bin_name(called.as_str())?;
    Ok(Helped {
        name,
        about,
        help: command.render_help()?,
    })
}

/// The help of each command.
fn all_helped<'a>(alloc: Global) -> Result<Vec<Helped<'a>>, OutOfMemory> {
    let mut all = Vec::new(alloc);
    for command in commands(alloc)? {
        all.push(help_of(alloc, command)?)?;
    }
    Ok(all)
}

/// Adds the page: what the program is, its commands, examples, what is printed, and the status.
fn push_page(text: &mut String, about: &str, all: &[Helped<'_>]) -> Result<(), OutOfMemory> {
    text.push_str(".TH OSDGATE 1\n.SH NAME\nosdgate \\- ")?;
    push_roff(text, about)?;
    text.push_str(SYNOPSIS)?;
    for it in all {
        push_command(text, it.name, it.about, it.help.as_str())?;
    }
    text.push_str(OUTPUT)?;
    text.push_str(STATUS)?;
    text.push_str(".SH EXAMPLES\n")?;
    for it in all {
        push_examples(text, it.help.as_str())?;
    }
    text.push_str(".SH SEE ALSO\n.BR ceph (8)\n")
}

/// The man page of this program.
pub fn manual(alloc: Global) -> Result<String, OutOfMemory> {
    let whole = whole_command(alloc)?;
    let all = all_helped(alloc)?;
    let mut text = String::new(alloc);
    push_page(&mut text, whole.get_about().unwrap_or(""), all.as_slice())?;
    Ok(text)
}
