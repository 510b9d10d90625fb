//! Completions of the command line for shells, made of its commands and options.

use crate::commands::whole_command;
use clap::builder::ValueParser;
use clap::{Arg, Command};
use common_types::OutOfMemory;
use std::alloc::Global;
use std::fmt::Write;

/// The shells that completions are made for.
#[derive(Clone, Copy)]
pub enum Shell {
    Bash,
    Zsh,
    Fish,
}

/// The options whose values are files.
const FILES: &[&str; 6] = &["auth", "pools", "requests", "log", "picture", "output"];

/// The head of the completions for bash. Names of files are offered as they are, and bash puts quotes round them. A word
/// such as `--auth=F` is three words to bash.
const BASH_HEAD: &str = "\
# Completions of osdgate for bash.
_osdgate_words() {
    local word
    for word in \"$@\"; do
        if [[ $word == \"$current\"* ]]; then COMPREPLY+=(\"$word\"); fi
    done
}
_osdgate_files() {
    local file
    compopt -o filenames -o default || return
    while IFS= read -r file; do COMPREPLY+=(\"$file\"); done < <(compgen -f -- \"$current\")
}
_osdgate() {
    local current=\"${COMP_WORDS[COMP_CWORD]}\" before=\"${COMP_WORDS[COMP_CWORD-1]}\"
    COMPREPLY=()
    if [[ $current == = ]]; then
        current=
    elif [[ $before == = ]]; then
        before=\"${COMP_WORDS[COMP_CWORD-2]}\"
    fi
    if [ \"$COMP_CWORD\" = 1 ]; then set -- commands; else set -- \"${COMP_WORDS[1]}\"; fi
    case \"$1 $before\" in
";

const BASH_COMMANDS: &str = "    esac
    case \"$1\" in
";

const BASH_END: &str = "    esac
}
complete -F _osdgate osdgate
";

impl Shell {
    /// The shell of this name, which is one of those that the command line takes.
    pub fn of(name: &str) -> Shell {
        match name {
            "zsh" => Shell::Zsh,
            "fish" => Shell::Fish,
            _ => Shell::Bash,
        }
    }
}

/// What a shell offers for a value.
#[derive(Clone, Copy)]
enum Offer<'a> {
    Files,
    Words(&'a [&'a str]),
    Nothing,
}

fn offer_of<'a>(arg: &Arg<'a>) -> Offer<'a> {
    if let ValueParser::Names(words) = arg.get_value_parser() {
        return Offer::Words(words);
    }
    match arg.get_long() {
        Some(name) if FILES.iter().any(|file| *file == name) => Offer::Files,
        _ => Offer::Nothing,
    }
}

/// Adds words with a blank behind each.
fn push_words(text: &mut String, words: &[&str]) -> Result<(), OutOfMemory> {
    for word in words {
        write!(text, "{word} ")?;
    }
    Ok(())
}

/// Whether an option must have a value.
fn has_value(arg: &Arg<'_>) -> bool {
    let is_flag = matches!(
        arg.get_action(),
        clap::ArgAction::SetTrue | clap::ArgAction::Help | clap::ArgAction::Version
    );
    !is_flag
        && arg
            .get_num_args()
            .is_none_or(|range| range.min_values() > 0)
}

/// Adds the long names of a command's options, with their dashes and a blank behind each.
fn push_options(text: &mut String, command: &Command<'_>) -> Result<(), OutOfMemory> {
    for arg in command.get_arguments() {
        if let Some(name) = arg.get_long() {
            write!(text, "--{name} ")?;
        }
    }
    text.push_str("--help")
}

/// Adds the names of the commands, with a blank between them.
fn push_commands(text: &mut String, command: &Command<'_>) -> Result<(), OutOfMemory> {
    for inner in command.get_subcommands() {
        write!(text, "{} ", inner.get_name())?;
    }
    text.push_str("help")
}

/// Adds what may follow a command, beside its options: the words that its operands may be.
fn push_operands(text: &mut String, command: &Command<'_>) -> Result<(), OutOfMemory> {
    for arg in command.get_arguments() {
        if arg.get_long().is_none() {
            if let Offer::Words(words) = offer_of(arg) {
                push_words(text, words)?;
            }
        }
    }
    Ok(())
}

/// Adds a case of bash: an option of a command, and what its value may be.
fn push_bash_value(
    text: &mut String,
    command: &Command<'_>,
    arg: &Arg<'_>,
) -> Result<(), OutOfMemory> {
    let Some(name) = arg.get_long() else {
        return Ok(());
    };
    if !has_value(arg) {
        return Ok(());
    }
    let command = command.get_name();
    write!(text, "        '{command} --{name}')")?;
    match offer_of(arg) {
        Offer::Files => text.push_str(" _osdgate_files;")?,
        Offer::Words(words) => {
            text.push_str(" _osdgate_words ")?;
            push_words(text, words)?;
            text.push_str(";")?;
        }
        Offer::Nothing => {}
    }
    text.push_str(" return ;;\n")
}

/// Adds the cases of the options that have values, of each command.
fn push_bash_values(text: &mut String, command: &Command<'_>) -> Result<(), OutOfMemory> {
    for inner in command.get_subcommands() {
        for arg in inner.get_arguments() {
            push_bash_value(text, inner, arg)?;
        }
    }
    Ok(())
}

/// Adds the case of a command: what may follow it.
fn push_bash_command(text: &mut String, command: &Command<'_>) -> Result<(), OutOfMemory> {
    let name = command.get_name();
    write!(text, "        {name}) _osdgate_words ")?;
    push_operands(text, command)?;
    push_options(text, command)?;
    if name == "run" {
        text.push_str("; if [[ $current != -* ]]; then _osdgate_files; fi")?;
    }
    text.push_str(" ;;\n")
}

/// Adds the completions for bash.
fn push_bash(text: &mut String, command: &Command<'_>) -> Result<(), OutOfMemory> {
    text.push_str(BASH_HEAD)?;
    push_bash_values(text, command)?;
    text.push_str(BASH_COMMANDS)?;
    text.push_str("        commands | help) _osdgate_words ")?;
    push_commands(text, command)?;
    text.push_str(" ;;\n")?;
    for inner in command.get_subcommands() {
        push_bash_command(text, inner)?;
    }
    text.push_str(BASH_END)
}

/// Adds a help text between single quotes of zsh and between the brackets of an option of `_arguments`.
fn push_zsh_help(text: &mut String, help: &str) -> Result<(), OutOfMemory> {
    for letter in help.chars() {
        match letter {
            '\'' => text.push_str("'\\''")?,
            '[' | ']' | ':' | '\\' => {
                text.push('\\')?;
                text.push(letter)?;
            }
            _ => text.push(letter)?,
        }
    }
    Ok(())
}

/// Adds a help text between single quotes of fish.
fn push_fish_help(text: &mut String, help: &str) -> Result<(), OutOfMemory> {
    for letter in help.chars() {
        if letter == '\'' || letter == '\\' {
            text.push('\\')?;
        }
        text.push(letter)?;
    }
    Ok(())
}

/// Adds the value of an option, for zsh.
fn push_zsh_value(text: &mut String, arg: &Arg<'_>, name: &str) -> Result<(), OutOfMemory> {
    match offer_of(arg) {
        Offer::Files => text.push_str(":file:_files"),
        Offer::Words(words) => {
            write!(text, ":{name}:(")?;
            push_words(text, words)?;
            text.push_str(")")
        }
        Offer::Nothing => write!(text, ":{name}: "),
    }
}

fn push_zsh_option(text: &mut String, arg: &Arg<'_>) -> Result<(), OutOfMemory> {
    let Some(name) = arg.get_long() else {
        return Ok(());
    };
    let equals = if has_value(arg) { "=" } else { "" };
    write!(text, " \\\n            '*--{name}{equals}[")?;
    push_zsh_help(text, arg.get_help().unwrap_or(""))?;
    text.push_str("]")?;
    if has_value(arg) {
        push_zsh_value(text, arg, name)?;
    }
    text.push_str("'")
}

/// Whether a command has operands that are words.
fn has_word_operands(command: &Command<'_>) -> bool {
    command.get_arguments().iter().any(|arg| arg.get_long().is_none()
        && matches!(offer_of(arg), Offer::Words(_)))
}

/// Adds what may follow a command.
fn push_zsh_operands(text: &mut String, command: &Command<'_>) -> Result<(), OutOfMemory> {
    let name = command.get_name();
    if name == "run" {
        return text.push_str(" \\\n            '*:script:_files'");
    }
    if !has_word_operands(command) {
        return Ok(());
    }
    write!(text, " \\\n            '*:{name}:(")?;
    push_operands(text, command)?;
    text.push_str(")'")
}

fn push_zsh_command(text: &mut String, command: &Command<'_>) -> Result<(), OutOfMemory> {
    let name = command.get_name();
    write!(text, "        {name}) _arguments")?;
    for arg in command.get_arguments() {
        push_zsh_option(text, arg)?;
    }
    push_zsh_operands(text, command)?;
    text.push_str(" ;;\n")
}

/// Adds the completions for zsh.
fn push_zsh(text: &mut String, command: &Command<'_>) -> Result<(), OutOfMemory> {
    text.push_str(
        "#compdef osdgate\n# Completions of osdgate for zsh.\n_osdgate() {\n    if (( CURRENT == 2 )); then\n        compadd -- ",
    )?;
    push_commands(text, command)?;
    text.push_str(
        "\n        return\n    fi\n    local name=$words[2]\n    shift words\n    (( CURRENT-- ))\n    case $name in\n        help) compadd -- ",
    )?;
    push_commands(text, command)?;
    text.push_str(" ;;\n")?;
    for inner in command.get_subcommands() {
        push_zsh_command(text, inner)?;
    }
    text.push_str("    esac\n}\n_osdgate \"$@\"\n")
}

/// Adds the value of an option, for fish.
fn push_fish_value(text: &mut String, arg: &Arg<'_>) -> Result<(), OutOfMemory> {
    match offer_of(arg) {
        Offer::Files => text.push_str(" -r -F"),
        Offer::Words(words) => {
            text.push_str(" -x -a '")?;
            push_words(text, words)?;
            text.push_str("'")
        }
        Offer::Nothing => text.push_str(" -x"),
    }
}

fn push_fish_option(text: &mut String, command: &str, arg: &Arg<'_>) -> Result<(), OutOfMemory> {
    let Some(name) = arg.get_long() else {
        return Ok(());
    };
    write!(
        text,
        "complete -c osdgate -n '__fish_seen_subcommand_from {command}' -l {name}"
    )?;
    if has_value(arg) {
        push_fish_value(text, arg)?;
    }
    text.push_str(" -d '")?;
    push_fish_help(text, arg.get_help().unwrap_or(""))?;
    text.push_str("'\n")
}

/// Adds what may follow a command.
fn push_fish_operands(text: &mut String, command: &Command<'_>) -> Result<(), OutOfMemory> {
    let name = command.get_name();
    if name != "run" && !has_word_operands(command) {
        return Ok(());
    }
    write!(
        text,
        "complete -c osdgate -n '__fish_seen_subcommand_from {name}' "
    )?;
    if name == "run" {
        return text.push_str("-F\n");
    }
    text.push_str("-a '")?;
    push_operands(text, command)?;
    text.push_str("'\n")
}

fn push_fish_command(text: &mut String, command: &Command<'_>) -> Result<(), OutOfMemory> {
    let name = command.get_name();
    write!(
        text,
        "complete -c osdgate -n __fish_use_subcommand -a {name} -d '"
    )?;
    push_fish_help(text, command.get_about().unwrap_or(""))?;
    text.push_str("'\n")?;
    for arg in command.get_arguments() {
        push_fish_option(text, name, arg)?;
    }
    push_fish_operands(text, command)
}

/// Adds the completions for fish.
fn push_fish(text: &mut String, command: &Command<'_>) -> Result<(), OutOfMemory> {
    text.push_str("# Completions of osdgate for fish.\ncomplete -c osdgate -f\n")?;
    for inner in command.get_subcommands() {
        push_fish_command(text, inner)?;
    }
    text.push_str(
        "complete -c osdgate -n __fish_use_subcommand -a help -d 'Prints the help of a command'\ncomplete -c osdgate -n '__fish_seen_subcommand_from help' -a '",
    )?;
    push_commands(text, command)?;
    text.push_str("'\n")
}

/// The completions for a shell.
fn completions_of(
    alloc: Global,
    command: &Command<'_>,
    shell: Shell,
) -> Result<String, OutOfMemory> {
    let mut text = String::new(alloc);
    match shell {
        Shell::Bash => push_bash(&mut text, command)?,
        Shell::Zsh => push_zsh(&mut text, command)?,
        Shell::Fish => push_fish(&mut text, command)?,
    }
    Ok(text)
}

/// The completions of this program for a shell.
pub fn completions_for(alloc: Global, shell: Shell) -> Result<String, OutOfMemory> {
    let command = whole_command(alloc)?;
    completions_of(alloc, &command, shell)
}
