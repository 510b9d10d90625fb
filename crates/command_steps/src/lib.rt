//! The steps that all commands share: arguments become values, files become values, and an answer is written.
//!
//! A command takes the matches of its arguments, and makes values of them and of its files. It returns an [`Answered`],
//! or a [`NoAnswer`] with the reason. [`finish_answer`] and [`finish_unanswered`] write them, and return the status.
#![tactic(auto)]

mod answered;
mod bad_words;
mod by_rules;
mod calls;
mod colours;
mod documents;
mod finishing;
mod inputs;
mod known;
mod known_compare;
mod known_methods;
mod no_answer;
mod options;
mod progress;
mod refusal;
mod request_lines;
mod request_words;
mod tag_words;

pub use answered::{Answered, with_line};
pub use bad_words::{BadWords, NoRequest};
pub use by_rules::{rules_note, with_rules_of};
pub use calls::CallRules;
pub use colours::{Colours, colours_of};
pub use documents::{notes_value, refused_text, text_fault_value};
pub use finishing::{
    DONE, FOUND, TROUBLE, finish_answer, finish_unanswered, refuse_command, refuse_words, write_out,
};
pub use inputs::{
    ChosenFile, auth_in, caps_of, chosen_by, chosen_file_in, chosen_in, chosen_read_by,
    or_bad_file, pools_given, refuse_unmatched, text_in,
};
pub use known::{KnownNames, choice_knowing};
pub use known_compare::{known_widening, rights_part};
pub use known_methods::{gives_more, known_calls, limited_rights};
pub use no_answer::{BadFile, NoAnswer};
pub use options::{
    Methods, Times, choice_of, format_of, methods_line, methods_of, number_of, reader_of,
    registry_of, rules_of, times_of, value_of,
};
pub use progress::Progress;
pub use refusal::{fault_note, first_fault_note};
pub use request_lines::{LineRequest, RequestLine, lines_of, requests_of};
pub use request_words::RequestWords;
pub use tag_words::call_of;
