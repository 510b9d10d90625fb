//! What a command prints.

/// A text for standard output, and whether the command fails, so that the program ends with status 1.
#[derive(Debug, Drop)]
pub struct Printed {
    pub text: String,
    pub fails: bool,
}
