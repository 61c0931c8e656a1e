//! The rules that refuse a command.
use uf_cid::Text;
use uf_tree::Name;

/// The rule that refuses a command. A text is the path up to the name that decides: `/`, and the names joined by `/`.
#[derive(Drop)]
pub enum Rule {
    NotFound(Text),
    NotADirectory(Text),
    IsADirectory(Text),
    Exists(Text),
    NeedsRecursive(Text),
    RootRefused,
    Inside(Text, Text),
    FileTooLong,
    Collision(Name, Name),
    TooBig,
}

/// The rule that refuses a command, before its path is reported: a number says how many names of the path lead to what
/// decides.
#[derive(Drop)]
pub enum Refused {
    NotFound(usize),
    NotADirectory(usize),
    IsADirectory(usize),
    Exists(usize),
    NeedsRecursive(usize),
    RootRefused,
    FileTooLong,
    Collision(Name, Name),
    TooBig,
}
