//! The words after a `!`.

use uf_testing::word_and_rest;

/// What a line after a `!` asks for.
#[derive(Clone, Copy, PartialEq, Eq)]
pub enum Word {
    // The streams of the commands that follow.
    Room,
    InputFails,
    OutputFails,
    ErrorsFail,
    Fine,
    // The store.
    Load,
    Save,
    Sync,
    ReadNote,
    WriteNote,
    Sweep,
    Mend,
    Head,
    Pins,
    ManyPins,
    Forget,
    ForgetLeaf,
    Spoil,
    SpoilLeaf,
    Keep,
    Nest,
    Other,
    Blocks,
    // The host.
    File,
    Folder,
    Folders,
    HostFails,
    Devices,
    AddBy,
    GetWithin,
    // Commands that are done again and again.
    Asks,
    And,
    Repeat,
    Within,
    Fails,
    Stops,
    Rooms,
    Fronts,
    Batch,
}

const WORDS: [(&str, Word); 39] = [
    ("room", Word::Room),
    ("input-fails", Word::InputFails),
    ("output-fails", Word::OutputFails),
    ("errors-fail", Word::ErrorsFail),
    ("fine", Word::Fine),
    ("load-fails", Word::Load),
    ("save-fails", Word::Save),
    ("sync-fails", Word::Sync),
    ("read-note-fails", Word::ReadNote),
    ("write-note-fails", Word::WriteNote),
    ("sweep-fails", Word::Sweep),
    ("mend", Word::Mend),
    ("head", Word::Head),
    ("pins", Word::Pins),
    ("many-pins", Word::ManyPins),
    ("forget", Word::Forget),
    ("forget-leaf", Word::ForgetLeaf),
    ("spoil", Word::Spoil),
    ("spoil-leaf", Word::SpoilLeaf),
    ("keep", Word::Keep),
    ("nest", Word::Nest),
    ("other", Word::Other),
    ("blocks", Word::Blocks),
    ("file", Word::File),
    ("folder", Word::Folder),
    ("folders", Word::Folders),
    ("host-fails", Word::HostFails),
    ("devices", Word::Devices),
    ("add-by", Word::AddBy),
    ("get-within", Word::GetWithin),
    ("asks", Word::Asks),
    ("and", Word::And),
    ("repeat", Word::Repeat),
    ("within", Word::Within),
    ("fails", Word::Fails),
    ("stops", Word::Stops),
    ("rooms", Word::Rooms),
    ("fronts", Word::Fronts),
    ("batch", Word::Batch),
];

/// The first word of a line, where it is one of these, and what follows it.
pub fn word_of(line: &str) -> (Option<Word>, &str) {
    let (first, rest) = word_and_rest(line);
    for (name, word) in &WORDS {
        if *name == first {
            return (Some(*word), rest);
        }
    }
    (None, rest)
}
