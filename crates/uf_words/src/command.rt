//! Commands, and why words are none.
use std::alloc::{AllocError, AllocFailed};
use uf_cid::{Block, Memory, Text};
use uf_tree::Profile;

/// Why words are no command.
#[derive(Clone, Copy, Debug, PartialEq, Eq)]
pub enum WordFault {
    /// They are not the words of a command.
    Usage,
    /// Memory was wanting to read them.
    Memory,
}

impl From<Memory> for WordFault {
    ghost use Rattle.std.specs.Prelude.{◌≡◌};
    ghost use Rattle.uf_words.specs.declared.command.WordFault.TheVariants as faults;

    ghost from_gives = { λ _ fault. fault ≡ faults.Memory };

    fn from(_: Memory) -> Self {
        WordFault::Memory
    }
}

impl From<AllocError> for WordFault {
    ghost use Rattle.std.specs.Prelude.{◌≡◌};
    ghost use Rattle.uf_words.specs.declared.command.WordFault.TheVariants as faults;

    ghost from_gives = { λ _ fault. fault ≡ faults.Memory };

    fn from(_: AllocError) -> Self {
        WordFault::Memory
    }
}

impl<T: Drop> From<AllocFailed<T>> for WordFault {
    ghost use Rattle.std.specs.Prelude.{◌≡◌};
    ghost use Rattle.uf_words.specs.declared.command.WordFault.TheVariants as faults;

    ghost from_gives = { λ _ fault. fault ≡ faults.Memory };

    fn from(_: AllocFailed<T>) -> Self {
        WordFault::Memory
    }
}

/// A command with its options and arguments. Paths, targets and CIDs are words as they were given: they are read when
/// the command is run.
#[derive(Drop)]
pub enum Cmd {
    /// `init [--chunk N] [--width N] [--threshold N]`
    Init {
        profile: Profile,
    },
    /// `add [-r] [-n] [--to-files PATH] [HOSTPATH]`
    Add {
        recursive: bool,
        only_hash: bool,
        to_files: Option<Text>,
        host_path: Option<Text>,
    },
    /// `cat TARGET`
    Cat {
        target: Text,
    },
    /// `get TARGET HOSTPATH`
    Get {
        target: Text,
        host_path: Text,
    },
    /// `files mkdir [-p] PATH`
    Mkdir {
        parents: bool,
        path: Text,
    },
    /// `files ls [-l] [PATH]`
    Ls {
        long: bool,
        path: Text,
    },
    /// `files stat PATH`
    Stat {
        path: Text,
    },
    /// `files read [-o N] [-n N] PATH`
    Read {
        offset: u64,
        count: u64,
        path: Text,
    },
    /// `files write [-o N] [-e] [-t] [-x HEX] PATH`
    Write {
        offset: u64,
        create: bool,
        cut: bool,
        hex: Option<Block>,
        path: Text,
    },
    /// `files truncate PATH LENGTH`
    Truncate {
        path: Text,
        length: u64,
    },
    /// `files cp SOURCE DEST`
    Cp {
        source: Text,
        dest: Text,
    },
    /// `files mv SOURCE DEST`
    Mv {
        source: Text,
        dest: Text,
    },
    /// `files rm [-r] PATH`
    Rm {
        recursive: bool,
        path: Text,
    },
    /// `files chmod MODE PATH`
    Chmod {
        mode: u64,
        path: Text,
    },
    /// `files touch [--nanos N] SECONDS PATH`; 0 nanoseconds stand for none
    Touch {
        nanos: u64,
        seconds: u64,
        path: Text,
    },
    /// `files strip PATH`
    Strip {
        path: Text,
    },
    /// `dag export CID`
    Export {
        cid: Text,
    },
    /// `dag same CID`
    Same {
        cid: Text,
    },
    /// `dag import`
    Import,
    /// `pin add CID`
    PinAdd {
        cid: Text,
    },
    /// `pin rm CID`
    PinRm {
        cid: Text,
    },
    /// `pin ls`
    PinLs,
    /// `repo gc`
    Gc,
    /// `prove [--absent] PATH`
    Prove {
        absent: bool,
        path: Text,
    },
    /// `check [--absent] CID PATH`
    Check {
        absent: bool,
        cid: Text,
        path: Text,
    },
    /// `pull CID`
    Pull {
        cid: Text,
    },
    /// `serve`
    Serve,
    /// `batch`
    Batch,
    /// `gen N SEED`
    Gen {
        n: u64,
        seed: u64,
    },
}
