//! What words ask for, and why it is refused.
use uf_cid::{Block, Cid, Text};
use uf_path::{DagPath, Path, PathFault};
use uf_plain::{MetaEdit, Ready, Rule, WriteHow};
use uf_store::StoreFault;
use uf_tree::{Name, Profile};

/// An edit of the tree at a path.
#[derive(Drop)]
pub enum Edit {
    /// `files mkdir`: a directory is made, with those above it where `parents`.
    Mkdir { parents: bool },
    /// `files rm`: what is there is taken away, a directory only where `recursive`.
    Rm { recursive: bool },
    /// `files write -x`: a piece is written into a file.
    Write { how: WriteHow, piece: Block },
    /// `files truncate`: a file gets this length.
    Truncate { length: u64 },
    /// `files cp`: what is there is copied to where another path leads.
    Cp { dest: Path },
    /// `files mv`: it is moved there.
    Mv { dest: Path },
    /// `files chmod`, `files touch` and `files strip`: the metadata of what is there is changed.
    SetMeta { what: MetaEdit },
}

/// What is asked of the tree at a path.
#[derive(Drop)]
pub enum Ask {
    /// `files ls`: its list, with CIDs and sizes where `long`.
    Ls { long: bool },
    /// `files stat`: what is said of it.
    Stat,
    /// An edit.
    Edit { edit: Edit },
}

/// What is asked of the pins.
#[derive(Drop)]
pub enum PinAsk {
    /// `pin add`: a CID is pinned.
    Add { cid: Cid },
    /// `pin rm`: it is pinned no more.
    Remove { cid: Cid },
    /// `pin ls`: the CIDs that are pinned.
    List,
}

/// What `add` adds, from where, and to where.
#[derive(Drop)]
pub enum Adding {
    /// `add` of the input; with `-n` it is only hashed.
    Input {
        only_hash: bool,
    },
    /// `add HOSTPATH`: the same of what the host has at a path, of a folder where `recursive`.
    Host {
        recursive: bool,
        only_hash: bool,
        path: Text,
    },
    /// `add --to-files DEST`: the input is put as a file where a path of the tree leads.
    InputTo {
        dest: Path,
    },
    /// `add --to-files DEST HOSTPATH`: what the host has at a path is put there.
    HostTo {
        recursive: bool,
        path: Text,
        dest: Path,
    },
}

/// A command, its paths read.
#[derive(Drop)]
pub enum Command {
    /// `init`
    Init { profile: Profile },
    /// `add`: the input, or what the host has at a path, is hashed, kept, or put into the tree.
    Add { adding: Adding },
    /// `files write` without `-x`: the input is written into a file.
    WriteInput { how: WriteHow, path: Path },
    /// `files ls`, `files stat`, and edits: what is asked of the tree at a path.
    At { ask: Ask, path: Path },
    /// `files read`
    Read { offset: u64, count: u64, path: Path },
    /// `cat`
    Cat { path: DagPath },
    /// `get`: what is at a path in a DAG is written to a path of the host.
    Get { path: DagPath, host_path: Text },
    /// `dag export`
    Export { cid: Cid },
    /// `dag import`
    Import,
    /// `dag same`
    Same { cid: Cid },
    /// `files cp /ipfs/..`: what is at a path in a DAG is copied to where a path of the tree leads.
    Adopt { source: DagPath, dest: Path },
    /// `gen`: a tree of `n` files is made on a store of its own.
    Gen { n: u64, seed: u64 },
    /// `pin add`, `pin rm` and `pin ls`: what is asked of the pins.
    Pin { ask: PinAsk },
    /// `prove`: a CAR of the blocks that decide a path, and of a file its own; with `absent` nothing is there.
    Prove { absent: bool, path: Path },
}

/// The rules by which what is asked of the DAGs of others is refused.
#[derive(Drop)]
pub enum DagRule {
    /// `NotFound`: the path leads to nothing.
    NotFound(DagPath),
    /// `NotADirectory`: the path goes on after a file.
    NotADirectory(DagPath),
    /// `IsADirectory`: the path leads to a directory where a file is wanted.
    IsADirectory(DagPath),
    /// `NotUnixfs`: the block is none of UnixFS, for a numbered reason.
    NotUnixfs(Cid, u8),
    /// `DuplicateName`: a directory has this name twice.
    DuplicateName(Cid, Name),
    /// `BadName`: a directory has a name that isn't good.
    BadName(Cid),
    /// `Unsupported`: the block is of a kind that isn't read.
    Unsupported(Cid),
    /// `TooDeep`: the block is too many links away.
    TooDeep(Cid),
    /// `TooMany`: there are too many blocks.
    TooMany,
    /// `TooManyPins`: as many CIDs are pinned as may be.
    TooManyPins,
    /// `NotPinned`: the CID isn't pinned.
    NotPinned(Cid),
    /// `OtherRoot`: a CAR that is read as a proof has this root.
    OtherRoot(Cid),
}

/// The rules by which what is asked of the host is refused, each with a path in it.
#[derive(Drop)]
pub enum HostRule {
    /// `HostAbsent`: nothing is there, or no folder that is there has it.
    Absent(Text),
    /// `HostOther`: it is neither a file nor a folder.
    Other(Text),
    /// `HostExists`: something is there already.
    Exists(Text),
    /// `HostName`: a name isn't good.
    Name(Text),
    /// `HostDeep`: a folder is too many folders down.
    Deep(Text),
}

/// Why a command is refused.
#[derive(Drop)]
pub enum Refusal {
    /// A rule of the tree.
    Rule(Rule),
    /// A rule for DAGs of others.
    Dag(DagRule),
    /// A rule for the host.
    Host(HostRule),
    /// `BadPath`: a text is no path.
    BadPath(PathFault),
    /// `InputTooLong`: the input, or a line of a batch, is too long.
    InputTooLong,
    /// The words are those of no command.
    Usage,
    /// The store isn't ready for the command.
    Ready(Ready),
    /// The note of pins isn't read.
    BadPins,
    /// A reading of the input or of the host failed.
    Read,
    /// A writing of the output or to the host failed.
    Write,
    /// The store failed, lacks a block, has one that isn't canonical, or met a clash, or memory was wanting.
    Store(StoreFault),
    /// `Car`: a fault of a CAR by its number, and the byte with which the header or the section begins.
    Car { number: u8, place: u64 },
    /// The sections of a CAR that is compared lack the block of this CID.
    CarLacks(Cid),
    /// Two blocks clash in a store of the command's own, of the sections of a CAR or of what it generates, the earlier
    /// one first.
    OwnClash(Cid, Block, Block),
}

/// The rules by which a peer is refused.
#[derive(Drop)]
pub enum PeerRule {
    /// `PeerLacks`: the peer lacks this block.
    Lacks(Cid),
    /// `PeerEnded`: its bytes ended before this block came.
    Ended(Cid),
    /// `PeerBad`: its frame that begins at this byte, counted from 0, deviates from the form.
    Bad(u64),
    /// `PeerNoise`: too many of its frames answered for nothing that was asked.
    Noise,
    /// `BadWant`: its line with this number, counted from 1, asks for nothing.
    BadWant(u64),
}

/// Why a talk with a peer ended early.
#[derive(Drop)]
pub enum PeerRefusal {
    /// A rule for peers.
    Peer(PeerRule),
    /// What other commands are refused for as well.
    Other(Refusal),
}
