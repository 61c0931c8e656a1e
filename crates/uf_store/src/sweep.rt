//! Stores that let go of the blocks that nothing keeps.
ghost use Rattle.std.specs.Prelude.{◌≡◌, Bool};
ghost use Rattle.uf_store.specs.Sweeping.{Sweeps, swept};
ghost use Rattle.uf_store.specs.Contents.{Contents};
ghost use Rattle.uf_store.specs.Stops.{IsPlain};
ghost use Rattle.uf_cid.specs.declared.cid.Cid.{Cid as TheCid};

use crate::Store;
use uf_cid::Cids;

/// The answer of a sweep: how many blocks went, or that the store failed, with some of them gone, or that there was no
/// memory, with all of them there.
#[derive(Clone, Copy, Debug, PartialEq, Eq)]
pub enum Swept {
    Done(u64),
    Failed,
    Memory,
}

/// A store that lets go of blocks.
pub trait Sweep: Store {
    /// Lets go of each block whose CID isn't one of these, and answers how many went. A stop in its course leaves each
    /// of those that are kept. The list of past writes is then what makes the blocks that are left and the notes.
    fn sweep(&mut self, kept: &Cids) -> Swept
        ensures swept { Sweeps kept.now result (Self.seen self.old) (Self.seen self.new) };
}

/// What a sweep leaves of a store that tells what was written is again what was written.
pub fn a_swept_store_tells_what_was_written()
    ensures { (stays : TheCid → Bool) (t : Contents) → IsPlain t → IsPlain (swept stays t) }
{}
