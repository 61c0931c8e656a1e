//! Edits of a tree in memory, as words ask for them.
ghost use Rattle.std.specs.Prelude.{IsTrue};
ghost use Rattle.uf_command.specs.Commands.{IsGoodAsk};
ghost use Rattle.uf_command.specs.declared.types.Ask.TheVariants as asks;
ghost use Rattle.uf_command.specs.declared.types.Edit.TheVariants as edits;
ghost use Rattle.uf_edits.specs.Edits.{EditsInMemory};
ghost use Rattle.uf_mfs.specs.Standing.{IsMfs};
ghost use Rattle.uf_plain.specs.Metas.{is_meta_edit};

use std::alloc::Global;
use std::sync::ledger::Ledger;
use uf_command::Edit;
use uf_mfs::{Mfs, MfsFault};
use uf_murmur::NameHash;
use uf_path::Path;
use uf_plain::MetaEdit;
use uf_store::{Steps, Store};

/// Edits the tree at a path, in memory: its Head stays as it is until it is committed.
pub fn edited<S: Store, N: NameHash, L: Ledger>(
    alloc: Global,
    tree: &mut Mfs,
    edit: &Edit,
    path: &Path,
    store: &mut S,
    touches: &mut Steps<L>,
) -> Result<(), MfsFault>
    requires mfs { IsMfs tree.old }
    requires good { IsGoodAsk (asks.Edit edit.now) }
    ensures edits { EditsInMemory S.X.block32 N.name64 tree.old tree.new edit.now path.now result (S.seen store.old)
        (S.seen store.new) touches.old touches.new }
    ensures mfs { IsMfs tree.new }
{
    match edit {
        Edit::Mkdir { parents } => tree.mkdir::<S, N, L>(alloc, store, path, *parents, touches),
        Edit::Rm { recursive } => tree.rm::<S, N, L>(alloc, store, path, *recursive, touches),
        Edit::Write { how, piece } => {
            tree.write::<S, N, L>(alloc, store, path, how, piece.as_slice(), touches)
        }
        Edit::Truncate { length } => {
            tree.truncate::<S, N, L>(alloc, store, path, *length, touches)
        }
        Edit::Cp { dest } => tree.cp::<S, N, L>(alloc, store, path, dest, touches),
        Edit::Mv { dest } => tree.mv::<S, N, L>(alloc, store, path, dest, touches),
        Edit::SetMeta { what } => remade::<S, N, L>(alloc, tree, *what, path, store, touches),
    }
}

// Changes the metadata of what is at a path of the tree, in memory.
fn remade<S: Store, N: NameHash, L: Ledger>(
    alloc: Global,
    tree: &mut Mfs,
    what: MetaEdit,
    path: &Path,
    store: &mut S,
    touches: &mut Steps<L>,
) -> Result<(), MfsFault>
    requires mfs { IsMfs tree.old }
    requires good { IsTrue (is_meta_edit what) }
    ensures edits { EditsInMemory S.X.block32 N.name64 tree.old tree.new (edits.SetMeta what) path.now result
        (S.seen store.old) (S.seen store.new) touches.old touches.new }
    ensures mfs { IsMfs tree.new }
{
    match what {
        MetaEdit::Mode(mode) => tree.set_mode::<S, N, L>(alloc, store, path, mode, touches),
        MetaEdit::Modified(mtime) => {
            tree.set_mtime::<S, N, L>(alloc, store, path, &mtime, touches)
        }
        MetaEdit::Strip => tree.strip::<S, N, L>(alloc, store, path, touches),
    }
}
