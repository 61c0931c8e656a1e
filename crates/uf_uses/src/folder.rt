//! A tree with one folder.
ghost use Rattle.std.specs.Prelude.{◌≡◌, ◌<◌, ◌-◌, ◌^◌, IfOk, IfSome, None};
ghost use Rattle.uf_uses.specs.Folder.{IsRootWith};

use std::alloc::Global;
use std::sync::ledger::Ledger;
use uf_cid::Cid;
use uf_mfs::{Mfs, MfsFault};
use uf_murmur::NameHash;
use uf_path::Path;
use uf_store::{Steps, Store};
use uf_tree::Profile;

/// Makes a store ready, and a folder at a path in it. It answers the CID of the root, which the Head then names.
pub fn root_with_folder<S: Store, N: NameHash, L: Ledger>(
    alloc: Global,
    store: &mut S,
    path: &Path,
    touches: &mut Steps<L>,
) -> Result<Cid, MfsFault>
    // Over a store that tells, has no Head, and whose counts can rise, the root is that of the plain tree.
    ensures { IfSome (S.seen store.old).told (λ t. t.notes.head ≡ None
        → (S.seen store.old).faults < 2 ^ 64 - 1 → (S.seen store.old).clashes < 2 ^ 64 - 1
        → IfOk result (IsRootWith S.X.block32 N.name64 path.now.names)) }
{
    let mut tree = Mfs::init::<S, N, L>(alloc, store, Profile::usual(), touches)?;
    tree.mkdir::<S, N, L>(alloc, store, path, false, touches)?;
    tree.commit::<S, N, L>(alloc, store, touches)?;
    Ok(tree.root.cid)
}
