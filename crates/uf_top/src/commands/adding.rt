//! `add`: the input, or what the host has at a path, is hashed, kept, or put into the tree.
ghost use Rattle.std.specs.Prelude.{Ok};
ghost use Rattle.uf_command.specs.declared.types.Command.TheVariants as commands;
ghost use Rattle.uf_top.specs.Lent.{OverInputHost};
ghost use Rattle.uf_top.specs.Working.{Makes, Spares};

use crate::commands::add::{add, add_only_hash};
use crate::commands::add_from::{hash_from, keep_from};
use crate::commands::add_to_files::{add_from_to, add_to};
use std::alloc::Global;
use std::sync::ledger::Ledger;
use uf_cid::Block;
use uf_command::{Adding, Refusal};
use uf_edge::{Host, Source};
use uf_murmur::NameHash;
use uf_store::{Steps, Store};

// Adds what is to be added, or only hashes it, and gives its rows.
pub fn adds<S: Store, N: NameHash, W: Host, I: Source, L: Ledger>(
    alloc: Global,
    adding: &Adding,
    store: &mut S,
    host: &mut W,
    input: &mut I,
    touches: &mut Steps<L>,
) -> Result<Block, Refusal>
    ensures makes { OverInputHost I.Source W.Host (Makes S.X.block32 N.name64 (commands.Add adding.now) result)
        (S.seen store.old) input.old touches.old host.old (S.seen store.new) input.new touches.new host.new }
    ensures spares { Spares (Ok (commands.Add adding.now)) store.old store.new input.old input.new host.old host.new
        touches.old touches.new }
{
    match adding {
        Adding::Input { only_hash: true } => add_only_hash(alloc, store, input),
        Adding::Input { only_hash: false } => add(alloc, store, input, touches),
        Adding::Host {
            recursive,
            only_hash: true,
            path,
        } => hash_from::<S, N, W>(alloc, *recursive, path, store, host),
        Adding::Host {
            recursive,
            only_hash: false,
            path,
        } => keep_from::<S, N, W, L>(alloc, *recursive, path, store, host, touches),
        Adding::InputTo { dest } => add_to::<S, N, I, L>(alloc, dest, store, input, touches),
        Adding::HostTo {
            recursive,
            path,
            dest,
        } => add_from_to::<S, N, W, L>(alloc, *recursive, path, dest, store, host, touches),
    }
}
