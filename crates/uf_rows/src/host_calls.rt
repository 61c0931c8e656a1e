//! Calls on a host whose answers say more than a command reports, or that no command makes.
ghost use Rattle.std.specs.Prelude.{◌≡◌, IsTrue};
ghost use Rattle.uf_tree.specs.Profiles.{is_profile};

use crate::world::World;
use std::sync::ledger::Ledger;
use uf_cid::{Block, BlockHash, Cid, Memory, Text};
use uf_edge::MemHost;
use uf_host::{AddedRows, HostFault, add, get};
use uf_lenient::Limits;
use uf_murmur::NameHash;
use uf_store::{MemStore, Steps};
use uf_testing::{number_and_rest, say, word_and_rest};
use uf_tree::Profile;

// The usual profile, but for its threshold.
fn profile(threshold: u64) -> Profile
    ensures { IsTrue (is_profile result) }
{
    match Profile::new(262144, 174, threshold.min(262144) as u32) {
        Ok(p) => p,
        Err(_) => Profile::usual(),
    }
}

// Says what stopped a folder from being added.
fn say_added<X: BlockHash>(
    world: &World<X>,
    answer: &Result<AddedRows, HostFault>,
    told: &mut Block,
) -> Result<(), Memory> {
    match answer {
        Ok(_) => say(told, "added"),
        Err(HostFault::Name(path)) => say_name(world, path, told),
        Err(_) => say(told, "stopped"),
    }
}

fn say_name<X: BlockHash>(world: &World<X>, path: &Text, told: &mut Block) -> Result<(), Memory> {
    let line = format!(in world.alloc; "no name: {}", path.as_str())?;
    say(told, line.as_str())
}

/// Adds a folder of the host by a profile of this threshold: `add-by THRESHOLD PATH`.
pub fn add_by<X: BlockHash, N: NameHash, L: Ledger>(
    world: &mut World<X>,
    rest: &str,
    told: &mut Block,
    touches: &mut Steps<L>,
) -> Result<(), Memory> {
    let (threshold, path) = number_and_rest(rest);
    let answer = add::<MemStore<X>, N, MemHost, L>(
        world.alloc,
        &mut world.store,
        &profile(threshold),
        &mut world.host,
        path,
        true,
        touches,
    );
    say_added(world, &answer, told)
}

// What is said of a tree that was to be written.
fn written(answer: &Result<(), HostFault>) -> &'static str {
    match answer {
        Ok(()) => "written",
        Err(HostFault::Dag(_)) => "no such tree",
        Err(_) => "stopped",
    }
}

/// Writes a tree of at most this many links on a way to the host: `get-within DEPTH CID PATH`.
pub fn get_within<X: BlockHash, L: Ledger>(
    world: &mut World<X>,
    rest: &str,
    told: &mut Block,
    touches: &mut Steps<L>,
) -> Result<(), Memory> {
    let (depth, rest) = number_and_rest(rest);
    let (text, path) = word_and_rest(rest);
    let Ok(cid) = Cid::parse(text) else {
        return say(told, "no CID");
    };
    let limits = Limits {
        depth: depth.min(256) as u32,
        visits: 1048576,
    };
    let answer = get(
        world.alloc,
        &mut world.store,
        &cid,
        &mut world.host,
        path,
        &limits,
        touches,
    );
    say(told, written(&answer))
}
