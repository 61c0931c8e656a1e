//! Calls on paths.

use std::alloc::Global;
use uf_cid::{Block, Memory};
use uf_path::{DagPath, Path, Target};
use uf_playing::{say_cid, say_debug};
use uf_testing::say;
use uf_tree::Names;

fn say_names(told: &mut Block, names: &Names) -> Result<(), Memory> {
    for name in names.as_slice() {
        say(told, name.as_str())?;
    }
    Ok(())
}

// Says the names of a path in the tree, and whether it ends with a slash.
fn say_path(told: &mut Block, path: &Path) -> Result<(), Memory> {
    say_names(told, &path.names)?;
    say(
        told,
        if path.into {
            "into it"
        } else {
            "no slash behind"
        },
    )
}

fn say_dag_path(told: &mut Block, path: &DagPath) -> Result<(), Memory> {
    say_cid(told, &path.cid)?;
    say_names(told, &path.names)
}

/// Reads a text as a path in the tree.
pub fn read_path(alloc: Global, text: &str, told: &mut Block) -> Result<(), Memory> {
    match Path::parse(alloc, text) {
        Ok(path) => say_path(told, &path),
        Err(fault) => say_debug(alloc, told, &fault),
    }
}

/// Reads a text as a path from a CID on.
pub fn read_dag_path(alloc: Global, text: &str, told: &mut Block) -> Result<(), Memory> {
    match DagPath::parse(alloc, text) {
        Ok(path) => say_dag_path(told, &path),
        Err(fault) => say_debug(alloc, told, &fault),
    }
}

/// Reads a text as a path of either kind.
pub fn read_target(alloc: Global, text: &str, told: &mut Block) -> Result<(), Memory> {
    match Target::parse(alloc, text) {
        Ok(Target::Tree(path)) => say_path(told, &path),
        Ok(Target::Dag(path)) => say_dag_path(told, &path),
        Err(fault) => say_debug(alloc, told, &fault),
    }
}
