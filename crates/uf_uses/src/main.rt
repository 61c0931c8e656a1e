//! A first caller of the mutable tree: it makes a folder in a store in memory, and prints the CID of the root.
//!
//! Read folder.rt next. It shows what a caller of `uf_mfs` hands over, what the clauses of three calls say, and what
//! follows from them: the root is that of the plain tree with this folder.
#![tactic(auto)]

ghost use Rattle.std.specs.Prelude.{◌≡◌, ◌<◌};

mod folder;

use folder::root_with_folder;
use std::alloc::Global;
use std::marker::Brand;
use std::process::ExitCode;
use std::sync::ledger::{Blank, Ledger};
use uf_cid::{Cid, Sha256Hash};
use uf_murmur::Murmur3;
use uf_path::Path;
use uf_store::{MemStore, Steps};

fn main(rt: HostRuntime) -> ExitCode {
    let Some(root) = root_of_notes::<Brand>(rt.alloc(), Blank::new(1)) else {
        return ExitCode::FAILURE;
    };
    let text = root.text();
    match str::from_utf8(&text) {
        Ok(text) if println!(rt; "{text}").is_ok() => ExitCode::SUCCESS,
        _ => ExitCode::FAILURE,
    }
}

// The root of the tree that has the folder `/notes` and nothing else. No touches are counted.
fn root_of_notes<L: Ledger>(alloc: Global, blank: Blank) -> Option<Cid>
    requires name { blank.name ≡ L.name }
    requires parts { blank.parts ≡ L.parts }
    requires some { 0 < blank.parts }
{
    let mut store = MemStore::<Sha256Hash>::new(alloc);
    let mut touches = Steps::<L>::new(blank);
    let path = Path::parse(alloc, "/notes").ok()?;
    root_with_folder::<_, Murmur3, L>(alloc, &mut store, &path, &mut touches).ok()
}
