//! Files and folders of a host walked.
ghost use Rattle.std.specs.Prelude.{◌≡◌, ◌≤◌, ◌++◌, false, OnErr, OnOk};
ghost use Rattle.uf_edge.specs.Counts.{Counts};
ghost use Rattle.uf_edge.specs.Host.{IsFolderAt, front};
ghost use Rattle.uf_store.specs.Calls.{OnlySaves};
ghost use Rattle.uf_store.specs.Faults.{NoneIsBad};
ghost use Rattle.uf_host.specs.Adding.{AddsAt, AddsBelow, AddsMember, AddsMembers, AddsRow, SavesReadAt, SavesReadIn};
ghost use Rattle.uf_host.specs.Faults.{edge_fault, is_read_fault};
ghost use Rattle.uf_host.specs.Naming.{ListsFolder, IsNameOf};

use crate::HostFault;
use crate::import::{AddedRow, Import};
use crate::intake::add_file;
use crate::site::Site;
use std::sync::ledger::Ledger;
use uf_cid::{Memory, Text, Texts};
use uf_edge::{Host, Kind, Listing};
use uf_murmur::NameHash;
use uf_store::{Steps, Store, StoreFault};
use uf_tree::{Entry, Meta, Name, NameFault, Pair, Pairs};

// Adds what is at a site, and its rows; at most n levels of folders are walked.
#[cycle(walk)]
pub fn add_at<S: Store, N: NameHash, W: Host, L: Ledger>(
    import: &mut Import,
    store: &mut S,
    host: &mut W,
    site: &Site,
    levels: u16,
    touches: &mut Steps<L>,
) -> Result<Entry, HostFault>
    requires { levels ≤ 257 }
    ensures adds { AddsAt S.X.block32 N.name64 import.old.profile (S.seen store.old).told (S.seen store.new).told
        (W.tree host.old) levels site.now import.old.rows import.new.rows result }
    ensures no_other { OnErr result (SavesReadAt S.X.block32 N.name64 import.old.profile
        (S.seen store.old).told (S.seen store.new).told (W.tree host.old) levels site.now.path) }
    ensures saves { OnlySaves S.X.block32 NoneIsBad (edge_fault result) (S.seen store.old) (S.seen store.new) }
    ensures told { W.tree host.new ≡ W.tree host.old }
    ensures reads { Counts (is_read_fault result) (W.read_faults host.old) (W.read_faults host.new) }
    ensures writes { W.write_faults host.new ≡ W.write_faults host.old }
    ensures profile { import.new.profile ≡ import.old.profile }
{
    let entry = add_below::<S, N, W, L>(import, store, host, site, levels, touches)?;
    put_row(import, site, entry)?;
    Ok(entry)
}

// Puts the row of what is at a site after the others.
fn put_row(import: &mut Import, site: &Site, entry: Entry) -> Result<(), Memory>
    ensures rows { OnOk result (AddsRow site.now.row entry import.old.rows import.new.rows) }
    ensures profile { import.new.profile ≡ import.old.profile }
{
    let path = site.row.copy()?;
    import.rows.push(AddedRow { path, entry })
}

// Adds what is at a site, and the rows of everything in it.
#[cycle(walk)]
fn add_below<S: Store, N: NameHash, W: Host, L: Ledger>(
    import: &mut Import,
    store: &mut S,
    host: &mut W,
    site: &Site,
    levels: u16,
    touches: &mut Steps<L>,
) -> Result<Entry, HostFault>
    requires { levels ≤ 257 }
    ensures adds { AddsBelow S.X.block32 N.name64 import.old.profile (S.seen store.old).told (S.seen store.new).told
        (W.tree host.old) levels site.now import.old.rows import.new.rows result }
    ensures no_other { OnErr result (SavesReadAt S.X.block32 N.name64 import.old.profile
        (S.seen store.old).told (S.seen store.new).told (W.tree host.old) levels site.now.path) }
    ensures saves { OnlySaves S.X.block32 NoneIsBad (edge_fault result) (S.seen store.old) (S.seen store.new) }
    ensures told { W.tree host.new ≡ W.tree host.old }
    ensures reads { Counts (is_read_fault result) (W.read_faults host.old) (W.read_faults host.new) }
    ensures writes { W.write_faults host.new ≡ W.write_faults host.old }
    ensures profile { import.new.profile ≡ import.old.profile }
{
    match host.kind(site.path.as_str()) {
        Kind::File => add_file(import, store, host, &site.path, touches),
        Kind::Folder => add_folder::<S, N, W, L>(import, store, host, site, levels, touches),
        Kind::Other => Err(HostFault::Other(site.path.copy()?)),
        Kind::Absent => Err(HostFault::Absent),
        Kind::Failed => Err(HostFault::Read),
        Kind::Memory => Err(HostFault::Store(StoreFault::Memory)),
    }
}

// Adds the folder at a site, and the rows of everything in it.
#[cycle(walk)]
fn add_folder<S: Store, N: NameHash, W: Host, L: Ledger>(
    import: &mut Import,
    store: &mut S,
    host: &mut W,
    site: &Site,
    levels: u16,
    touches: &mut Steps<L>,
) -> Result<Entry, HostFault>
    requires folder { IsFolderAt (W.tree host.old) site.now.path }
    requires levels { levels ≤ 257 }
    ensures adds { AddsBelow S.X.block32 N.name64 import.old.profile (S.seen store.old).told (S.seen store.new).told
        (W.tree host.old) levels site.now import.old.rows import.new.rows result }
    ensures no_other { OnErr result (SavesReadAt S.X.block32 N.name64 import.old.profile
        (S.seen store.old).told (S.seen store.new).told (W.tree host.old) levels site.now.path) }
    ensures saves { OnlySaves S.X.block32 NoneIsBad (edge_fault result) (S.seen store.old) (S.seen store.new) }
    ensures told { W.tree host.new ≡ W.tree host.old }
    ensures reads { Counts (is_read_fault result) (W.read_faults host.old) (W.read_faults host.new) }
    ensures writes { W.write_faults host.new ≡ W.write_faults host.old }
    ensures profile { import.new.profile ≡ import.old.profile }
{
    if levels == 0 {
        return Err(HostFault::TooDeep(site.path.copy()?));
    }
    let names = names_at(host, site)?;
    let pairs = add_members::<S, N, W, L>(import, store, host, site, &names, levels - 1, touches)?;
    let bare = Meta::none();
    let entry = uf_dir::build::<S, N, L>(
        import.alloc,
        store,
        &import.profile,
        &pairs,
        &bare,
        touches,
    )?;
    Ok(entry)
}

// The names in the folder at a site.
fn names_at<W: Host>(host: &mut W, site: &Site) -> Result<Texts, HostFault>
    requires { IsFolderAt (W.tree host.old) site.now.path }
    ensures names { ListsFolder (W.tree host.old) site.now.path result }
    ensures told { W.tree host.new ≡ W.tree host.old }
    ensures reads { Counts (is_read_fault result) (W.read_faults host.old) (W.read_faults host.new) }
    ensures writes { W.write_faults host.new ≡ W.write_faults host.old }
{
    match host.list(site.path.as_str()) {
        Listing::Names(names) => Ok(names),
        Listing::Failed => Err(HostFault::Read),
        Listing::Memory => Err(HostFault::Store(StoreFault::Memory)),
    }
}

// Adds the members of these names of the folder at a site, with all their rows.
#[cycle(walk)]
fn add_members<S: Store, N: NameHash, W: Host, L: Ledger>(
    import: &mut Import,
    store: &mut S,
    host: &mut W,
    site: &Site,
    names: &Texts,
    levels: u16,
    touches: &mut Steps<L>,
) -> Result<Pairs, HostFault>
    requires { levels ≤ 256 }
    ensures adds { AddsMembers S.X.block32 N.name64 import.old.profile (S.seen store.old).told (S.seen store.new).told
        (W.tree host.old) levels site.now names.now import.old.rows import.new.rows result }
    ensures no_other { OnErr result (SavesReadIn S.X.block32 N.name64 import.old.profile
        (S.seen store.old).told (S.seen store.new).told (W.tree host.old) levels site.now.path names.now) }
    ensures saves { OnlySaves S.X.block32 NoneIsBad (edge_fault result) (S.seen store.old) (S.seen store.new) }
    ensures told { W.tree host.new ≡ W.tree host.old }
    ensures reads { Counts (is_read_fault result) (W.read_faults host.old) (W.read_faults host.new) }
    ensures writes { W.write_faults host.new ≡ W.write_faults host.old }
    ensures profile { import.new.profile ≡ import.old.profile }
{
    let mut pairs = Pairs::new(import.alloc);
    let listed = names.as_slice();
    for at in 0..listed.len() {
        let name = &listed[at];
        let pair = add_member::<S, N, W, L>(import, store, host, site, name, levels, touches)?;
        pairs.push(pair)?;
    }
    Ok(pairs)
}

// Adds the member of this name of the folder at a site, with all its rows.
#[cycle(walk)]
fn add_member<S: Store, N: NameHash, W: Host, L: Ledger>(
    import: &mut Import,
    store: &mut S,
    host: &mut W,
    site: &Site,
    name: &Text,
    levels: u16,
    touches: &mut Steps<L>,
) -> Result<Pair, HostFault>
    requires { levels ≤ 256 }
    ensures adds { AddsMember S.X.block32 N.name64 import.old.profile (S.seen store.old).told (S.seen store.new).told
        (W.tree host.old) levels site.now name.now import.old.rows import.new.rows result }
    ensures no_other { OnErr result (SavesReadAt S.X.block32 N.name64 import.old.profile
        (S.seen store.old).told (S.seen store.new).told (W.tree host.old) levels (front site.now.path ++ name.now)) }
    ensures saves { OnlySaves S.X.block32 NoneIsBad (edge_fault result) (S.seen store.old) (S.seen store.new) }
    ensures told { W.tree host.new ≡ W.tree host.old }
    ensures reads { Counts (is_read_fault result) (W.read_faults host.old) (W.read_faults host.new) }
    ensures writes { W.write_faults host.new ≡ W.write_faults host.old }
    ensures profile { import.new.profile ≡ import.old.profile }
{
    let member = site.member(import.alloc, name.as_str())?;
    let name = name_of(import, &member, name.as_str())?;
    let entry = add_at::<S, N, W, L>(import, store, host, &member, levels, touches)?;
    Ok(Pair { name, entry })
}

// The name of a member, where it is good.
fn name_of(import: &Import, member: &Site, name: &str) -> Result<Name, HostFault>
    ensures name { IsNameOf member.now.path name.now result }
    ensures reads { is_read_fault result ≡ false }
{
    match Name::parse(import.alloc, name) {
        Ok(name) => Ok(name),
        Err(NameFault::Bad) => Err(HostFault::Name(member.path.copy()?)),
        Err(NameFault::Memory) => Err(HostFault::Store(StoreFault::Memory)),
    }
}
