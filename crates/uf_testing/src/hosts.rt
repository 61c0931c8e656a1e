//! Hosts in memory, and paths in them.
ghost use Rattle.std.specs.Prelude.{◌≡◌, ◌++◌, ◌==◌, IfOk, IsTrue};
ghost use Rattle.std.specs.List.{list_any};
ghost use Rattle.uf_edge.specs.Host.{front, is_member_name};

use crate::streams::block_of;
use std::alloc::Global;
use uf_cid::{Memory, Text};
use uf_edge::{Host, Kind, MemHost};

/// Whether bytes may be the name of a member.
pub fn is_member(name: &[u8]) -> bool
    ensures { result ≡ is_member_name name.now }
{
    !name.is_empty() && !has_slash(name)
}

fn has_slash(name: &[u8]) -> bool
    ensures { result ≡ list_any (λ b. b == 47) name.now }
{
    name.iter().any(|byte| *byte == b'/')
}

/// The path of a member of a folder.
pub fn path_of(alloc: Global, folder: &str, name: &str) -> Result<Text, Memory>
    ensures { IfOk result (λ text. text ≡ front folder.now ++ name.now) }
{
    let mut path = Text::new(alloc);
    path.push_str(folder)?;
    if folder != "/" {
        path.push_str("/")?;
    }
    path.push_str(name)?;
    Ok(path)
}

// Puts a file or a folder into the working folder, without a call that writes.
fn plant_first(
    alloc: Global,
    host: &mut MemHost,
    name: &str,
    content: Option<&[u8]>,
) -> Result<(), Memory>
    requires { IsTrue (is_member_name name.now) }
{
    match (host.kind(name), content) {
        (Kind::Absent, Some(bytes)) => host.plant_file(name, block_of(alloc, bytes)?),
        (Kind::Absent, None) => host.plant_folder(name),
        _ => Err(Memory),
    }
}

// The same into a folder.
fn plant_in(
    alloc: Global,
    host: &mut MemHost,
    folder: &str,
    name: &str,
    content: Option<&[u8]>,
) -> Result<(), Memory>
    requires { IsTrue (is_member_name name.now) }
{
    let path = path_of(alloc, folder, name)?;
    let path = path.as_str();
    match (host.kind(folder), host.kind(path), content) {
        (Kind::Folder, Kind::Absent, Some(bytes)) => {
            host.plant_file(path, block_of(alloc, bytes)?)
        }
        (Kind::Folder, Kind::Absent, None) => host.plant_folder(path),
        _ => Err(Memory),
    }
}

/// Puts a file or a folder at a path, whose parent is there, without a call that writes. It makes one call in the
/// working folder, and two in another one.
pub fn plant(
    alloc: Global,
    host: &mut MemHost,
    path: &str,
    content: Option<&[u8]>,
) -> Result<(), Memory> {
    let (folder, name) = path.rsplit_once('/').unwrap_or(("", path));
    if !is_member(name.as_bytes()) {
        return Err(Memory);
    }
    if !path.contains('/') {
        return plant_first(alloc, host, name, content);
    }
    plant_in(
        alloc,
        host,
        if folder.is_empty() { "/" } else { folder },
        name,
        content,
    )
}
