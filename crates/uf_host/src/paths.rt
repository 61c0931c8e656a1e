//! The text of a path taken apart.
ghost use Rattle.std.specs.Prelude.{◌≡◌};
ghost use Rattle.std.specs.Path.{rsplit_once};
ghost use Rattle.uf_host.specs.Paths.{behind_slash, first_row, folder_named, trimmed};
ghost use Rattle.uf_host.specs.Getting.{IsNamedBy, SplitsLast};

use crate::HostFault;

// The path without slashes at its end, but for one at its start.
pub fn trim(path: &str) -> &str
    ensures { result.now ≡ trimmed path.now }
{
    let bytes = path.as_bytes();
    let mut end = bytes.len();
    while end > 1 && bytes[end - 1] == b'/' {
        end -= 1;
    }
    &path[..end]
}

// The last name of a path, or `/` where nothing stands after its last slash.
pub fn row_of(path: &str) -> &str
    ensures { result.now ≡ first_row path.now }
{
    let last = last_of(path);
    if last.is_empty() { "/" } else { last }
}

/// The last name of a path as the last row of what is added there has it: slashes at its end are taken off, and it is
/// `/` where nothing else is left.
pub fn last_name(path: &str) -> &str
    ensures { result.now ≡ first_row (trimmed path.now) }
{
    row_of(trim(path))
}

// What stands after the last slash.
fn last_of(path: &str) -> &str
    ensures { result.now ≡ behind_slash path.now (rsplit_once 47 path.now) }
{
    match path.rsplit_once('/') {
        Some((_, last)) => last,
        None => path,
    }
}

// What stands before the last slash, and after it; `None` where there is no slash.
pub fn split_last(path: &str) -> Option<(&str, &str)>
    ensures { SplitsLast path.now result }
{
    match path.rsplit_once('/') {
        Some((front, last)) => Some((front, last)),
        None => None,
    }
}

// The folder that a path names before its last slash.
pub fn or_root(folder: &str) -> &str
    ensures { result.now ≡ folder_named folder.now }
{
    if folder.is_empty() { "/" } else { folder }
}

// Says whether what has no slash is the name of something.
pub fn named(name: &str) -> Result<(), HostFault>
    ensures { IsNamedBy name.now result }
{
    if name.is_empty() {
        Err(HostFault::Absent)
    } else {
        Ok(())
    }
}
