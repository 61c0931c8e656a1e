//! What a walk over a host's folders meets.
ghost use Rattle.std.specs.Prelude.{◌≡◌};
ghost use Rattle.uf_edge.specs.Counts.{Counts};
ghost use Rattle.uf_edge.specs.Meeting.{Meets, is_meeting_fault};

use crate::{Host, Kind, Listing};
use uf_cid::Texts;

/// What is at a path; a folder comes with its names, in the order of their bytes.
#[derive(Drop)]
pub enum Met {
    File,
    Folder(Texts),
    Other,
    Absent,
    Failed,
    Memory,
}

/// What is at a path of a host. Its names are asked for where a folder is there, and nowhere else.
pub fn meet<W: Host>(host: &mut W, path: &str) -> Met
    ensures met { Meets result (W.tree host.old) path.now }
    ensures told { W.tree host.new ≡ W.tree host.old }
    ensures reads { Counts (is_meeting_fault result) (W.read_faults host.old) (W.read_faults host.new) }
    ensures writes { W.write_faults host.new ≡ W.write_faults host.old }
{
    match host.kind(path) {
        Kind::File => Met::File,
        Kind::Folder => match host.list(path) {
            Listing::Names(names) => Met::Folder(names),
            Listing::Failed => Met::Failed,
            Listing::Memory => Met::Memory,
        },
        Kind::Other => Met::Other,
        Kind::Absent => Met::Absent,
        Kind::Failed => Met::Failed,
        Kind::Memory => Met::Memory,
    }
}
