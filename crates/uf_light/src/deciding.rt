//! What is to be shown of what a path leads to.
ghost use Rattle.std.specs.Prelude.{◌≡◌};
ghost use Rattle.uf_light.specs.Met.{as_file, wanted_of};

use crate::LightFault;
use crate::met::PathEnd;
use crate::thing::TypedEntry;
use uf_tree::Entry;

// The file that is to be shown, or none where nothing is to be there, or why there is nothing to show.
pub fn wanted(absent: bool, met: PathEnd) -> Result<Option<Entry>, LightFault>
    ensures { result ≡ wanted_of absent met }
{
    match met {
        PathEnd::There(thing) => {
            if absent {
                Err(LightFault::Exists)
            } else {
                file_at(thing)
            }
        }
        PathEnd::Nothing(place) => {
            if absent {
                Ok(None)
            } else {
                Err(LightFault::NotFound(place))
            }
        }
        PathEnd::Behind(place) => Err(LightFault::NotADirectory(place)),
    }
}

// The file that a thing is.
fn file_at(thing: TypedEntry) -> Result<Option<Entry>, LightFault>
    ensures { result ≡ as_file thing }
{
    match thing {
        TypedEntry::File(entry) => Ok(Some(entry)),
        TypedEntry::Folder(_) => Err(LightFault::IsADirectory),
    }
}
