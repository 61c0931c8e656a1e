//! Metadata that a tree may have.
ghost use Rattle.std.specs.Prelude.{◌≡◌};
ghost use Rattle.uf_message.specs.declared.message.Message.{Message as TheMessage};
ghost use Rattle.uf_tree.specs.Codecs.{meta_in};
ghost use Rattle.uf_tree.specs.Metas.{is_bare as is_bare_meta, is_meta, is_mode as is_mode_value};
ghost use Rattle.uf_tree.specs.Metas.{is_mtime as is_mtime_value, none};

use crate::Meta;
use uf_message::{Message, Mtime};

impl Meta {
    /// No metadata.
    pub fn none() -> Meta
        ensures { result ≡ none }
    {
        Meta {
            mode: None,
            mtime: None,
        }
    }

    /// Whether neither a mode nor an mtime is there.
    pub fn is_bare(&self) -> bool
        ensures { result ≡ is_bare_meta self.now }
    {
        self.mode.is_none() && self.mtime.is_none()
    }

    /// Whether the nanoseconds are absent, or 1 to 999999999. All else of a metadata is in its range.
    pub fn is_good(&self) -> bool
        ensures { result ≡ is_meta self.now }
    {
        is_mode(self.mode) && is_mtime(self.mtime)
    }
}

// Each mode has 32 bits.
fn is_mode(mode: Option<u32>) -> bool
    ensures { result ≡ is_mode_value mode }
{
    match mode {
        None => true,
        Some(_) => true,
    }
}

// Whether the nanoseconds are absent, or 1 to 999999999.
fn is_mtime(mtime: Option<Mtime>) -> bool
    ensures { result ≡ is_mtime_value mtime }
{
    match mtime {
        None => true,
        Some(
            Mtime {
                seconds: _,
                nanos: None,
            },
        ) => true,
        Some(
            Mtime {
                seconds: _,
                nanos: Some(nanos),
            },
        ) => 1 <= nanos && nanos <= 999999999,
    }
}

// The metadata that a message has.
pub fn metadata(message: &Message) -> Meta
    ensures { result ≡ meta_in message.now }
{
    Meta {
        mode: message.mode,
        mtime: message.mtime,
    }
}
