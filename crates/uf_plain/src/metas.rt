//! The metadata after a change.
ghost use Rattle.std.specs.Prelude.{◌≡◌, ◌<◌, IsTrue};
ghost use Rattle.uf_tree.specs.Metas.{is_meta};
ghost use Rattle.uf_plain.specs.Metas.{is_meta_edit, meta_after as after, mode_with};

use crate::MetaEdit;
use uf_tree::Meta;

/// The metadata after a change: permissions replace the low twelve bits of the mode, and its others stay.
pub fn meta_after(what: MetaEdit, meta: &Meta) -> Meta
    requires edit { IsTrue (is_meta_edit what) }
    requires meta { IsTrue (is_meta meta.now) }
    ensures after { result ≡ after what meta.now }
    ensures good { IsTrue (is_meta result) }
{
    match what {
        MetaEdit::Mode(permissions) => Meta {
            mode: Some(mode_after(permissions, meta.mode)),
            mtime: meta.mtime,
        },
        MetaEdit::Modified(mtime) => Meta {
            mode: meta.mode,
            mtime: Some(mtime),
        },
        MetaEdit::Strip => Meta::none(),
    }
}

// A mode with these permissions.
fn mode_after(permissions: u32, mode: Option<u32>) -> u32
    requires { permissions < 4096 }
    ensures { result ≡ mode_with permissions mode }
{
    match mode {
        None => permissions,
        Some(mode) => mode / 4096 * 4096 + permissions,
    }
}
