//! How a target lies to the source of a move.
ghost use Rattle.std.specs.Prelude.{◌≡◌, [], length};
ghost use Rattle.std.specs.Ordering.{eq_by_cmp};
ghost use Rattle.uf_tree.specs.Names.{names_cmp};
ghost use Rattle.uf_plain.specs.Moves.{lie_of as lie_at};

use crate::Lie;
use std::cmp::Ordering;
use uf_tree::Name;

/// How a target lies to a source, by their names.
pub fn lie_of(source: &[Name], target: &[Name]) -> Lie
    ensures { result ≡ lie_at source.now target.now }
{
    match source {
        [] => below_or_itself(target),
        [a, source @ ..] => match target {
            [] => Lie::Apart,
            [b, target @ ..] => {
                if is_same(a, b) {
                    lie_of(source, target)
                } else {
                    Lie::Apart
                }
            }
        },
    }
}

// How the rest of a target lies, all names of whose source it has.
fn below_or_itself(rest: &[Name]) -> Lie
    ensures { result ≡ lie_at [] rest.now }
{
    match rest {
        [] => Lie::Itself,
        [_, ..] => Lie::Below,
    }
}

// Whether two names are the same.
fn is_same(a: &Name, b: &Name) -> bool
    ensures { result ≡ eq_by_cmp names_cmp a.now b.now }
{
    match a.as_str().as_bytes().cmp(b.as_str().as_bytes()) {
        Ordering::Equal => true,
        _ => false,
    }
}
