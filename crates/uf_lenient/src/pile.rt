//! What is still to be done, from the top down.
ghost use Rattle.std.specs.Prelude.{◌≡◌, ◌≤◌, ◌-◌, [], ◌∷◌, ◌++◌};
ghost use Rattle.std.specs.Prelude.{drop, length, OnOk, OnErr, MatchOption, slice_get, slice_set};
ghost use Rattle.std.specs.Option.{option_copied};

use crate::due::Due;
use std::alloc::Global;
use std::marker::Model;
use uf_cid::Memory;

/// A pile: what was put there last is taken first. Contracts see it from the top down.
#[derive(Drop)]
pub struct Pile<V> {
    items: Vec<V>,
}

impl<V> Model for Pile<V> {
    ghost use Rattle.std.specs.Prelude.{List};
    ghost use Rattle.std.proofs.Common.{reverse};

    ghost Value = { List V };

    ghost view = { λ p. reverse p.items.items };
}

impl<V: Drop> Pile<V> {
    /// The empty pile.
    pub fn new(alloc: Global) -> Self
        ensures { result ≡ [] }
    {
        Pile {
            items: Vec::new(alloc),
        }
    }

    /// Puts something on top.
    pub fn push(&mut self, item: V) -> Result<(), Memory>
        ensures ok { OnOk result (self.new ≡ item ∷ self.old) }
        ensures err { OnErr result (self.new ≡ self.old) }
    {
        self.items.push(item)?;
        Ok(())
    }

    /// Takes what is on top.
    pub fn pop(&mut self) -> Option<V>
        ensures { MatchOption result ((self.old ≡ []) × (self.new ≡ [])) (λ top. self.old ≡ top ∷ self.new) }
    {
        self.items.pop()
    }
}

impl Pile<Due> {
    ghost use Rattle.std.proofs.Common.{reverse};

    /// All of it, what is on top last.
    pub fn as_slice(&self) -> &[Due]
        ensures { reverse result.now ≡ self.now }
    {
        self.items.as_slice()
    }

    /// What is on top.
    pub fn top(&self) -> Option<&Due>
        ensures { option_copied result ≡ slice_get self.now 0 }
    {
        self.items.last()
    }

    /// Puts another pile in place of what is on top; out of memory all stays as it was.
    pub fn replace_top(&mut self, others: &Pile<Due>) -> Result<(), Memory>
        requires { 1 ≤ length self.old }
        ensures ok { OnOk result (self.new ≡ others.now ++ drop 1 self.old) }
        ensures err { OnErr result (self.new ≡ self.old) }
    {
        match others.items.as_slice() {
            [] => {
                let _ = self.items.pop();
                Ok(())
            }
            [lowest, above @ ..] => replace_last(&mut self.items, *lowest, above),
        }
    }
}

// Puts one in place of the last one, and others after it.
fn replace_last(items: &mut Vec<Due>, one: Due, others: &[Due]) -> Result<(), Memory>
    requires { 1 ≤ length items.old.items }
    ensures ok { OnOk result (items.new.items
        ≡ slice_set (items.old.items ++ others.now) (length items.old.items - 1) one) }
    ensures err { OnErr result (items.new.items ≡ items.old.items) }
{
    let at = items.len() - 1;
    items.extend_from_slice(others)?;
    items[at] = one;
    Ok(())
}
