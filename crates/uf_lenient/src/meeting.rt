//! Ways met one after the other.
ghost use Rattle.std.specs.Prelude.{◌≡◌, [], ◌∷◌, ◌++◌, IfErr, IfOk, IsTrue, List, ℕ, MatchOption, OnOk, is_some};
ghost use Rattle.std.specs.FinMap.Entries.{find, is_sorted, put as put_at};
ghost use Rattle.uf_tree.specs.Names.{names_cmp};
ghost use Rattle.uf_lenient.specs.Answers.{IsBare, FollowsReading};
ghost use Rattle.uf_lenient.specs.Reading.{leads, meet, meet_name};
ghost use Rattle.uf_lenient.specs.Keyed.{seen_as};

use crate::found::Found;
use crate::met::{MetWays, NameKey};
use crate::{DagFault, Way, Ways};
use std::alloc::Global;
use std::collections::BTreeMap;
use uf_cid::{Cid, Memory};
use uf_store::StoreFault;
use uf_tree::{Name, NameFault};

impl MetWays {
    /// No way.
    pub fn new(alloc: Global) -> Self
        ensures { result ≡ [] }
    {
        MetWays {
            ways: BTreeMap::new(alloc),
        }
    }

    /// Adds a way that a block links, where its name is good and wasn't met before.
    pub fn add(
        &mut self,
        alloc: Global,
        by: &Cid,
        left: u64,
        name: &str,
        cid: &Cid,
    ) -> Result<(), DagFault>
        ensures says { FollowsReading (λ _. self.new) (meet by.now left name.now cid.now self.old) result }
        ensures bare { IfErr result IsBare }
    {
        match Name::parse(alloc, name) {
            Err(NameFault::Bad) => Err(DagFault::BadName(*by)),
            Err(NameFault::Memory) => Err(DagFault::Store(StoreFault::Memory)),
            Ok(name) => self.add_name(by, name, Found { cid: *cid, left }),
        }
    }

    // Adds a way under a good name, where it wasn't met before.
    fn add_name(&mut self, by: &Cid, name: Name, found: Found) -> Result<(), DagFault>
        ensures says { FollowsReading (λ _. self.new) (meet_name by.now name found self.old) result }
        ensures bare { IfErr result IsBare }
    {
        let key = NameKey { name };
        if has(&self.ways, &key) {
            let NameKey { name } = key;
            return Err(DagFault::DuplicateName(*by, name));
        }
        put(&mut self.ways, key, found)?;
        Ok(())
    }

    /// The names and what they lead to, in byte order.
    pub fn ways(&self, alloc: Global) -> Result<Ways, Memory>
        ensures ways { IfOk result (λ ways. ways ≡ leads self.now) }
        ensures ordered { IfOk result (λ ways. IsTrue (is_sorted names_cmp ways)) }
    {
        let mut ways = Ways::new(alloc);
        for (key, found) in self.ways.iter() {
            let name = key.name.copy()?;
            ways.push(Way {
                name,
                cid: found.cid,
            })?;
        }
        Ok(ways)
    }

    /// Takes the last way.
    pub fn pop_last(&mut self) -> Option<Found>
        ensures { MatchOption result (self.old ≡ [])
            (λ found. (name : List ℕ) × (self.old ≡ self.new ++ (name, found) ∷ [])) }
    {
        match self.ways.pop_last() {
            None => None,
            Some((_, found)) => Some(found),
        }
    }
}

// Puts a way under its name.
fn put(ways: &mut BTreeMap<NameKey, Found>, key: NameKey, found: Found) -> Result<(), Memory>
    ensures { OnOk result (seen_as ways.new.entries ≡ put_at names_cmp key.name found (seen_as ways.old.entries)) }
{
    ways.insert(key, found)?;
    Ok(())
}

// Whether a way is there under a name.
fn has(ways: &BTreeMap<NameKey, Found>, key: &NameKey) -> bool
    ensures { result ≡ is_some (find names_cmp key.now.name (seen_as ways.now.entries)) }
{
    ways.contains_key(key)
}
