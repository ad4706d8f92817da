//! Where the tree of an id begins.

ghost use Rattle.std.specs.Prelude.{◌≡◌, ℕ, is_some, None, IfOk, OnOk};
ghost use Rattle.tree_change.specs.AllTrees.{root_named};
ghost use Rattle.tree_change.specs.Roots.{named_in, with_named};

use node_reader::Expect;
use records::named_root;
use std::alloc::Global;
use std::collections::BTreeMap;
use verdict::NoMemory;
use volume_items::RootAt;

/// Where trees begin, by the ids of the trees. The first of several of one id counts.
#[derive(Drop)]
pub(crate) struct Ids {
    roots: BTreeMap<u64, RootAt>,
}

/// Where trees begin, by their ids. The map takes its memory from this allocator.
pub(crate) fn ids_of(alloc: Global, roots: &[RootAt]) -> Result<Ids, NoMemory>
    ensures { IfOk result (λ ids. (id : ℕ) → named_in ids id ≡ root_named roots.now id) }
{
    let mut ids = Ids::new(alloc);
    for root in roots {
        ids.put(root)?;
    }
    Ok(ids)
}

impl Ids {
    // No tree.
    #[tactic(auto, unfolding(crate::specs::Roots::named_in))]
    fn new(alloc: Global) -> Ids
        ensures { (id : ℕ) → named_in result id ≡ None }
    {
        Ids {
            roots: BTreeMap::new(alloc),
        }
    }

    // Puts where a tree begins, where none of its id is named before.
    #[tactic(auto, unfolding(crate::specs::Roots::named_in))]
    fn put(&mut self, root: &RootAt) -> Result<(), NoMemory>
        ensures { OnOk result ((id : ℕ) →
            named_in self.new id ≡ with_named (named_in self.old) root.now id) }
    {
        let id = root.key.objectid;
        if self.roots.contains_key(&id) {
            return Ok(());
        }
        match self.roots.insert(id, *root) {
            Ok(_) => Ok(()),
            Err(_) => Err(NoMemory),
        }
    }

    /// What is expected of the root of the tree of an id, `None` exactly where none is named.
    #[tactic(auto, unfolding(crate::specs::Roots::named_in))]
    pub(crate) fn root_of(&self, id: u64) -> Option<Expect>
        ensures { result ≡ named_in self.now id }
    {
        match self.roots.get(&id) {
            Some(root) => Some(named_root(root)),
            None => None,
        }
    }

    /// Whether a tree of this id is named.
    #[tactic(auto, unfolding(crate::specs::Roots::named_in))]
    pub(crate) fn has(&self, id: u64) -> bool
        ensures { result ≡ is_some (named_in self.now id) }
    {
        self.roots.contains_key(&id)
    }
}
