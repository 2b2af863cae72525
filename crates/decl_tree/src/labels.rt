ghost use Rattle.std.specs.Prelude.{◌≡◌, ◌++◌, [], ◌∷◌, not, if◌then◌else◌, IfOk, Some, None};
ghost use Rattle.decl_tree.specs.Labels.{is_seen, one_label, with_labels};

use indexmap::IndexSet;
use sqlite_items::Items;
use std::alloc::Global;
use std::marker::Model;
use vk_core::{Name, NoMemory};

/// Two texts that no two entries of a list may share.
#[derive(Debug, Drop)]
pub struct Label {
    pub first: Name,
    pub second: Name,
}

/// The labels of an entry.
pub type Labels = Items<Label>;

/// One label, with these texts.
pub fn one_label(alloc: Global, first: &[u8], second: &[u8]) -> Result<Labels, NoMemory>
    ensures { IfOk result (λ labels. labels ≡ one_label first.now second.now) }
{
    let first = Name::from_bytes(alloc, first)?;
    let second = Name::from_bytes(alloc, second)?;
    let mut labels = Items::new(alloc);
    labels.push(Label { first, second })?;
    Ok(labels)
}

/// The labels of the entries so far, in a hash table. Contracts see the list.
#[derive(Drop)]
pub struct Seen {
    keys: IndexSet<(Vec<u8>, Vec<u8>)>,
}

impl Model for Seen {
    ghost use Rattle.std.specs.Prelude.{List};
    ghost use Rattle.decl_tree.specs.declared.labels.Label.{Label};

    ghost Value = { List Label };

    ghost use Rattle.decl_tree.specs.Seen.{labels_of};

    ghost view = { labels_of };
}

impl Seen {
    pub fn new(alloc: Global) -> Seen
        ensures { result ≡ [] }
    {
        Seen {
            keys: IndexSet::new(alloc),
        }
    }

    /// Adds a label, and tells whether it is new.
    pub fn add(&mut self, alloc: Global, label: &Label) -> Result<bool, NoMemory>
        ensures new { IfOk result (λ new. new ≡ not (is_seen self.old label.now)) }
        ensures seen { IfOk result (λ new. self.new ≡ (if new then self.old ++ label.now ∷ [] else self.old)) }
    {
        let first = Vec::from_slice(alloc, label.first.as_bytes())?;
        let second = Vec::from_slice(alloc, label.second.as_bytes())?;
        let (_at, new) = self.keys.insert_full((first, second))?;
        Ok(new)
    }

    /// Adds labels one after the other, and tells whether each was new. Where one was not, what was seen is lost.
    pub fn add_all(&mut self, alloc: Global, labels: &[Label]) -> Result<bool, NoMemory>
        ensures { IfOk result (λ new. (if new then Some self.new else None) ≡ with_labels self.old labels.now) }
    {
        let mut left = labels;
        while let [label, rest @ ..] = left {
            if !self.add(alloc, label)? {
                return Ok(false);
            }
            left = rest;
        }
        Ok(true)
    }
}
