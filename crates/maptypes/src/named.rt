//! What a change names and what it leaves, whatever map it is made to.

ghost use Rattle.std.specs.Prelude.{◌≡◌, ◌≤◌, length, IfSome, IfOk, OnOk};
ghost use Rattle.std.specs.Option.{option_copied};
ghost use Rattle.std.specs.List.{All};
ghost use Rattle.std.specs.List.Sorted.{IsNonDecreasingBy};
ghost use Rattle.crush.specs.Limits.{max_size};
ghost use Rattle.keylist.specs.Order.{IsRising};
ghost use Rattle.maptypes.specs.Exceptions.{pg_key, key_of};
ghost use Rattle.maptypes.specs.GroupText.{IsNamedByText};
ghost use Rattle.maptypes.specs.Named.{excepted_groups, union_of, said_after, is_empty};

use crate::change::Change;
use crate::exception::{Exception, Explicit, Items, NamesGroup, Pair};
use crate::pg::Pg;
use crate::pg_text::group_text_is_read_back;
use crate::short::Blank;
use keylist::{Keyed, are_apart, are_distinct, entry_of, has, put_all};
use refusal::Memory;
use std::alloc::Global;

/// Whether a list has no entries.
fn is_empty<T>(entries: &[T]) -> bool
    ensures { result ≡ is_empty entries.now }
{
    matches!(entries, [])
}

/// The groups of some exceptions, in their order; or `Memory` (30).
fn groups_of<E: Blank>(alloc: Global, exceptions: &[Exception<E>]) -> Result<Vec<Pg>, Memory>
    requires { IsRising key_of exceptions.now }
    ensures groups { IfOk result (λ groups. groups.items ≡ excepted_groups exceptions.now) }
    ensures rising { IfOk result (λ groups. IsRising pg_key groups.items) }
{
    let mut groups = Vec::with_capacity(alloc, exceptions.len())?;
    for exception in exceptions {
        groups.push(exception.pg)?;
    }
    Ok(groups)
}

/// Puts some groups among others, each in ascending order; or `Memory` (30).
fn join(groups: &mut Vec<Pg>, others: &[Pg]) -> Result<(), Memory>
    requires some { IsRising pg_key groups.old.items }
    requires others { IsRising pg_key others.now }
    ensures groups { OnOk result (groups.new.items ≡ union_of groups.old.items others.now) }
    ensures rising { OnOk result (IsRising pg_key groups.new.items) }
{
    if matches!(others, []) {
        return Ok(());
    }
    groups.reserve(others.len())?;
    put_all(groups, others);
    Ok(())
}

/// Puts the groups of some exceptions among others, each in ascending order.
///
/// # Errors
///
/// `Memory` (30) where there is no memory for it.
pub fn join_groups_of<E: Blank>(
    alloc: Global,
    groups: &mut Vec<Pg>,
    exceptions: &[Exception<E>],
) -> Result<(), Memory>
    requires some { IsRising pg_key groups.old.items }
    requires others { IsRising key_of exceptions.now }
    ensures groups { OnOk result (groups.new.items ≡ union_of groups.old.items (excepted_groups exceptions.now)) }
    ensures rising { OnOk result (IsRising pg_key groups.new.items) }
{
    join(groups, &groups_of(alloc, exceptions)?)
}

/// What is said of a group after exceptions went and came.
fn said_after<'a, E: Blank>(
    gone: &[Pg],
    new: &'a [Exception<E>],
    said: Option<&'a [E]>,
    pg: Pg,
) -> Option<&'a [E]>
    requires gone { IsNonDecreasingBy pg_key gone.now }
    requires new { IsRising key_of new.now }
    requires few { IfSome said (λ entries. length entries.now ≤ max_size) }
    ensures value { option_copied result ≡ said_after gone.now new.now (option_copied said.entry) pg }
    ensures few { IfSome result (λ entries. length entries.now ≤ max_size) }
{
    match entry_of(new, pg.key()) {
        Some(exception) => Some(exception.entries.as_slice()),
        None if has(gone, pg.key()) => None,
        None => said,
    }
}

/// The text of the group of each entry is read back: for a proof alone.
fn are_read_back<G: NamesGroup>(entries: &[G])
    ensures { All (λ e. IsNamedByText (G.named e)) entries.now }
{
    for entry in entries {
        let pg = entry.group();
        group_text_is_read_back(pg.pool, pg.number);
    }
}

impl Change {
    ghost use Rattle.std.specs.Prelude.{◌≡◌, ◌≤◌, true, [], length, IfSome, IfOk};
    ghost use Rattle.std.specs.Option.{option_copied};
    ghost use Rattle.crush.specs.Limits.{max_size};
    ghost use Rattle.keylist.specs.Order.{IsRising};
    ghost use Rattle.maptypes.specs.Exceptions.{pg_key};
    ghost use Rattle.maptypes.specs.GroupText.{IsNamedByText};
    ghost use Rattle.maptypes.specs.Named.{names_once, is_named, EachNamed, named_groups, NamedRise, explicit_after, items_after, renews, leaves_raw_sets};

    /// Whether no key stands twice in a part, or in both parts of a couple: old and new pools, new pools and growths,
    /// down and up, old and new explicit sets, old and new pairs.
    #[tactic(auto, unfolding(crate::specs::Named::names_once))]
    pub fn names_once(&self) -> bool
        ensures { result ≡ names_once self.now }
    {
        let parts = self.parts();
        are_apart(&parts.pools.gone, &parts.pools.come)
            && are_apart(&parts.pools.come, &parts.pools.grow)
            && are_apart(&parts.osds.down, &parts.osds.up)
            && are_distinct(&parts.weights)
            && are_apart(&parts.explicit.gone, &parts.explicit.come)
            && are_apart(&parts.items.gone, &parts.items.come)
    }

    /// Whether exceptions of a group go or come with it.
    #[tactic(auto, unfolding(crate::specs::Named::is_named))]
    pub fn names(&self, pg: Pg) -> bool
        ensures { result ≡ is_named self.now pg }
    {
        let parts = self.parts();
        let key = pg.key();
        has(&parts.explicit.gone, key)
            || has(&parts.items.gone, key)
            || has(&parts.explicit.come, key)
            || has(&parts.items.come, key)
    }

    /// The text of each group that it names is read back: for a proof alone.
    pub fn groups_are_read_back(&self)
        ensures { EachNamed IsNamedByText self.now }
    {
        let parts = self.parts();
        are_read_back(&parts.explicit.gone);
        are_read_back(&parts.items.gone);
        are_read_back(&parts.explicit.come);
        are_read_back(&parts.items.come);
    }

    /// Whether it names no group.
    fn names_none(&self) -> bool
        ensures { result ≡ true → named_groups self.now ≡ [] }
    {
        let parts = self.parts();
        let gone: (&[Pg], &[Pg]) = (&parts.explicit.gone, &parts.items.gone);
        let come: (&[Explicit], &[Items]) = (&parts.explicit.come, &parts.items.come);
        matches!((gone, come), (([], []), ([], [])))
    }

    /// The groups whose exceptions go or come with it, in ascending order.
    ///
    /// # Errors
    ///
    /// `Memory` (30) where there is no memory for it.
    pub fn named_groups(&self, alloc: Global) -> Result<Vec<Pg>, Memory>
        requires { NamedRise self.now }
        ensures named { IfOk result (λ groups. groups.items ≡ named_groups self.now) }
        ensures rising { IfOk result (λ groups. IsRising pg_key groups.items) }
    {
        if self.names_none() {
            return Ok(Vec::new(alloc));
        }
        let parts = self.parts();
        let mut groups = Vec::from_slice(alloc, &parts.explicit.gone)?;
        join(&mut groups, &parts.items.gone)?;
        join_groups_of(alloc, &mut groups, &parts.explicit.come)?;
        join_groups_of(alloc, &mut groups, &parts.items.come)?;
        Ok(groups)
    }

    /// The explicit set of a group after it, where it had this one, of at most 20 OSDs, or none.
    pub fn explicit_after<'a>(&'a self, said: Option<&'a [u32]>, pg: Pg) -> Option<&'a [u32]>
        requires rise { NamedRise self.now }
        requires few { IfSome said (λ entries. length entries.now ≤ max_size) }
        ensures value { option_copied result ≡ explicit_after self.now (option_copied said.entry) pg }
        ensures few { IfSome result (λ entries. length entries.now ≤ max_size) }
    {
        let parts = self.parts();
        said_after(&parts.explicit.gone, &parts.explicit.come, said, pg)
    }

    /// The pairs of a group after it, where it had these, at most 20, or none.
    pub fn items_after<'a>(&'a self, said: Option<&'a [Pair]>, pg: Pg) -> Option<&'a [Pair]>
        requires rise { NamedRise self.now }
        requires few { IfSome said (λ entries. length entries.now ≤ max_size) }
        ensures value { option_copied result ≡ items_after self.now (option_copied said.entry) pg }
        ensures few { IfSome result (λ entries. length entries.now ≤ max_size) }
    {
        let parts = self.parts();
        said_after(&parts.items.gone, &parts.items.come, said, pg)
    }

    /// Whether it makes a pool of an id anew: it replaces the forest and the rules, or the pool comes or grows.
    #[tactic(auto, unfolding(crate::specs::Named::renews))]
    pub fn renews(&self, id: u32) -> bool
        ensures { result ≡ renews self.now id }
    {
        let parts = self.parts();
        parts.crush.is_some()
            || has(&parts.pools.come, u64::from(id))
            || has(&parts.pools.grow, u64::from(id))
    }

    /// Whether it leaves all pools, the forest, the rules and the reweights as they are, so that only a group whose
    /// exceptions it names is placed otherwise.
    #[tactic(auto, unfolding(crate::specs::Named::leaves_raw_sets))]
    pub fn leaves_raw_sets(&self) -> bool
        ensures { result ≡ leaves_raw_sets self.now }
    {
        let parts = self.parts();
        is_empty(&parts.pools.gone)
            && parts.crush.is_none()
            && is_empty(&parts.pools.come)
            && is_empty(&parts.pools.grow)
            && is_empty(&parts.weights)
    }
}
