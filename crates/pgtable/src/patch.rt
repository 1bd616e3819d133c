//! Patches: what a change makes of a table.

use crate::group_patches::GroupPatches;
use crate::pool_table::PoolTable;
use grouptable::GroupPatch;

/// The table of a pool that stays, by its position among the old ones, with other sets for some groups, if any.
#[derive(Drop)]
pub(crate) struct KeptTable {
    /// Where it stands among the old ones.
    pub at: usize,
    /// The other sets.
    pub patch: Option<GroupPatch>,
}

/// The tables of all pools as a change makes them, with what each keeps of an old one.
#[derive(Drop)]
pub(crate) struct NewTables {
    pub pools: Vec<PoolTable>,
    pub kept: Vec<Option<KeptTable>>,
}

/// What a change makes of the tables of pools.
#[derive(Drop)]
pub(crate) enum TablePatch {
    /// All stay in place, those that have a patch here with other sets for some groups.
    Groups(GroupPatches),
    /// Others take their place.
    Pools(NewTables),
}

/// All that a change makes of a table, and how many groups were evaluated for it.
#[derive(Drop)]
pub struct Patch {
    pub(crate) tables: TablePatch,
    pub(crate) up: Vec<bool>,
    pub(crate) evals: usize,
}

impl Patch {
    ghost use Rattle.std.specs.Prelude.{◌≡◌};

    /// How many groups were evaluated for the patch, each by one run of a rule.
    pub fn evals(&self) -> usize
        ensures { result ≡ self.now.evals }
    {
        self.evals
    }
}

/// The other sets that a change gives to groups of a pool, if any, and how many of its groups were evaluated for them.
#[derive(Drop)]
pub(crate) struct PatchedGroups {
    pub patch: Option<GroupPatch>,
    pub evals: usize,
}

/// The table of a pool as a change makes it: anew, or without groups and with what is kept of an old one; and how many
/// of its groups were evaluated for it.
#[derive(Drop)]
pub(crate) struct NewTable {
    pub table: PoolTable,
    pub kept: Option<KeptTable>,
    pub evals: usize,
}

/// What a change makes of the tables of all pools, and how many groups were evaluated for it.
#[derive(Drop)]
pub(crate) struct PatchedTables {
    pub tables: TablePatch,
    pub evals: usize,
}
