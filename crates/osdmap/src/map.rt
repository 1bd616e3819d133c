//! The map of a cluster, and the look-ups in it.

use crush::{Forest, Rule};
use keylist::{Entries, Keyed, entry_of};
use maptypes::{CrushMap, Explicit, Items, NumberedRule, OsdState, Pair, Pg, Pool, Presence};
use std::marker::Model;

/// The map of a cluster at an epoch: a forest of buckets, rules, pools, and for each OSD whether it exists, whether it
/// is up, and its reweight (Ceph, OSDMap.h).
#[derive(Debug, Drop)]
pub struct OsdMap {
    pub(crate) epoch: u64,
    pub(crate) crush: CrushMap,
    pub(crate) pools: Vec<Pool>,
    pub(crate) presences: Entries<Presence>,
    pub(crate) weights: Entries<u32>,
    pub(crate) explicit: Vec<Explicit>,
    pub(crate) items: Vec<Items>,
    /// The forest and the rules that lie ready for a change.
    pub(crate) ready: Option<CrushMap>,
}

impl Model for OsdMap {
    ghost use Rattle.std.specs.Prelude.{vec_capacity};
    ghost use Rattle.osdmap.specs.Maps.{HoldsTogether};
    ghost use Rattle.osdmap.specs.Stored.{StoredMap};

    ghost Value = { StoredMap };

    ghost view = { λ m. record {
      map = record {
        epoch = m.epoch;
        buckets = m.crush.buckets;
        rules = m.crush.rules;
        pools = m.pools.items;
        presences = m.presences;
        weights = m.weights;
        explicit = m.explicit.items;
        items = m.items.items;
      };
      room = record {
        pools = vec_capacity m.pools;
        explicit = vec_capacity m.explicit;
        items = vec_capacity m.items;
        crush = m.ready;
      };
    } };

    ghost invariant = { λ m. HoldsTogether (record {
      epoch = m.epoch;
      buckets = m.crush.buckets;
      rules = m.crush.rules;
      pools = m.pools.items;
      presences = m.presences;
      weights = m.weights;
      explicit = m.explicit.items;
      items = m.items.items;
    }) };
}

impl OsdMap {
    ghost use Rattle.std.specs.Prelude.{◌≡◌, ◌≤◌, length, IfSome};
    ghost use Rattle.std.specs.Option.{option_copied};
    ghost use Rattle.buckets.specs.Limits.{max_devices};
    ghost use Rattle.maptypes.specs.Exceptions.{said_of};
    ghost use Rattle.maptypes.specs.CrushMaps.{rule_at};
    ghost use Rattle.osdmap.specs.Maps.{pool_at, osd_at, osd_exists, HoldsTogether};

    /// What holds in every map: for proofs alone.
    pub fn holds_together(&self)
        ensures { HoldsTogether self.now.map }
    {
        let _ = &self.epoch;
    }

    /// The epoch.
    pub fn epoch(&self) -> u64
        ensures { result ≡ self.now.map.epoch }
    {
        self.epoch
    }

    /// OSDs have ids below this: 1 to 4,096.
    pub fn max_osd(&self) -> u32
        ensures value { result ≡ length self.now.map.presences }
        ensures few { result ≤ max_devices }
    {
        self.presences.len() as u32
    }

    /// The forest.
    pub fn forest(&self) -> &Forest
        ensures { result.now ≡ self.now.map.buckets }
    {
        self.crush.forest()
    }

    /// The rules, by id upwards.
    pub fn rules(&self) -> &[NumberedRule]
        ensures { result.now ≡ self.now.map.rules }
    {
        self.crush.rules()
    }

    /// The rule of an id.
    pub fn rule(&self, id: u32) -> Option<&Rule>
        ensures { option_copied result ≡ rule_at self.now.map.rules id }
    {
        self.crush.rule(id)
    }

    /// The pools, by id upwards.
    pub fn pools(&self) -> &[Pool]
        ensures { result.now ≡ self.now.map.pools }
    {
        &self.pools
    }

    /// The pool of an id; by halving.
    pub fn pool(&self, id: u32) -> Option<Pool>
        ensures { result ≡ pool_at self.now.map.pools id }
    {
        entry_of(&self.pools, u64::from(id)).copied()
    }

    /// What the map has of an OSD below `max_osd`.
    pub fn osd(&self, id: u32) -> Option<OsdState>
        ensures { result ≡ osd_at self.now.map id }
    {
        let presence = self.presences.get(id as usize)?;
        let weight = *self.weights.get(id as usize)?;
        Some(OsdState {
            exists: presence.exists,
            up: presence.up,
            weight,
        })
    }

    /// Whether an OSD exists.
    pub fn exists(&self, osd: u32) -> bool
        ensures { result ≡ osd_exists self.now.map osd }
    {
        self.presences
            .get(osd as usize)
            .is_some_and(|presence| presence.exists)
    }

    /// The explicit sets, by group upwards.
    pub fn explicits(&self) -> &[Explicit]
        ensures { result.now ≡ self.now.map.explicit }
    {
        &self.explicit
    }

    /// The pairs of groups, by group upwards.
    pub fn all_items(&self) -> &[Items]
        ensures { result.now ≡ self.now.map.items }
    {
        &self.items
    }

    /// The explicit set of a group: at most 20 OSDs.
    pub fn explicit(&self, pg: Pg) -> Option<&[u32]>
        ensures value { option_copied result ≡ said_of self.now.map.explicit pg }
        ensures few { IfSome result (λ osds. length osds.now ≤ 20) }
    {
        let explicit = entry_of(&self.explicit, pg.key())?;
        Some(explicit.entries.as_slice())
    }

    /// The pairs of a group, in order: at most 20.
    pub fn items(&self, pg: Pg) -> Option<&[Pair]>
        ensures value { option_copied result ≡ said_of self.now.map.items pg }
        ensures few { IfSome result (λ pairs. length pairs.now ≤ 20) }
    {
        let items = entry_of(&self.items, pg.key())?;
        Some(items.entries.as_slice())
    }
}
