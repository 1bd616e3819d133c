//! What the exceptions of a group make of its raw set (Ceph, OSDMap.cc: `_apply_upmap`).

use crate::map::OsdMap;
use maptypes::{Pair, UpSet};

impl OsdMap {
    ghost use Rattle.std.specs.Prelude.{◌≡◌, ◌≤◌, ◌<◌, false, length, IfSome, All};
    ghost use Rattle.std.specs.List.{list_any, fold};
    ghost use Rattle.std.specs.Option.{option_copied};
    ghost use Rattle.buckets.specs.Limits.{max_devices};
    ghost use Rattle.osdmap.specs.Mapped.{is_weightless, with_pair, with_exceptions};

    /// Whether an OSD is out: its reweight is 0.
    fn is_weightless(&self, osd: u32) -> bool
        ensures value { result ≡ is_weightless self.now.map.weights osd }
        ensures small { result ≡ false → osd < max_devices }
    {
        self.weights.get(osd as usize).copied().unwrap_or(0) == 0
    }

    /// Whether one of some OSDs is out.
    pub fn has_weightless(&self, osds: &[u32]) -> bool
        ensures value { result ≡ list_any (is_weightless self.now.map.weights) osds.now }
        ensures small { result ≡ false → All (λ osd. osd < max_devices) osds.now }
    {
        osds.iter().any(|osd| self.is_weightless(*osd))
    }

    /// A pair acts on a set.
    #[tactic(auto, unfolding(crate::specs::Mapped::with_pair))]
    fn act(&self, set: &mut UpSet, pair: Pair)
        ensures { set.new ≡ with_pair self.now.map.weights set.old pair }
    {
        let to = u32::from(pair.to);
        if !set.has(to) && !self.is_weightless(to) {
            set.replace(pair);
        }
    }

    /// Some pairs act on a set in order.
    fn act_all(&self, set: &mut UpSet, pairs: &[Pair])
        ensures { set.new ≡ fold (with_pair self.now.map.weights) set.old pairs.now }
    {
        for pair in pairs {
            self.act(set, *pair);
        }
    }

    /// What exceptions make of the raw set of a group.
    #[tactic(auto, unfolding(crate::specs::Mapped::with_exceptions))]
    pub(crate) fn with_exceptions(
        &self,
        raw: UpSet,
        explicit: Option<&[u32]>,
        items: Option<&[Pair]>,
    ) -> UpSet
        requires { IfSome explicit (λ osds. length osds.now ≤ 20) }
        ensures { result ≡ with_exceptions self.now.map.weights (option_copied explicit.entry)
            (option_copied items.entry) raw }
    {
        let mut set = match explicit {
            None => raw,
            Some(osds) if self.has_weightless(osds) => return raw,
            Some(osds) => UpSet::of(osds),
        };
        if let Some(pairs) = items {
            self.act_all(&mut set, pairs);
        }
        set
    }
}
