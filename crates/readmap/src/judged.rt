//! What a script does to a cluster's own map, all of whose OSDs count as up.

ghost use Rattle.std.specs.Prelude.{◌≡◌, MatchResult};
ghost use Rattle.cephimport.specs.Whole.{imported};
ghost use Rattle.readmap.specs.Texts.{TellsWhy};
ghost use Rattle.readmap.specs.Judged.{with_all_up, IsJudged};

use crate::text::{Untold, whole_map};
use cephimport::{imported, profile_of};
use cephmap::CephMap;
use std::alloc::Global;
use std::thread::Threads;
use verdict::{Verdict, counts_of, judge, with_all_up};

/// What a script does to a map: how many groups each OSD has before and after it, by number, and what its commands do.
#[derive(Drop)]
pub(crate) struct JudgedScript {
    pub before: Vec<usize>,
    pub after: Vec<usize>,
    pub verdict: Verdict,
}

/// What a script does to a cluster's own map, or why there is no such map.
pub(crate) fn judged_script<R: Threads + Sync>(
    rt: &R,
    alloc: Global,
    map: &CephMap,
    script: &[u8],
) -> Result<JudgedScript, Untold>
    ensures { MatchResult result (IsJudged (with_all_up (imported map.now)) script.now)
        (TellsWhy (with_all_up (imported map.now))) }
{
    let parts = with_all_up(alloc, imported(alloc, map)?)?;
    let profile = profile_of(&parts.buckets, &parts.rules);
    let first = whole_map(alloc, parts)?;
    let before = counts_of(rt, alloc, &first)?;
    let verdict = judge(alloc, first, profile, script)?;
    let after = counts_of(rt, alloc, &verdict.map)?;
    Ok(JudgedScript {
        before,
        after,
        verdict,
    })
}
