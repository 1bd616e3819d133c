//! Which maps and changes texts may state.

ghost use Rattle.std.specs.Prelude.{◌≡◌};
ghost use Rattle.std.specs.List.{list_all};
ghost use Rattle.mapparts.specs.Limits.{plain, stock};
ghost use Rattle.mapparts.specs.Profiles.{is_plain_kind, are_plain_kinds, is_plain_word, are_plain_words};

use crate::limits::{
    Limits, MAX_COUNT, MAX_ENTRIES, MAX_GROUPS, MAX_OSD_ID, MAX_OSDS, MAX_PLACES, MAX_PLAIN_OSD_ID,
    MAX_PLAIN_OSDS, MAX_POOLS, MAX_RULES, MAX_SIZE, PLAIN_ENTRIES, PLAIN_GROUPS, PLAIN_ITEMS,
    PLAIN_PLACES, PLAIN_POOLS, PLAIN_RULES, PLAIN_SIZE,
};
use crate::parts::{BucketPart, RulePart, StepPart};
use buckets::BucketKind;
use crush::limits::{MAX_BUCKETS, MAX_STRAWS, PLAIN_BUCKETS};

/// The limits of plain clusters.
fn plain() -> Limits
    ensures { result ≡ plain }
{
    Limits {
        max_osd: MAX_PLAIN_OSDS,
        osd: MAX_PLAIN_OSD_ID,
        buckets: PLAIN_BUCKETS,
        items: PLAIN_ITEMS,
        rules: PLAIN_RULES,
        pools: PLAIN_POOLS,
        groups: PLAIN_GROUPS,
        count: PLAIN_SIZE,
        size: PLAIN_SIZE,
        places: PLAIN_PLACES,
        entries: PLAIN_ENTRIES,
    }
}

/// Those of all clusters.
fn stock() -> Limits
    ensures { result ≡ stock }
{
    Limits {
        max_osd: MAX_OSDS,
        osd: MAX_OSD_ID,
        buckets: MAX_BUCKETS,
        items: MAX_STRAWS,
        rules: MAX_RULES,
        pools: MAX_POOLS,
        groups: MAX_GROUPS,
        count: MAX_COUNT,
        size: MAX_SIZE,
        places: MAX_PLACES,
        entries: MAX_ENTRIES,
    }
}

/// Which maps and changes texts may state.
#[derive(Clone, Copy, Debug, PartialEq, Eq)]
pub enum Profile {
    /// Those with uniform, list and tree buckets, whose rules seek leaves as Ceph's jewel does, within the limits of
    /// plain clusters.
    Plain,
    /// Those of stock Ceph clusters: straw2 buckets too, and steps that set how leaves are sought, within the limits of
    /// all maps.
    Stock,
}

/// Whether each profile has buckets of this kind.
fn is_plain_kind(kind: BucketKind) -> bool
    ensures { result ≡ is_plain_kind kind }
{
    match kind {
        BucketKind::Uniform | BucketKind::List | BucketKind::Tree => true,
        BucketKind::Straw2 => false,
    }
}

/// Whether each profile has the kinds of all these buckets.
fn are_plain_kinds(buckets: &[BucketPart]) -> bool
    ensures { result ≡ are_plain_kinds buckets.now }
{
    buckets.iter().all(|bucket| is_plain_kind(bucket.kind))
}

/// Whether each profile has such a step.
fn is_plain_word(step: &StepPart) -> bool
    ensures { result ≡ is_plain_word step.now }
{
    match step {
        StepPart::SetChooseTries(_)
        | StepPart::SetChooseleafTries(_)
        | StepPart::Take(_)
        | StepPart::Choose(_)
        | StepPart::Emit => true,
        StepPart::SetChooseleafVaryR(_) | StepPart::SetChooseleafStable(_) => false,
    }
}

/// Whether each profile has all steps of a rule.
fn has_plain_words(rule: &RulePart) -> bool
    ensures { result ≡ list_all is_plain_word rule.now.steps }
{
    rule.steps.iter().all(|step| is_plain_word(step))
}

/// Whether each profile has all steps of these rules.
fn are_plain_words(rules: &[RulePart]) -> bool
    ensures { result ≡ are_plain_words rules.now }
{
    rules.iter().all(|rule| has_plain_words(rule))
}

impl Profile {
    ghost use Rattle.std.specs.Prelude.{◌≡◌};
    ghost use Rattle.mapparts.specs.Profiles.{is_stock, limits_of, most_pools, has_kinds, has_words};

    /// Whether the limits are those of stock clusters.
    pub fn is_stock(self) -> bool
        ensures { result ≡ is_stock self }
    {
        match self {
            Profile::Plain => false,
            Profile::Stock => true,
        }
    }

    /// The limits that hold.
    pub fn limits(self) -> Limits
        ensures { result ≡ limits_of self }
    {
        match self {
            Profile::Plain => plain(),
            Profile::Stock => stock(),
        }
    }

    /// How many pools a cluster has at most: 32, a stock one 256.
    pub fn most_pools(self) -> usize
        ensures { result ≡ most_pools self }
    {
        match self {
            Profile::Plain => PLAIN_POOLS,
            Profile::Stock => MAX_POOLS,
        }
    }

    /// Whether the profile has the kinds of all these buckets.
    pub fn has_kinds(self, buckets: &[BucketPart]) -> bool
        ensures { result ≡ has_kinds self buckets.now }
    {
        match self {
            Profile::Plain => are_plain_kinds(buckets),
            Profile::Stock => true,
        }
    }

    /// Whether the profile has all steps of these rules.
    pub fn has_words(self, rules: &[RulePart]) -> bool
        ensures { result ≡ has_words self rules.now }
    {
        match self {
            Profile::Plain => are_plain_words(rules),
            Profile::Stock => true,
        }
    }
}
