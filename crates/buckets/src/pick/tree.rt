//! A tree bucket walks down a binary tree whose leaves are its items.

ghost use Rattle.std.specs.Prelude.{◌≡◌, ℕ, ◌+◌, ◌*◌, ◌^◌, ◌<◌, ◌≤◌, length, take, slice_index};
ghost use Rattle.buckets.specs.Items.{weight_of};
ghost use Rattle.buckets.specs.Limits.{max_items};
ghost use Rattle.buckets.specs.Tree.{draw_at, height_of, tree_place};

use crate::bucket::Item;
use crate::limits::MAX_ITEMS;
use rjenkins::{hash4, hash4_each};

/// Where a walk has come to: the first place of a node, and the weight of the node.
#[derive(Clone, Copy)]
pub(crate) struct Walk {
    pub from: usize,
    pub weight: u32,
}

/// The weights of the first items: of none, of one, and so on up to all.
fn sums_of(items: &[Item]) -> [u32; MAX_ITEMS + 1]
    requires few { length items.now ≤ max_items }
    requires weight { weight_of items.now < 2 ^ 32 }
    ensures { (k : ℕ) → k ≤ length items.now → slice_index result k ≡ weight_of (take k items.now) }
{
    let mut sums = [0; MAX_ITEMS + 1];
    let mut sum = 0;
    for place in 0..items.len() {
        sum += items[place].weight;
        sums[place + 1] = sum;
    }
    sums
}

/// The least number of levels of halves that hold the items.
fn height(count: usize) -> u32
    requires some { 0 < count }
    requires few { count ≤ max_items }
    ensures { result ≡ height_of count }
{
    usize::BITS - (count - 1).leading_zeros()
}

/// Items, and the weights of the first of them.
#[derive(Clone, Copy)]
struct Tree<'a> {
    items: &'a [Item],
    sums: &'a [u32; MAX_ITEMS + 1],
    ghost few: { length items.now ≤ max_items },
    ghost added: { (k : ℕ) → k ≤ length items.now → slice_index sums.now k ≡ weight_of (take k items.now) },
}

impl Tree<'_> {
    ghost use Rattle.std.specs.Prelude.{◌≡◌, ℕ, ◌+◌, ◌*◌, ◌<◌, ◌≤◌};
    ghost use Rattle.buckets.specs.Limits.{max_items};
    ghost use Rattle.buckets.specs.Tree.{draw_at, weight_between};
    ghost use Rattle.buckets.specs.Walks.{stepped, walk_at};

    /// The weight of the places from `from` on, `count` of them.
    fn weight_between(&self, from: usize, count: usize) -> u32
        requires { from + count ≤ 2 * max_items }
        ensures { result ≡ weight_between self.now.items.now from count }
    {
        let start = from.min(self.items.len());
        let end = (from + count).min(self.items.len());
        self.sums[end] - self.sums[start]
    }

    /// The walk one level on, at a node of halves of `half` places.
    #[tactic(auto, unfolding(crate::specs::Walks::stepped, crate::specs::Tree::goes_left))]
    fn step(&self, draw: u32, half: usize, walk: Walk) -> Walk
        requires few { walk.from + half ≤ 2 * max_items }
        requires part { weight_between self.now.items.now walk.from half ≤ walk.weight }
        ensures { result ≡ stepped self.now.items.now draw half walk }
    {
        let left = self.weight_between(walk.from, half);
        if u64::from(draw) * u64::from(walk.weight) / (1 << 32) < u64::from(left) {
            Walk {
                from: walk.from,
                weight: left,
            }
        } else {
            Walk {
                from: walk.from + half,
                weight: walk.weight - left,
            }
        }
    }

    /// The walks for the replica numbers 0 to 3 one level on, each at a node of halves of `half` places.
    fn step_each(&self, x: u32, id: u32, half: usize, walks: [Walk; 4]) -> [Walk; 4]
        requires few { (r : ℕ) → r < 4 → (walk_at walks r).from + half ≤ max_items }
        requires part { (r : ℕ) → r < 4 →
            weight_between self.now.items.now (walk_at walks r).from half ≤ (walk_at walks r).weight }
        ensures { (r : ℕ) → r < 4 → let walk = walk_at walks r in
            walk_at result r ≡ stepped self.now.items.now (draw_at x id r (2 * (walk.from + half))) half walk }
    {
        let nodes = [
            node_of(walks[0], half),
            node_of(walks[1], half),
            node_of(walks[2], half),
            node_of(walks[3], half),
        ];
        let draws = hash4_each(x, nodes, [0, 1, 2, 3], id);
        [
            self.step(draws[0], half, walks[0]),
            self.step(draws[1], half, walks[1]),
            self.step(draws[2], half, walks[2]),
            self.step(draws[3], half, walks[3]),
        ]
    }
}

/// The number of the node at which a walk has come to halves of `half` places.
fn node_of(walk: Walk, half: usize) -> u32
    requires { walk.from + half ≤ max_items }
    ensures { result ≡ 2 * (walk.from + half) }
{
    (2 * (walk.from + half)) as u32
}

/// The place that a tree bucket picks.
pub(super) fn tree_pick(items: &[Item], x: u32, id: u32, r: u32) -> usize
    requires some { 0 < weight_of items.now }
    requires few { length items.now ≤ max_items }
    requires weight { weight_of items.now < 2 ^ 32 }
    ensures place { result ≡ tree_place (draw_at x id r) items.now (height_of (length items.now)) 0 }
    ensures within { result < length items.now }
{
    let sums = sums_of(items);
    let tree = Tree { items, sums: &sums };
    let mut walk = Walk {
        from: 0,
        weight: sums[items.len()],
    };
    for k in (0..height(items.len())).rev() {
        let half = 1 << k;
        let draw = hash4(x, node_of(walk, half), r, id);
        walk = tree.step(draw, half, walk);
    }
    walk.from
}

/// The places that a tree bucket picks for the replica numbers 0 to 3, in walks side by side.
pub(super) fn tree_picks(items: &[Item], x: u32, id: u32) -> [usize; 4]
    requires some { 0 < weight_of items.now }
    requires few { length items.now ≤ max_items }
    requires weight { weight_of items.now < 2 ^ 32 }
    ensures place { (r : ℕ) → r < 4 →
        slice_index result r ≡ tree_place (draw_at x id r) items.now (height_of (length items.now)) 0 }
    ensures within { (r : ℕ) → r < 4 → slice_index result r < length items.now }
{
    let sums = sums_of(items);
    let tree = Tree { items, sums: &sums };
    let root = Walk {
        from: 0,
        weight: sums[items.len()],
    };
    let mut walks = [root, root, root, root];
    for k in (0..height(items.len())).rev() {
        walks = tree.step_each(x, id, 1 << k, walks);
    }
    [walks[0].from, walks[1].from, walks[2].from, walks[3].from]
}
