//! How far moves from an OSD go at most, as far as it is known.

ghost use Rattle.std.specs.Prelude.{◌≡◌, ℕ, ℤ, int_lt, false, Some, None, replicate, slice_set, IfOk};
ghost use Rattle.maptypes.specs.Sets.{is_of, stands};
ghost use Rattle.balancer.specs.Widths.{bound_of};

use refusal::Memory;
use std::alloc::Global;
use std::marker::Model;

/// For each OSD that a group would leave, by number: by how much the deviations of the two OSDs of a good move differ
/// at most, where that is known.
#[derive(Drop)]
pub(crate) struct Widths {
    bounds: Vec<Option<i128>>,
}

impl Model for Widths {
    ghost use Rattle.std.specs.Prelude.{List, Option, ℤ};

    ghost Value = { List (Option ℤ) };

    ghost view = { λ widths. widths.bounds.items };
}

impl Widths {
    /// Bounds for `count` OSDs, of which nothing is known yet; or `Memory` (30).
    pub fn new(alloc: Global, count: u32) -> Result<Self, Memory>
        ensures { IfOk result (λ widths. widths ≡ replicate count None) }
    {
        let mut bounds = Vec::new(alloc);
        bounds.resize(count as usize, None)?;
        Ok(Widths { bounds })
    }

    /// What is known of an OSD.
    pub fn at(&self, osd: u32) -> Option<i128>
        ensures { result ≡ bound_of self.now osd }
    {
        match self.bounds.get(osd as usize) {
            Some(bound) => *bound,
            None => None,
        }
    }

    /// This is known of an OSD from now on.
    pub fn set(&mut self, osd: u32, bound: Option<i128>)
        ensures { self.new ≡ slice_set self.old osd bound }
    {
        let at = osd as usize;
        if at < self.bounds.len() {
            self.bounds[at] = bound;
        }
    }

    /// Moves from an OSD may go so far.
    pub fn widen(&mut self, osd: u32, far: i128)
        ensures { (from : ℕ) (bound : ℤ) → bound_of self.new from ≡ Some bound
            → ((old : ℤ) × (bound_of self.old from ≡ Some old) × (int_lt bound old ≡ false))
            × (from ≡ osd → int_lt bound far ≡ false) }
    {
        match self.at(osd) {
            Some(bound) => {
                if bound < far {
                    self.set(osd, Some(far));
                }
            }
            None => {}
        }
    }

    /// Nothing is known any longer of the OSD of a place.
    fn open(&mut self, place: Option<u32>)
        ensures { (from : ℕ) (bound : ℤ) → bound_of self.new from ≡ Some bound
            → (bound_of self.old from ≡ Some bound) × (is_of from place ≡ false) }
    {
        if let Some(osd) = place {
            self.set(osd, None);
        }
    }

    /// Nothing is known any longer of the OSDs of a set.
    pub fn forget(&mut self, places: &[Option<u32>])
        ensures { (from : ℕ) (bound : ℤ) → bound_of self.new from ≡ Some bound
            → (bound_of self.old from ≡ Some bound) × (stands from places.now ≡ false) }
    {
        for place in places {
            self.open(*place);
        }
    }
}
