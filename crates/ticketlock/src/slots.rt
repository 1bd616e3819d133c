//! The value, in one of two slots. Who writes takes it out of the one, and holds the right to put it into the other.
ghost use Rattle.std.specs.Prelude.{◌≡◌, IfSome, IsSome, IsSomeAnd};
ghost use Rattle.ticketlock.specs.declared.slots.Kept.{Kept};

use crate::fact::Fact;
use counted_slot::{Claim, Counted, FREE, Fits, MOST_READERS, ONE_READER, PRESENT, TAKEN};
use std::snapshot::Snapshot;

/// A value in its slot.
#[derive(Drop)]
pub(crate) struct Kept<T> {
    pub(crate) value: T,
}

impl<T: Fact> Fits for Kept<T> {
    type Tag = Snapshot<T>;

    ghost fits = { λ first kept. T.fact first.value kept.value };
}

/// A slot, full or empty.
pub(crate) type Slot<T> = Counted<Option<Kept<T>>>;

/// What was gained at a slot: to read the value there, or to put one there.
pub(crate) type Hold<'a, T> = Claim<'a, Option<Kept<T>>>;

/// That a caller is done with the slots. Only this module makes one, and the steps that leave the lock ask for it: so
/// the value is back before another may enter.
#[derive(Drop)]
pub(crate) struct Back {
    made: (),
}

/// Two slots, of which one has the value while nobody writes.
#[derive(Drop)]
pub(crate) struct Slots<T: Fact> {
    left: Slot<T>,
    right: Slot<T>,
    pub ghost same: { left ≡ right },
}

// Takes the value out of `full`, if it is there and no one else is at the two slots.
fn take_from<'a, T: Fact + Drop>(full: &Slot<T>, empty: &'a Slot<T>) -> Option<(T, Hold<'a, T>)>
    requires { full.now ≡ empty.now }
    ensures { IfSome result (λ r. T.fact empty.now.value r.0 × (r.1.right ≡ 2) × (r.1.tag ≡ empty.now)) }
{
    let seen = full.load();
    if seen != FREE && seen != PRESENT {
        return None;
    }
    let (found, home) = empty.turn(FREE, TAKEN);
    if found != FREE {
        home.done();
        return None;
    }
    let (found, claim) = full.turn(seen, TAKEN);
    if found != seen {
        claim.done();
        home.put(None, FREE);
        return None;
    }
    match claim.put(None, FREE) {
        Some(kept) => {
            let Kept { value } = kept;
            Some((value, home))
        }
        None => {
            home.put(None, FREE);
            None
        }
    }
}

// Comes to read the value in `full`, if it is there and no one writes.
fn read_from<T: Fact>(full: &Slot<T>) -> Option<Hold<'_, T>>
    ensures own { IfSome result (λ r. (r.right ≡ 1) × (r.tag ≡ full.now)) }
    ensures full { IfSome result (λ r. ∥ IsSomeAnd r.value (λ slot. IsSome slot) ∥₁) }
{
    let seen = full.load();
    if seen % ONE_READER != PRESENT || seen / ONE_READER >= MOST_READERS {
        return None;
    }
    let (found, claim) = full.turn(seen, seen + ONE_READER);
    if found != seen {
        claim.done();
        return None;
    }
    if claim.get().is_none() {
        claim.leave();
        return None;
    }
    Some(claim)
}

impl<T: Fact + Drop> Slots<T> {
    /// The value in the left slot, to which nobody has come.
    pub fn new(value: T) -> Slots<T>
        requires { T.fact value value }
        ensures { result.left.value ≡ value }
    {
        let first = Snapshot::of(&value);
        let right = Counted::new(None, &first);
        let left = Counted::new(Some(Kept { value }), &first);
        Slots { left, right }
    }

    /// Lets readers come to a value that has not been lent yet: a new slot lets none.
    pub fn open(&self) {
        if let Some((value, home)) = self.take() {
            let _ = put_back(home, value);
        }
    }

    /// Comes to read the value.
    pub fn read(&self) -> Option<Hold<'_, T>>
        ensures own { IfSome result (λ r. (r.right ≡ 1) × (r.tag ≡ self.now.left)) }
        ensures full { IfSome result (λ r. ∥ IsSomeAnd r.value (λ slot. IsSome slot) ∥₁) }
    {
        match read_from(&self.left) {
            Some(claim) => Some(claim),
            None => read_from(&self.right),
        }
    }

    /// The value, with which the slots end. `None` only where a caller has lost what it took out.
    pub fn into_value(self) -> Option<T>
        ensures { IfSome result (T.fact self.left.value) }
    {
        let Slots { left, right } = self;
        let kept = match left.into_inner() {
            Some(kept) => kept,
            None => right.into_inner()?,
        };
        Some(kept.value)
    }

    /// Takes the value out, and gives with it the right to put one back.
    pub fn take(&self) -> Option<(T, Hold<'_, T>)>
        ensures { IfSome result (λ r. T.fact self.now.left.value r.0 × (r.1.right ≡ 2) × (r.1.tag ≡ self.now.left)) }
    {
        match take_from(&self.left, &self.right) {
            Some(taken) => Some(taken),
            None => take_from(&self.right, &self.left),
        }
    }
}

/// Puts a value back, which cannot fail.
pub(crate) fn put_back<T: Fact + Drop>(home: Hold<'_, T>, value: T) -> Back
    requires right { home.right ≡ 2 }
    requires fact { T.fact home.tag.value value }
{
    home.put(Some(Kept { value }), PRESENT);
    Back { made: () }
}

/// Reads no longer.
pub(crate) fn read_no_more<T: Fact>(claim: Hold<'_, T>) -> Back
    requires { claim.right ≡ 1 }
{
    claim.leave();
    Back { made: () }
}
