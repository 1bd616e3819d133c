//! A row of epochs and its passes by an example, and the limits of a row.
ghost use Rattle.std.specs.Prelude.{◌≡◌, IfSome};

use crate::examples::incremental;
use epochlog::{Keeper, Kept, Nothing, Pass, Row};
use refusal::Refusal;
use std::alloc::Global;
use std::test::Fail;

// The incremental of an epoch, whose change is empty, kept in memory alone.
fn kept(alloc: Global, epoch: u64) -> Option<Kept>
    ensures { IfSome result (λ made. made.epoch ≡ epoch) }
{
    Keeper::new(Nothing).keep(incremental(alloc, epoch)?).ok()
}

// What may be shown to many threads.
fn shown<T: Send + Sync>(_value: &T) {}

// The epoch that a pass seals next, the number of the refusal, or 0 where the row is full.
fn seal(row: &Row, pass: &mut Pass, alloc: Global) -> u64
    requires row { pass.old.row ≡ row.now }
    requires first { row.now.first ≡ 1 }
    ensures { pass.new.row ≡ row.now }
{
    let epoch = pass.epoch();
    if epoch == 1 + u64::from(row.capacity()) {
        return 0;
    }
    let Some(next) = kept(alloc, epoch + 1) else {
        return 30;
    };
    match row.seal(pass, next) {
        Ok(epoch) => epoch,
        Err((_back, refused)) => u64::from(refused.number()),
    }
}

// The epoch that a pass reads next, or 0.
fn read(row: &Row, pass: &mut Pass) -> u64
    requires { pass.old.row ≡ row.now }
    ensures { pass.new.row ≡ row.now }
{
    row.read_next(pass).map_or(0, |found| found.epoch())
}

// What two passes answer of which each reads what the other has sealed.
fn in_turn(row: &Row, p: &mut Pass, q: &mut Pass, alloc: Global) -> [u64; 8]
    requires passes { (p.old.row ≡ row.now) × (q.old.row ≡ row.now) }
    requires first { row.now.first ≡ 1 }
    ensures { (p.new.row ≡ row.now) × (q.new.row ≡ row.now) }
{
    [
        seal(row, p, alloc),
        seal(row, q, alloc),
        read(row, q),
        read(row, q),
        seal(row, q, alloc),
        seal(row, q, alloc),
        read(row, p),
        read(row, p),
    ]
}

#[test]
fn two_read_what_each_other_sealed(rt: HostRuntime) -> Result<(), Fail> {
    let alloc = rt.alloc();
    let row = Row::new(alloc, 1, 2)?;
    let mut p = row.pass(alloc)?;
    let mut q = row.pass(alloc)?;
    shown(&row);
    shown(&p);
    let found = in_turn(&row, &mut p, &mut q, alloc);
    assert_eq!(rt; found, [2, 32, 2, 0, 3, 0, 3, 0]);
    p.meet(&mut q);
    q.join(&p);
    assert!(rt; q.epoch() == 3 && row.at(&q, 2).epoch() == 2 && row.at(&q, 3).epoch() == 3);
    Ok(())
}

#[test]
fn limits_are_12(rt: HostRuntime) {
    for (first, capacity) in [(0, 1), (2_147_483_649, 1), (1, 0), (1, 65_537)] {
        let refused = Row::new(rt.alloc(), first, capacity).err();
        assert_eq!(rt; refused, Some(Refusal::BadLimit), "{first} {capacity}");
    }
    for (first, capacity) in [(1, 1), (2_147_483_648, 65_536)] {
        assert!(rt;
            Row::new(rt.alloc(), first, capacity).is_ok(),
            "{first} {capacity}"
        );
    }
}
