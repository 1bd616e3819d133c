//! A journal of two changes, by an example; and rows that break it.

use mapparts::Profile;
use refusal::Refusal;
use replay::{Fault, Row, replay};
use std::alloc::Global;
use std::test::Fail;

// Two OSDs, the second of which is down, and no pool; at epoch 7.
const MAP: &str = concat!(
    r#"{"buckets":[{"id":-1,"items":[[0,65536],[1,65536]],"kind":"uniform","type":1}],"epoch":7,"max_osd":2,"#,
    r#""osds":[{"exists":true,"id":0,"up":true,"weight":65536},{"exists":true,"id":1,"up":false,"weight":65536}],"#,
    r#""pools":[],"rules":[{"id":0,"kind":"replicated","steps":[["take",-1],["choose_firstn",0,0],["emit"]]}],"#,
    r#""version":1}"#,
);

// What two rows of these epochs and texts stand for behind the map: the epoch, and whether OSD 1 is up.
fn outcome(alloc: Global, rows: [(u64, &str); 2]) -> Option<Result<(u64, bool), Fault>> {
    let mut kept = Vec::new(alloc);
    for (epoch, text) in rows {
        let text = String::from_str(alloc, text).ok()?.into_bytes();
        kept.push(Row { epoch, text }).ok()?;
    }
    Some(replay(alloc, MAP.as_bytes(), &kept, Profile::Plain).map(|map| (
        map.epoch(),
        map.osd(1).is_some_and(|osd| osd.up),
    )))
}

#[test]
fn two_rows_make_a_map(rt: HostRuntime) {
    let rows = [(8, r#"{"base":7,"up":[1]}"#), (9, r#"{"base":8}"#)];
    assert_eq!(rt; outcome(rt.alloc(), rows), Some(Ok((9, true))));
}

#[test]
fn a_row_that_is_not_the_next_is_named(rt: HostRuntime) {
    let stale = Fault::Row {
        epoch: 10,
        refusal: Refusal::StaleEpoch(8),
    };
    let gap = [(8, r#"{"base":7,"up":[1]}"#), (10, r#"{"base":9}"#)];
    assert_eq!(rt; outcome(rt.alloc(), gap), Some(Err(stale)));
    let other = [(8, r#"{"base":7,"up":[1]}"#), (10, r#"{"base":8}"#)];
    assert_eq!(rt; outcome(rt.alloc(), other), Some(Err(stale)));
}

#[test]
fn a_row_with_a_change_that_is_refused_is_named(rt: HostRuntime) {
    let unknown = Fault::Row {
        epoch: 9,
        refusal: Refusal::UnknownOsd,
    };
    let rows = [(8, r#"{"base":7}"#), (9, r#"{"base":8,"down":[2]}"#)];
    assert_eq!(rt; outcome(rt.alloc(), rows), Some(Err(unknown)));
}
