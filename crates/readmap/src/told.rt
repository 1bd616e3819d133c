//! What is told of a map.

use cephbytes::{Listed, Text};
use cephmap::{
    Bucket, CephMap, Crush, GroupOsds, GroupPrimary, Osds, Pool, PoolKind, Rule, Upmaps, Weights,
};
use std::io;

/// A text, if it is UTF-8.
fn shown(text: &Text) -> &str {
    match str::from_utf8(text.as_bytes()) {
        Ok(shown) => shown,
        Err(_) => "?",
    }
}

/// Tells of a pool.
fn tell_pool<R: Print>(rt: &R, pool: &Pool) -> io::Result<()> {
    let kind = match pool.kind {
        PoolKind::Replicated => "replicated",
        PoolKind::Erasure => "erasure",
    };
    println!(rt;
        "pool {} {kind} size {} min_size {} rule {} flags {}",
        pool.id, pool.size, pool.min_size, pool.rule, pool.flags
    )?;
    println!(rt;
        " pg_num {} pgp_num {} profile {:?}",
        pool.pg_num,
        pool.pgp_num,
        shown(&pool.erasure_code_profile)
    )
}

/// Tells of the pools of a map.
fn tell_pools<R: Print>(rt: &R, map: &CephMap) -> io::Result<()> {
    for pool in map.pools.iter() {
        tell_pool(rt, pool)?;
    }
    for own in map.pool_names.iter() {
        println!(rt; "pool {} is {:?}", own.pool, shown(&own.name))?;
    }
    Ok(())
}

/// Tells numbers behind a word.
fn tell_numbers<R: Print>(rt: &R, word: &str, numbers: &Listed<u32>) -> io::Result<()> {
    print!(rt; "{word}")?;
    for number in numbers.iter() {
        print!(rt; " {number}")?;
    }
    println!(rt; "")
}

/// Tells of OSDs.
fn tell_osds<R: Print>(rt: &R, osds: &Osds, affinities: &Listed<u32>) -> io::Result<()> {
    tell_numbers(rt, "states", &osds.states)?;
    tell_numbers(rt, "reweights", &osds.reweights)?;
    tell_numbers(rt, "affinities", affinities)
}

/// Tells of a group and its OSDs, behind a word.
fn tell_set<R: Print>(rt: &R, word: &str, set: &GroupOsds) -> io::Result<()> {
    print!(rt; "{word} {}.{:x}", set.group.pool, set.group.number)?;
    for osd in set.osds.iter() {
        print!(rt; " {osd}")?;
    }
    println!(rt; "")
}

/// Tells of groups and their primaries, behind a word.
fn tell_primaries<R: Print>(
    rt: &R,
    word: &str,
    primaries: &Listed<GroupPrimary>,
) -> io::Result<()> {
    for primary in primaries.iter() {
        println!(rt;
            "{word} {}.{:x} {}",
            primary.group.pool, primary.group.number, primary.osd
        )?;
    }
    Ok(())
}

/// Tells what operators have stated of groups.
fn tell_upmaps<R: Print>(rt: &R, upmaps: &Upmaps) -> io::Result<()> {
    for set in upmaps.sets.iter() {
        tell_set(rt, "pg_upmap", set)?;
    }
    for group in upmaps.pairs.iter() {
        print!(rt;
            "pg_upmap_items {}.{:x}",
            group.group.pool, group.group.number
        )?;
        for pair in group.pairs.iter() {
            print!(rt; " {}->{}", pair.from, pair.to)?;
        }
        println!(rt; "")?;
    }
    tell_primaries(rt, "pg_upmap_primary", &upmaps.primaries)
}

/// Tells of weights.
fn tell_weights<R: Print>(rt: &R, weights: &Weights) -> io::Result<()> {
    match weights {
        Weights::Uniform(weight) => println!(rt; " uniform {weight}"),
        Weights::Tree(nodes) => tell_numbers(rt, " tree", nodes),
        Weights::Straw2(all) => tell_numbers(rt, " straw2", all),
        Weights::List(all) => {
            print!(rt; " list")?;
            for item in all.iter() {
                print!(rt; " {}", item.weight)?;
            }
            println!(rt; "")
        }
        Weights::Straw(all) => {
            print!(rt; " straw")?;
            for item in all.iter() {
                print!(rt; " {}", item.weight)?;
            }
            println!(rt; "")
        }
    }
}

/// Tells of a bucket.
fn tell_bucket<R: Print>(rt: &R, bucket: &Bucket) -> io::Result<()> {
    print!(rt; "bucket {} type {}", bucket.id, bucket.level)?;
    for item in bucket.items.iter() {
        print!(rt; " {item}")?;
    }
    println!(rt; "")?;
    tell_weights(rt, &bucket.weights)
}

/// Tells of a rule and its number.
fn tell_rule<R: Print>(rt: &R, number: usize, rule: &Rule) -> io::Result<()> {
    println!(rt; "rule {number} type {}", rule.kind)?;
    for step in rule.steps.iter() {
        println!(rt; " {:?} {} {}", step.word, step.first, step.second)?;
    }
    Ok(())
}

/// Tells of a CRUSH map.
fn tell_crush<R: Print>(rt: &R, crush: &Crush) -> io::Result<()> {
    for slot in crush.buckets.iter() {
        if let Some(bucket) = &slot.holds {
            tell_bucket(rt, bucket)?;
        }
    }
    for (number, slot) in crush.rules.iter().enumerate() {
        if let Some(rule) = &slot.holds {
            tell_rule(rt, number, rule)?;
        }
    }
    for own in crush.names.items.iter() {
        println!(rt; "item {} is {:?}", own.id, shown(&own.name))?;
    }
    for own in crush.classes.devices.iter() {
        println!(rt; "device {} is of class {}", own.device, own.class)?;
    }
    Ok(())
}

/// Tells what stands in a map, which has a name.
pub(crate) fn tell_map<R: Print>(rt: &R, name: &str, map: &CephMap) -> io::Result<()> {
    print!(rt; "{name}: epoch {} of ", map.epoch)?;
    for byte in map.fsid.bytes.iter() {
        print!(rt; "{byte:02x}")?;
    }
    println!(rt; " flags {} max_osd {}", map.flags, map.osds.max_osd)?;
    tell_pools(rt, map)?;
    tell_osds(rt, &map.osds, &map.affinities)?;
    for set in map.temporary.sets.iter() {
        tell_set(rt, "pg_temp", set)?;
    }
    tell_primaries(rt, "primary_temp", &map.temporary.primaries)?;
    tell_upmaps(rt, &map.upmaps)?;
    tell_crush(rt, &map.crush)
}
