//! What is told of what a script does.

use crate::judged::JudgedScript;
use crate::words::InDoubt;
use maptypes::UpSet;
use std::io;
use verdict::Taken;

/// Tells what stands at a place of a set, behind others or at first.
fn tell_place<R: Print>(rt: &R, at: usize, place: Option<u16>) -> io::Result<()> {
    if at > 0 {
        print!(rt; ",")?;
    }
    match place {
        Some(osd) => print!(rt; "{osd}"),
        None => print!(rt; "none"),
    }
}

/// Tells a set.
fn tell_mapped<R: Print>(rt: &R, set: &UpSet) -> io::Result<()> {
    print!(rt; "[")?;
    for (at, place) in set.places().iter().enumerate() {
        tell_place(rt, at, *place)?;
    }
    print!(rt; "]")
}

/// Tells what a command does.
fn tell_taken<R: Print>(rt: &R, taken: &Taken) -> io::Result<()> {
    print!(rt;
        "line {}: {} goes from ",
        taken.line.saturating_add(1),
        taken.pg
    )?;
    tell_mapped(rt, &taken.before)?;
    print!(rt; " to ")?;
    tell_mapped(rt, &taken.after)?;
    println!(rt; "")
}

/// Tells of each OSD that exists how many groups it has before and after.
fn tell_counts<R: Print>(rt: &R, judged: &JudgedScript) -> io::Result<()> {
    let map = &judged.verdict.map;
    let counts = judged.before.iter().zip(judged.after.iter());
    for (osd, (before, after)) in (0..map.max_osd()).zip(counts) {
        if map.exists(osd) {
            println!(rt; "osd.{osd} {before} {after}")?;
        }
    }
    Ok(())
}

/// Tells what a script does; whether all of it is to be given.
pub(crate) fn tell_verdict<R: Print>(rt: &R, judged: &JudgedScript) -> io::Result<bool> {
    let taken: &[Taken] = &judged.verdict.taken;
    for one in taken {
        tell_taken(rt, one)?;
    }
    match judged.verdict.doubt {
        Some(doubted) => {
            println!(rt; "{}", InDoubt(doubted))?;
            Ok(false)
        }
        None => {
            tell_counts(rt, judged)?;
            println!(rt; "{} commands, all to be given", taken.len())?;
            Ok(true)
        }
    }
}
