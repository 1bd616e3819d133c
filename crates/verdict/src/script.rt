//! What the lines of a script say.

ghost use Rattle.std.specs.Prelude.{◌≡◌, ◌<◌, ◌==◌, ◌≤◌, ◌++◌, length, position, true, IfOk, IfSome};
ghost use Rattle.std.specs.Option.{option_map};
ghost use Rattle.crush.specs.Limits.{max_size};
ghost use Rattle.verdict.specs.Scripts.{osd_of_word, osds_in, words_in_line, pairs_of, stand_by_twos, stated_in, places_order, pairs_order, order_in, is_passed, said_at, said_in};
ghost use Rattle.verdict.specs.Reading.{stated_of, IsCut};

use crate::asking::asks_alone;
use crate::order::Order;
use mapparts::limits::MAX_PLACES;
use mapparts::number;
use maptypes::{Explicit, Items, Pair, Pg, Short};
use std::alloc::{AllocError, Global};

/// The base of numbers in a script.
const DECIMAL: u32 = 10;

const SET_PAIRS: &[u8] = b"ceph osd pg-upmap-items ";

const DROP_PAIRS: &[u8] = b"ceph osd rm-pg-upmap-items ";

const SET_PLACES: &[u8] = b"ceph osd pg-upmap ";

const DROP_PLACES: &[u8] = b"ceph osd rm-pg-upmap ";

/// What a line says that is not passed over: how many lines stand before it, and its command, where it is one that is
/// known.
#[derive(Clone, Copy, Debug)]
pub(crate) struct Said {
    pub line: usize,
    pub order: Option<Order>,
}

/// What a text states of a group.
#[derive(Drop)]
struct Stated {
    pg: Pg,
    osds: Vec<u16>,
}

/// The OSD that a word is.
fn read_osd(word: &[u8]) -> Option<u16>
    ensures { result ≡ osd_of_word word.now }
{
    u16::try_from(number(DECIMAL, word)??).ok()
}

/// The first part of a text between bytes of one kind, and what stands behind it, where such a byte does.
#[derive(Clone, Copy)]
struct Cut<'t> {
    first: &'t [u8],
    rest: Option<&'t [u8]>,
}

/// The place of the first byte of a kind.
fn place_of(text: &[u8], at: u8) -> Option<usize>
    ensures place { result ≡ position (λ c. c == at) text.now }
    ensures within { IfSome result (λ place. place < length text.now) }
{
    text.iter().position(|byte| *byte == at)
}

/// The first part of a text.
fn first_part(text: &[u8], at: u8) -> Cut<'_>
    ensures { IsCut at text.now result }
{
    match place_of(text, at) {
        Some(place) => Cut {
            first: &text[..place],
            rest: Some(&text[place + 1..]),
        },
        None => Cut {
            first: text,
            rest: None,
        },
    }
}

/// The OSDs that the words of a text are; `None` where one of them is none.
fn read_osds(alloc: Global, text: &[u8]) -> Result<Option<Vec<u16>>, AllocError>
    ensures { IfOk result (λ osds. option_map (λ o. o.items) osds ≡ osds_in (words_in_line text.now)) }
{
    let mut osds = Vec::new(alloc);
    let mut left = Some(text);
    while let Some(words) = left {
        let Cut { first, rest } = first_part(words, b' ');
        let Some(osd) = read_osd(first) else {
            return Ok(None);
        };
        osds.push(osd)?;
        left = rest;
    }
    Ok(Some(osds))
}

/// What a text states of a group.
#[tactic(auto, unfolding(crate::specs::Scripts::stated_in))]
fn read_stated(alloc: Global, text: &[u8]) -> Result<Option<Stated>, AllocError>
    ensures { IfOk result (λ stated. option_map stated_of stated ≡ stated_in text.now) }
{
    let Some(at) = place_of(text, b' ') else {
        return Ok(None);
    };
    let Some(pg) = Pg::parse(&text[..at]) else {
        return Ok(None);
    };
    let Some(osds) = read_osds(alloc, &text[at + 1..])? else {
        return Ok(None);
    };
    Ok(Some(Stated { pg, osds }))
}

/// OSDs as an explicit set has them.
fn places_of(osds: &[u16]) -> Short<u32>
    requires { length osds.now ≤ max_size }
    ensures { result ≡ osds.now }
{
    let mut places = Short::new();
    for osd in osds {
        places.push(u32::from(*osd));
    }
    places
}

/// The pairs that OSDs are by twos.
#[tactic(auto, using(crate::proofs::Pairs::pairs_more, crate::proofs::Pairs::pairs_fit))]
fn pairs_of(osds: &[u16]) -> Short<Pair>
    requires { stand_by_twos osds.now ≡ true }
    ensures { result ≡ pairs_of osds.now }
{
    let mut pairs = Short::new();
    for place in 0..osds.len() / 2 {
        pairs.push(Pair {
            from: osds[2 * place],
            to: osds[2 * place + 1],
        });
    }
    pairs
}

/// Whether OSDs stand by twos, and are no more pairs than a map has room for.
#[tactic(auto, unfolding(crate::specs::Scripts::stand_by_twos))]
fn are_pairs(osds: &[u16]) -> bool
    ensures { result ≡ stand_by_twos osds.now }
{
    osds.len() % 2 == 0 && osds.len() / 2 <= MAX_PLACES
}

/// The command by which an explicit set comes.
fn places_order(stated: &Stated) -> Option<Order>
    ensures { result ≡ places_order (stated_of stated.now) }
{
    if stated.osds.len() <= MAX_PLACES {
        Some(Order::SetPlaces(Explicit {
            pg: stated.pg,
            entries: places_of(&stated.osds),
        }))
    } else {
        None
    }
}

/// The command by which pairs come.
fn pairs_order(stated: &Stated) -> Option<Order>
    ensures { result ≡ pairs_order (stated_of stated.now) }
{
    if are_pairs(&stated.osds) {
        Some(Order::SetPairs(Items {
            pg: stated.pg,
            entries: pairs_of(&stated.osds),
        }))
    } else {
        None
    }
}

/// The command of a line.
#[tactic(auto, unfolding(crate::specs::Scripts::order_in))]
fn read_order(alloc: Global, line: &[u8]) -> Result<Option<Order>, AllocError>
    ensures { IfOk result (λ order. order ≡ order_in line.now) }
{
    if let Some(text) = line.strip_prefix(SET_PAIRS) {
        let stated = read_stated(alloc, text)?;
        return Ok(stated.as_ref().and_then(|stated| pairs_order(stated)));
    }
    if let Some(group) = line.strip_prefix(DROP_PAIRS) {
        return Ok(Pg::parse(group).map(Order::DropPairs));
    }
    if let Some(text) = line.strip_prefix(SET_PLACES) {
        let stated = read_stated(alloc, text)?;
        return Ok(stated.as_ref().and_then(|stated| places_order(stated)));
    }
    match line.strip_prefix(DROP_PLACES) {
        Some(group) => Ok(Pg::parse(group).map(Order::DropPlaces)),
        None => Ok(None),
    }
}

/// Whether a line gives no command.
#[tactic(auto, unfolding(crate::specs::Scripts::is_passed))]
fn is_passed(line: &[u8]) -> bool
    ensures { result ≡ is_passed line.now }
{
    match line {
        [] | [b'#', ..] => true,
        _ => asks_alone(line),
    }
}

/// Adds what a line says, where it says something.
fn push_said(
    alloc: Global,
    said: &mut Vec<Said>,
    line: usize,
    text: &[u8],
) -> Result<(), AllocError>
    ensures { IfOk result (λ _. said.new.items ≡ said.old.items ++ said_at line text.now) }
{
    if is_passed(text) {
        return Ok(());
    }
    let order = read_order(alloc, text)?;
    said.push(Said { line, order })?;
    Ok(())
}

/// What the lines of a script say, in order.
pub(crate) fn read_script(alloc: Global, text: &[u8]) -> Result<Vec<Said>, AllocError>
    ensures { IfOk result (λ said. said.items ≡ said_in text.now) }
{
    let mut said = Vec::new(alloc);
    let mut line = 0;
    let mut left = text;
    // There are no more newlines than bytes, so that lines can be counted.
    let _ = text.len();
    loop {
        let Cut { first, rest } = first_part(left, b'\n');
        push_said(alloc, &mut said, line, first)?;
        match rest {
            None => return Ok(said),
            Some(more) => {
                line += 1;
                left = more;
            }
        }
    }
}
