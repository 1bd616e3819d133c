//! What the commands of a script answer, and its line.
ghost use Rattle.std.specs.Prelude.{◌≡◌, ◌++◌, codes, decimal, OnOk};
ghost use Rattle.std.specs.String.{string_bytes};
ghost use Rattle.maptypes.specs.SetText.{list_text};
ghost use Rattle.maptypes.specs.GroupText.{group_text};
ghost use Rattle.session.specs.declared.reply.Reply.TheVariants.{Found};
ghost use Rattle.session.specs.declared.reply.Speaker.TheVariants.{Monitor};
ghost use Rattle.session.specs.Texts.{count_text, epoch_text, dump_text, up_text, ups_text, groups_text, crowded_text, cause_text, remnant_text, kept_text, refusal_text, line_of};
ghost use Rattle.session.specs.Replies.{up_word, ups_word, epoch_word, dump_word, answer_text, reply_text};

use crate::pool_sets::PoolSets;
use crate::text::{push_group, push_list, push_number, push_osd, push_place, push_places};
use maptypes::{Pg, UpSet};
use monitor::{Answer, Cause, Remnant};
use refusal::Refusal;
use std::alloc::AllocError;

/// Whose map a reply tells of.
#[derive(Clone, Copy, Debug)]
pub(crate) enum Speaker {
    /// The monitor.
    Monitor,
    /// The session's follower.
    Follower,
}

/// What a command that is not refused answers.
#[derive(Debug, Drop)]
pub(crate) enum Reply {
    /// What a question finds, in the map of the monitor or of the session's follower.
    Found { by: Speaker, answer: Answer },
    /// The up sets of all groups of a pool, in the map of the monitor or of the session's follower.
    Sets { by: Speaker, sets: PoolSets },
    /// The epoch after a change, and the number of groups whose placement the change can alter.
    Changed { epoch: u64, evals: usize },
    /// How many moves a plan had, and the epoch after it.
    Moved { moves: usize, epoch: u64 },
}

impl Reply {
    /// What a question finds at the monitor.
    pub(crate) fn of_monitor(answer: Answer) -> Reply
        ensures { result ≡ Found Monitor answer }
    {
        let by = Speaker::Monitor;
        Reply::Found { by, answer }
    }
}

impl Speaker {
    /// The first word of an up set.
    fn up_word(self) -> &'static str
        ensures { result.now ≡ up_word self }
    {
        match self {
            Speaker::Monitor => "up",
            Speaker::Follower => "fup",
        }
    }

    /// The first word of the sets of a pool.
    fn ups_word(self) -> &'static str
        ensures { result.now ≡ ups_word self }
    {
        match self {
            Speaker::Monitor => "ups",
            Speaker::Follower => "fups",
        }
    }

    /// The first word of an epoch.
    fn epoch_word(self) -> &'static str
        ensures { result.now ≡ epoch_word self }
    {
        match self {
            Speaker::Monitor => "epoch",
            Speaker::Follower => "follow",
        }
    }

    /// The first word of a map's text.
    fn dump_word(self) -> &'static str
        ensures { result.now ≡ dump_word self }
    {
        match self {
            Speaker::Monitor => "dump",
            Speaker::Follower => "fdump",
        }
    }
}

/// Adds the first word of an answer and the epoch.
fn push_word(text: &mut String, word: &str, epoch: u64) -> Result<(), AllocError>
    ensures { OnOk result (string_bytes text.new ≡ string_bytes text.old ++ word.now ++ codes " " ++ decimal epoch) }
{
    text.push_str(word)?;
    text.push_str(" ")?;
    push_number(text, epoch)
}

/// Adds the line of an epoch.
#[tactic(auto, unfolding(crate::specs::Texts::epoch_text))]
fn push_epoch(text: &mut String, word: &str, epoch: u64) -> Result<(), AllocError>
    ensures { OnOk result (string_bytes text.new ≡ string_bytes text.old ++ epoch_text word.now epoch) }
{
    push_word(text, word, epoch)?;
    text.push_str("\n")
}

/// Adds the line of a map's text.
#[tactic(auto, unfolding(crate::specs::Texts::dump_text))]
fn push_dump(text: &mut String, word: &str, map: &str) -> Result<(), AllocError>
    ensures { OnOk result (string_bytes text.new ≡ string_bytes text.old ++ dump_text word.now map.now) }
{
    text.push_str(word)?;
    text.push_str(" ")?;
    text.push_str(map)?;
    text.push_str("\n")
}

/// Adds what stands before the places of a group's set.
fn push_head(text: &mut String, word: &str, epoch: u64, pg: Pg) -> Result<(), AllocError>
    ensures { OnOk result (string_bytes text.new ≡ string_bytes text.old
        ++ (word.now ++ codes " " ++ decimal epoch ++ codes " " ++ group_text pg ++ codes " [")) }
{
    push_word(text, word, epoch)?;
    text.push_str(" ")?;
    push_group(text, pg)?;
    text.push_str(" [")
}

/// Adds the line of a group's set.
#[tactic(auto, unfolding(crate::specs::Texts::up_text))]
fn push_set(
    text: &mut String,
    word: &str,
    epoch: u64,
    pg: Pg,
    set: &UpSet,
) -> Result<(), AllocError>
    ensures { OnOk result (string_bytes text.new ≡ string_bytes text.old ++ up_text word.now epoch pg set.now) }
{
    push_head(text, word, epoch, pg)?;
    push_places(text, set.places())?;
    text.push_str("] ")?;
    push_osd(text, set.primary(), "-1")?;
    text.push_str("\n")
}

/// Adds the line of the sets of a pool's groups.
#[tactic(auto, unfolding(crate::specs::Texts::ups_text))]
fn push_sets(text: &mut String, word: &str, sets: &PoolSets) -> Result<(), AllocError>
    ensures { OnOk result (string_bytes text.new ≡ string_bytes text.old
        ++ ups_text word.now sets.now.epoch sets.now.pool (string_bytes sets.now.text)) }
{
    push_word(text, word, sets.epoch)?;
    text.push_str(" ")?;
    push_number(text, u64::from(sets.pool))?;
    text.push_str(&sets.text)?;
    text.push_str("\n")
}

/// Adds the line of an OSD's count.
#[tactic(auto, unfolding(crate::specs::Texts::count_text))]
fn push_count(text: &mut String, epoch: u64, osd: u32, count: usize) -> Result<(), AllocError>
    ensures { OnOk result (string_bytes text.new ≡ string_bytes text.old ++ count_text epoch osd count) }
{
    push_word(text, "count", epoch)?;
    text.push(' ')?;
    push_number(text, u64::from(osd))?;
    text.push(' ')?;
    push_number(text, count as u64)?;
    text.push('\n')
}

/// Adds the line of an OSD's groups.
#[tactic(auto, unfolding(crate::specs::Texts::groups_text))]
fn push_groups(text: &mut String, epoch: u64, osd: u32, groups: &[Pg]) -> Result<(), AllocError>
    ensures { OnOk result (string_bytes text.new ≡ string_bytes text.old ++ groups_text epoch osd groups.now) }
{
    push_word(text, "groups", epoch)?;
    text.push(' ')?;
    push_number(text, u64::from(osd))?;
    text.push_str(" [")?;
    push_list(text, groups)?;
    text.push_str("]\n")
}

/// Adds a step that chooses leaves, and two OSDs.
#[tactic(auto, unfolding(crate::specs::Texts::crowded_text))]
fn push_crowded(text: &mut String, step: usize, one: u16, other: u16) -> Result<(), AllocError>
    ensures { OnOk result (string_bytes text.new ≡ string_bytes text.old ++ crowded_text step one other) }
{
    text.push_str("chooseleaf ")?;
    push_number(text, step as u64)?;
    text.push_str(" ")?;
    push_number(text, u64::from(one))?;
    text.push_str(" ")?;
    push_number(text, u64::from(other))
}

/// Adds why all exceptions of a group go.
fn push_cause(text: &mut String, cause: Cause) -> Result<(), AllocError>
    ensures { OnOk result (string_bytes text.new ≡ string_bytes text.old ++ cause_text cause) }
{
    match cause {
        Cause::Crowded { step, one, other } => push_crowded(text, step, one, other),
        Cause::Spread { step, buckets } => write!(text, "choose {step} {buckets}"),
        Cause::Outside { step, place } => {
            write!(text, "take {step} ")?;
            push_place(text, place)
        }
        Cause::Unreached(place) => {
            text.push_str("unreached ")?;
            push_place(text, place)
        }
        Cause::Out(osd) => write!(text, "out {osd}"),
        Cause::IdleSet => text.push_str("idle-set"),
        Cause::SetLength => text.push_str("set-length"),
        Cause::IdlePairs => text.push_str("idle-pairs"),
    }
}

/// Adds what is left of exceptions.
fn push_remnant(text: &mut String, left: Remnant) -> Result<(), AllocError>
    ensures { OnOk result (string_bytes text.new ≡ string_bytes text.old ++ remnant_text left) }
{
    match left {
        Remnant::All => text.push_str("all"),
        Remnant::Fewer => text.push_str("fewer"),
        Remnant::Gone(cause) => {
            text.push_str("gone ")?;
            push_cause(text, cause)
        }
    }
}

/// Adds the line of what is left of a group's exceptions.
#[tactic(auto, unfolding(crate::specs::Texts::kept_text))]
fn push_kept(text: &mut String, epoch: u64, pg: Pg, left: Remnant) -> Result<(), AllocError>
    ensures { OnOk result (string_bytes text.new ≡ string_bytes text.old ++ kept_text epoch pg left) }
{
    push_word(text, "fkept", epoch)?;
    text.push_str(" ")?;
    push_group(text, pg)?;
    text.push_str(" ")?;
    push_remnant(text, left)?;
    text.push_str("\n")
}

/// Adds the line of a refusal.
#[tactic(auto, unfolding(crate::specs::Texts::refusal_text))]
fn push_refusal(text: &mut String, refusal: Refusal) -> Result<(), AllocError>
    ensures { OnOk result (string_bytes text.new ≡ string_bytes text.old ++ refusal_text refusal) }
{
    write!(text, "err {} {}", refusal.number(), refusal.name())?;
    if let Refusal::StaleEpoch(current) = refusal {
        write!(text, " {current}")?;
    }
    text.push_str("\n")
}

/// Adds the line of what a question finds.
fn push_answer(text: &mut String, by: Speaker, answer: &Answer) -> Result<(), AllocError>
    ensures { OnOk result (string_bytes text.new ≡ string_bytes text.old ++ answer_text by answer.now) }
{
    match answer {
        Answer::Up { epoch, pg, set } => push_set(text, by.up_word(), *epoch, *pg, set),
        Answer::Count { epoch, osd, count } => push_count(text, *epoch, *osd, *count),
        Answer::Groups { epoch, osd, groups } => push_groups(text, *epoch, *osd, groups),
        Answer::Epoch(epoch) => push_epoch(text, by.epoch_word(), *epoch),
        Answer::Dump(map) => push_dump(text, by.dump_word(), map),
        Answer::Kept { epoch, pg, left } => push_kept(text, *epoch, *pg, *left),
    }
}

/// Adds the line of a reply.
#[tactic(auto, unfolding(crate::specs::Texts::ok_text, crate::specs::Texts::moved_text))]
fn push_reply(text: &mut String, reply: &Reply) -> Result<(), AllocError>
    ensures { OnOk result (string_bytes text.new ≡ string_bytes text.old ++ reply_text reply.now) }
{
    match reply {
        Reply::Found { by, answer } => push_answer(text, *by, answer),
        Reply::Sets { by, sets } => push_sets(text, by.ups_word(), sets),
        Reply::Changed { epoch, evals } => writeln!(text, "ok {epoch} evals {evals}"),
        Reply::Moved { moves, epoch } => writeln!(text, "moved {moves} epoch {epoch}"),
    }
}

/// Puts the line of what the monitor finds, or of why it refuses, behind a text. The one error is out of memory.
pub(crate) fn push_answer_line(
    text: &mut String,
    found: &Result<Answer, Refusal>,
) -> Result<(), AllocError>
    ensures { OnOk result (string_bytes text.new ≡ string_bytes text.old ++ line_of (answer_text Monitor) found.now) }
{
    match found {
        Ok(answer) => push_answer(text, Speaker::Monitor, answer),
        Err(refusal) => push_refusal(text, *refusal),
    }
}

/// Puts the line of a reply, or of a refusal, behind a text, and gives back the reply. The one error is out of memory.
pub(crate) fn push_reply_line(
    text: &mut String,
    reply: Result<Reply, Refusal>,
) -> Result<(), AllocError>
    ensures { OnOk result (string_bytes text.new ≡ string_bytes text.old ++ line_of reply_text reply) }
{
    match reply {
        Ok(reply) => push_reply(text, &reply),
        Err(refusal) => push_refusal(text, refusal),
    }
}
