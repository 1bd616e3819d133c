//! How a line is read into its command.
ghost use Rattle.std.specs.Prelude.{◌≡◌, ◌<◌, ◌≤◌, ◌==◌, ◌+◌, ◌*◌, ◌^◌, length, position, IfSome};
ghost use Rattle.std.specs.Option.{option_map, option_and_then};
ghost use Rattle.balancer.specs.Limits.{max_moves};
ghost use Rattle.session.specs.Commands.{osd_in, epoch_in, two_words, words_of, limit_in, apart_in, beside_in, plan_for, plan_in, question_in, task_in, sets_in, command_of, beside_of, command_in, known_in};
ghost use Rattle.session.specs.declared.command.Command.TheVariants.{Balance};

use crate::command::{Beside, Command, Plan, Task};
use balancer::limits::{LEAST_APART, MAX_MOVES};
use mapparts::{Profile, number};
use maptypes::Pg;
use monitor::Question;

/// The base of numbers in a script.
const DECIMAL: u32 = 10;

const EPOCH: &[u8] = b"epoch";

const DUMP: &[u8] = b"dump";

const UP: &[u8] = b"up ";

const COUNT: &[u8] = b"count ";

const GROUPS: &[u8] = b"groups ";

const CHANGE: &[u8] = b"change ";

const APPLY: &[u8] = b"apply ";

const AWAIT: &[u8] = b"await ";

const BALANCE: &[u8] = b"balance ";

const FOLLOW: &[u8] = b"follow";

const FOLLOWER_DUMP: &[u8] = b"fdump";

const FOLLOWER_UP: &[u8] = b"fup ";

const FOLLOWER_KEPT: &[u8] = b"fkept ";

const UPS: &[u8] = b"ups ";

const FOLLOWER_UPS: &[u8] = b"fups ";

/// The first word of a text, and what stands behind its space.
#[derive(Clone, Copy)]
struct Words<'t> {
    first: &'t [u8],
    rest: &'t [u8],
}

/// The epoch that a text is: a number of at most 64 bits, without a sign or leading zeros.
fn read_epoch(text: &[u8]) -> Option<u64>
    ensures { result ≡ epoch_in text.now }
{
    number(DECIMAL, text)?
}

/// The OSD that a text is: a number of at most 32 bits, without a sign or leading zeros.
fn read_osd(text: &[u8]) -> Option<u32>
    ensures { result ≡ osd_in text.now }
{
    u32::try_from(read_epoch(text)?).ok()
}

/// The place of the first space.
fn space(text: &[u8]) -> Option<usize>
    ensures place { result ≡ position (λ c. c == 32) text.now }
    ensures within { IfSome result (λ at. at < length text.now) }
{
    text.iter().position(|byte| *byte == b' ')
}

/// The words before and behind the first space.
fn two_words(text: &[u8]) -> Option<Words<'_>>
    ensures { option_map words_of result ≡ two_words text.now }
{
    let at = space(text)?;
    Some(Words {
        first: &text[..at],
        rest: &text[at + 1..],
    })
}

/// The number of moves that a text is, from 1 to 1,024.
fn read_limit(text: &[u8]) -> Option<u32>
    ensures value { result ≡ limit_in text.now }
    ensures within { IfSome result (λ limit. (1 ≤ limit) × (limit ≤ max_moves)) }
{
    let limit = read_osd(text)?;
    if 1 <= limit && limit <= MAX_MOVES {
        Some(limit)
    } else {
        None
    }
}

/// How far two OSDs must be apart, as a text says it: 256 or more.
fn read_apart(text: &[u8]) -> Option<u32>
    ensures value { result ≡ apart_in text.now }
    ensures least { IfSome result (λ apart. 256 ≤ apart) }
{
    let apart = read_osd(text)?;
    if LEAST_APART <= apart {
        Some(apart)
    } else {
        None
    }
}

/// What a text says is to be counted beside a pool.
#[tactic(auto, unfolding(crate::specs::Commands::beside_in))]
fn read_beside(text: &[u8]) -> Option<Beside<'_>>
    ensures { option_map beside_of result ≡ beside_in text.now }
{
    let words = two_words(text)?;
    let apart = read_apart(words.first)?;
    Some(Beside {
        apart,
        loads: words.rest,
    })
}

/// The plan for a pool that a text says.
#[tactic(auto, unfolding(crate::specs::Commands::plan_for))]
fn read_plan_for(pool: u32, text: &[u8]) -> Option<Plan<'_>>
    ensures { option_map (λ plan. command_of (Balance plan)) result ≡ plan_for pool text.now }
{
    match two_words(text) {
        None => Some(Plan {
            pool,
            limit: read_limit(text)?,
            beside: None,
        }),
        Some(words) => Some(Plan {
            pool,
            limit: read_limit(words.first)?,
            beside: Some(read_beside(words.rest)?),
        }),
    }
}

/// The plan that a text asks for; `None` where it asks for none.
#[tactic(auto, unfolding(crate::specs::Commands::plan_in))]
fn read_plan(text: &[u8]) -> Option<Plan<'_>>
    ensures { option_map (λ plan. command_of (Balance plan)) result ≡ plan_in text.now }
{
    let words = two_words(text)?;
    read_plan_for(read_osd(words.first)?, words.rest)
}

/// The question of a line; `None` where it is none.
#[tactic(auto, unfolding(crate::specs::Commands::question_in))]
pub(crate) fn read_question(line: &[u8]) -> Option<Question>
    ensures { result ≡ question_in line.now }
{
    if line == EPOCH {
        return Some(Question::Epoch);
    }
    if line == DUMP {
        return Some(Question::Dump);
    }
    if let Some(group) = line.strip_prefix(UP) {
        return Some(Question::Up(Pg::parse(group)?));
    }
    if let Some(osd) = line.strip_prefix(COUNT) {
        return Some(Question::Count(read_osd(osd)?));
    }
    let osd = line.strip_prefix(GROUPS)?;
    Some(Question::Groups(read_osd(osd)?))
}

/// The follower's task of a line; `None` where it is none.
#[tactic(auto, unfolding(crate::specs::Commands::task_in))]
fn read_task(line: &[u8]) -> Option<Task>
    ensures { result ≡ task_in line.now }
{
    if line == FOLLOW {
        return Some(Task::CatchUp);
    }
    if line == FOLLOWER_DUMP {
        return Some(Task::Dump);
    }
    if let Some(group) = line.strip_prefix(FOLLOWER_UP) {
        return Some(Task::Up(Pg::parse(group)?));
    }
    let group = line.strip_prefix(FOLLOWER_KEPT)?;
    Some(Task::Kept(Pg::parse(group)?))
}

/// What a line asks of the sets of a pool; `None` where it asks nothing of them.
#[tactic(auto, unfolding(crate::specs::Commands::sets_in))]
fn read_sets(line: &[u8]) -> Option<Command<'_>>
    ensures { option_map command_of result ≡ sets_in line.now }
{
    if let Some(pool) = line.strip_prefix(UPS) {
        return Some(Command::Ups(read_osd(pool)?));
    }
    let pool = line.strip_prefix(FOLLOWER_UPS)?;
    Some(Command::FollowerUps(read_osd(pool)?))
}

/// The command of a line; `None` where the line is none.
#[tactic(auto, unfolding(crate::specs::Commands::command_in))]
pub(crate) fn read_command(line: &[u8]) -> Option<Command<'_>>
    ensures { option_map command_of result ≡ command_in line.now }
{
    if let Some(question) = read_question(line) {
        return Some(Command::Ask(question));
    }
    if let Some(text) = line.strip_prefix(CHANGE) {
        return Some(Command::Change(text));
    }
    if let Some(text) = line.strip_prefix(APPLY) {
        return Some(Command::Apply(text));
    }
    if let Some(epoch) = line.strip_prefix(AWAIT) {
        return Some(Command::Await(read_epoch(epoch)?));
    }
    if let Some(plan) = line.strip_prefix(BALANCE) {
        return Some(Command::Balance(read_plan(plan)?));
    }
    if let Some(command) = read_sets(line) {
        return Some(command);
    }
    Some(Command::Follower(read_task(line)?))
}

/// The command of a line in a script of maps of this profile: a script of plain maps has no `apply`, `ups`, `fups` and
/// `fkept`.
pub(crate) fn known_in(profile: Profile, command: Option<Command<'_>>) -> Option<Command<'_>>
    ensures { option_map command_of result ≡ known_in profile (option_map command_of command.entry) }
{
    match command {
        Some(
            Command::Apply(_)
            | Command::Ups(_)
            | Command::FollowerUps(_)
            | Command::Follower(Task::Kept(_)),
        ) if !profile.is_stock() => None,
        _ => command,
    }
}
