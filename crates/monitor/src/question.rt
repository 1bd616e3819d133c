//! What a member asks of its monitor, and what a state answers.

ghost use Rattle.std.specs.Prelude.{◌≡◌, ◌≢◌, IsUtf8, IfErr};
ghost use Rattle.refusal.specs.declared.refused.Refusal.TheVariants.{SeatSpent};
ghost use Rattle.monitor.specs.Questions.{Finds, IsDump};

use epochlog::Keeps;
use mapjson::write_map;
use maptypes::{Pg, UpSet};
use refusal::Refusal;
use state::State;
use upmap_cleanup::Remnant;

/// A question to a monitor. Members share the lock for it.
#[derive(Clone, Copy, Debug)]
pub enum Question {
    /// The up set of a group. It takes no memory.
    Up(Pg),
    /// In how many groups' up sets an OSD stands. It takes no memory.
    Count(u32),
    /// In which groups' up sets an OSD stands.
    Groups(u32),
    /// The epoch. It takes no memory.
    Epoch,
    /// The written form of the map.
    Dump,
}

/// The answer to a question, at one epoch.
#[derive(Debug, Drop)]
pub enum Answer {
    /// The up set of a group.
    Up {
        epoch: u64,
        pg: Pg,
        set: UpSet,
    },
    /// In how many groups' up sets an OSD stands.
    Count {
        epoch: u64,
        osd: u32,
        count: usize,
    },
    /// In which groups' up sets an OSD stands, by pool upwards, then by number.
    Groups {
        epoch: u64,
        osd: u32,
        groups: Vec<Pg>,
    },
    /// The epoch.
    Epoch(u64),
    /// The text of the map, as `mapjson::write_map` writes it.
    Dump(String),
    /// What a Ceph monitor would leave of a group's exceptions. A follower alone tells it.
    Kept {
        epoch: u64,
        pg: Pg,
        left: Remnant,
    },
}

impl Answer {
    /// The answer that is the text of a map.
    pub fn of_text(bytes: Vec<u8>) -> Answer
        requires { IsUtf8 bytes.items }
        ensures { IsDump result bytes.items }
    {
        match String::from_utf8(bytes) {
            Ok(text) => Answer::Dump(text),
            Err(_) => unreachable!(),
        }
    }
}

/// What a question finds in a state.
pub(crate) fn find<K: Keeps + Drop>(state: &State<K>, question: Question) -> Result<Answer, Refusal>
    ensures finds { Finds state.now.map question result }
    ensures unspent { IfErr result (λ e. e ≢ SeatSpent) }
{
    match question {
        Question::Up(pg) => {
            let (epoch, set) = state.answer_up(pg)?;
            Ok(Answer::Up { epoch, pg, set })
        }
        Question::Count(osd) => {
            let (epoch, count) = state.answer_count(osd)?;
            Ok(Answer::Count { epoch, osd, count })
        }
        Question::Groups(osd) => {
            let (epoch, groups) = state.answer_groups(state.alloc(), osd)?;
            Ok(Answer::Groups { epoch, osd, groups })
        }
        Question::Epoch => Ok(Answer::Epoch(state.map().epoch())),
        Question::Dump => Ok(Answer::of_text(write_map(state.alloc(), state.map())?)),
    }
}
