//! What the sessions of a run tell of its one history: laws of what `server::serve_map` says, which are the contracts
//! of functions that do nothing.
#![tactic(auto)]

ghost use Rattle.server_laws.specs.Sessions.{RunsAsOne, PrintsAsOne};
ghost use Rattle.server_laws.specs.Sound.{TellsAsLaw};

/// However the threads of a run went, what is left of its sessions is of one history, as if each look and each change
/// had come after the one before it: there is one list of visits to the history that all lines of all sessions were
/// told of, in the order of each session. The first finds the first map; each other finds just what the one before it
/// has left, and the last leaves all that the run has made. A line that is refused has put nothing behind.
pub fn runs_as_one()
    ensures { RunsAsOne }
{}

/// So the texts that a run has printed are those of one such list.
pub fn prints_as_one()
    ensures { PrintsAsOne }
{}

/// And what that list tells is what the law over events says of all looks and changes (`monitor_laws::one_history`):
/// each look was at a state with its table, of the first map and a journal as long as the history then was; and each
/// change stands in that once, with the next epoch.
pub fn tells_as_law()
    ensures { TellsAsLaw }
{}
