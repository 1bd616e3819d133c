//! How an answer is told: its line is made in a text, and put to the sink whole.
ghost use Rattle.std.specs.Prelude.{◌≡◌, false, OnOk, IfErr};
ghost use Rattle.session.specs.declared.error.SessionError.TheVariants.{Write as CannotWrite};
ghost use Rattle.session.specs.declared.reply.Speaker.TheVariants.{Monitor};
ghost use Rattle.session.specs.Texts.{line_of};
ghost use Rattle.session.specs.Replies.{answer_text, reply_text};
ghost use Rattle.session.specs.Ends.{IsOut, has_sink_failed};

use crate::error::SessionError;
use crate::reply::{Reply, push_answer_line, push_reply_line};
use crate::sink::{Sink, write_whole};
use monitor::Answer;
use refusal::Refusal;

/// Puts the line of what a question finds at the monitor to a sink, by way of a text.
pub(crate) fn tell_answer<W: Sink>(
    found: Result<Answer, Refusal>,
    text: &mut String,
    sink: &mut W,
) -> Result<(), SessionError>
    requires { W.has_failed sink.old ≡ false }
    ensures out { IsOut (line_of (answer_text Monitor) found) (W.written sink.old) (W.written sink.new) result }
    ensures failed { W.has_failed sink.new ≡ has_sink_failed result }
    ensures waits { W.waits sink.new ≡ W.waits sink.old }
{
    text.clear();
    let pushed = push_answer_line(text, &found);
    drop(found);
    if pushed.is_err() {
        return Err(SessionError::Memory);
    }
    write_whole(sink, text.as_bytes())?;
    Ok(())
}

/// Puts the line of what a command answers to a sink, by way of a text.
pub(crate) fn tell_reply<W: Sink>(
    reply: Result<Reply, Refusal>,
    text: &mut String,
    sink: &mut W,
) -> Result<(), SessionError>
    requires { W.has_failed sink.old ≡ false }
    ensures out { IsOut (line_of reply_text reply) (W.written sink.old) (W.written sink.new) result }
    ensures failed { W.has_failed sink.new ≡ has_sink_failed result }
    ensures waits { W.waits sink.new ≡ W.waits sink.old }
{
    text.clear();
    if push_reply_line(text, reply).is_err() {
        return Err(SessionError::Memory);
    }
    write_whole(sink, text.as_bytes())?;
    Ok(())
}

/// Has all out.
pub(crate) fn flush<W: Sink>(sink: &mut W) -> Result<(), SessionError>
    requires { W.has_failed sink.old ≡ false }
    ensures same { W.written sink.new ≡ W.written sink.old }
    ensures out { OnOk result (W.holds_back sink.new ≡ false) }
    ensures room { OnOk result (W.is_filled sink.new ≡ false) }
    ensures failed { W.has_failed sink.new ≡ has_sink_failed result }
    ensures write { IfErr result (λ error. error ≡ CannotWrite) }
{
    sink.flush()?;
    Ok(())
}

/// Has all out where the sink is full, so that a write need not wait for that while the lock is held.
pub(crate) fn flush_if_full<W: Sink>(sink: &mut W) -> Result<(), SessionError>
    requires { W.has_failed sink.old ≡ false }
    ensures same { W.written sink.new ≡ W.written sink.old }
    ensures room { OnOk result (W.is_filled sink.new ≡ false) }
    ensures failed { W.has_failed sink.new ≡ has_sink_failed result }
    ensures write { IfErr result (λ error. error ≡ CannotWrite) }
{
    if sink.is_full() {
        return flush(sink);
    }
    Ok(())
}
