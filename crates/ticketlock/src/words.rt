//! The steps on the lock's words, one function for each kind.
ghost use Rattle.std.specs.Prelude.{◌≡◌, ℕ, ◌-◌, ◌≤◌, ◌<◌, ◌^◌, [], ◌∷◌, IfOk, IsTrue, ◌↔◌};
ghost use Rattle.ticketlock.specs.declared.view.Stage.TheVariants.{Idle, Waiting, Next, Reading, Writing, Closing};
ghost use Rattle.ticketlock.specs.declared.view.Kind.TheVariants.{Read, Write};
ghost use Rattle.ticketlock.specs.Rule.{drawn_for, looked_at, gone_in, gone_out, newcomer};
ghost use Rattle.ticketlock.specs.Places.{opener, sight_cut, unseeing};
ghost use Rattle.ticketlock.specs.declared.view.Step.TheVariants.{Draws, ReaderLooks, WriterLooks, ReaderEnters, ReaderLeaves, WriterCloses, WriterLeaves};
ghost use Rattle.ticketlock.specs.Standing.{IsAt, IsSame, Becomes, stage_of, sight_of, view_of};
ghost use Rattle.ticketlock.specs.Traces.{HasTaken, EndsIn};
ghost use Rattle.ticketlock.specs.Taking.{IsDraw, IsReaderLook, IsWriterLook, IsEntry, IsReaderLeave, IsWriterClose, IsWriterLeave};

use crate::slots::Back;
use crate::table::{
    Close, Cut, DRAW_WORD, DrawRead, DrawWrite, End, Enter, Leave, LookRead, LookWrite, Place,
    READER_WORD, WRITER_WORD, Words,
};
use atomic_table::Table;
use std::alloc::{AllocError, Global};

/// The three words with which a lock ends.
#[derive(Clone, Copy)]
pub struct LastWords {
    /// The ticket that is the next to be drawn: how many were.
    pub draw: u64,
    /// The ticket that may enter to read.
    pub reader: u64,
    /// The ticket that may enter to write.
    pub writer: u64,
}

impl Words {
    /// Three words of 0, and the place of the first seat, from which the others are cut off.
    pub fn new(alloc: Global, seats: u32, limit: u64) -> Result<(Words, Place), AllocError>
        requires { (0 < seats) × (seats ≤ 2 ^ 10) × (limit ≤ 2 ^ 40) }
        ensures { IfOk result (λ r. IsAt r.0 r.1 × (sight_of r.1 ≡ unseeing (opener seats)) × (r.0.limit ≡ limit)) }
    {
        let (table, token) = Table::of_words(alloc, &[0, 0, 0], &seats)?;
        Ok((Words { table, limit }, Place { token, draws: 0 }))
    }

    /// Cuts off the place of another seat.
    pub fn cut(&self, place: &mut Place) -> Place
        requires own { IsAt self.now place.old }
        requires spare { 0 < (view_of place.old).spare }
        ensures own { IsSame place.old place.new × (sight_of place.new ≡ sight_cut (sight_of place.old)) }
        ensures new { IsAt self.now result × (sight_of result ≡ unseeing newcomer) }
    {
        let Place { token, draws: _ } = place;
        let token = self.table.shared.split_seat::<Cut>(token);
        Place { token, draws: 0 }
    }

    /// The three words at the end, to which a list of events has led that the seat knows.
    pub fn close_at(self, place: Place) -> LastWords
        requires own { IsAt self place }
        ensures { EndsIn result.draw result.reader result.writer (sight_of place) }
    {
        let Words { table, limit: _ } = self;
        let Place { token, draws: _ } = place;
        let closed = table.close_with(token);
        let found = LastWords {
            draw: closed.word(DRAW_WORD),
            reader: closed.word(READER_WORD),
            writer: closed.word(WRITER_WORD),
        };
        closed.free();
        found
    }

    /// Whether the seat has made its draws.
    pub fn is_spent(&self, place: &Place) -> bool
        ensures { IsTrue result ↔ (self.now.limit ≤ place.now.draws) }
    {
        place.draws >= self.limit
    }

    /// How often the seat may still draw.
    pub fn draws_left(&self, place: &Place) -> u64
        ensures { result ≡ self.now.limit - place.now.draws }
    {
        self.limit.saturating_sub(place.draws)
    }

    /// A draw to read.
    pub fn draw_read(&self, place: &mut Place) -> u64
        requires own { IsAt self.now place.old }
        requires idle { stage_of place.old ≡ Idle }
        requires room { place.old.draws < self.now.limit }
        ensures becomes { Becomes place.old place.new (drawn_for Read result (view_of place.old)) }
        ensures takes { IsDraw Read result place.old place.new }
        ensures run { HasTaken (Draws Read ∷ []) (sight_of place.old) (sight_of place.new) }
    {
        let Place { token, draws } = place;
        let ticket = self.table.shared.fetch_add::<DrawRead>(token, DRAW_WORD, 1);
        *draws += 1;
        ticket
    }

    /// A draw to write.
    pub fn draw_write(&self, place: &mut Place) -> u64
        requires own { IsAt self.now place.old }
        requires idle { stage_of place.old ≡ Idle }
        requires room { place.old.draws < self.now.limit }
        ensures becomes { Becomes place.old place.new (drawn_for Write result (view_of place.old)) }
        ensures takes { IsDraw Write result place.old place.new }
        ensures run { HasTaken (Draws Write ∷ []) (sight_of place.old) (sight_of place.new) }
    {
        let Place { token, draws } = place;
        let ticket = self
            .table
            .shared
            .fetch_add::<DrawWrite>(token, DRAW_WORD, 1);
        *draws += 1;
        ticket
    }

    /// A reader's look.
    pub fn look_read(&self, place: &mut Place) -> u64
        requires own { IsAt self.now place.old }
        requires waits { (t : ℕ) × (stage_of place.old ≡ Waiting t Read) }
        ensures becomes { Becomes place.old place.new (looked_at result (view_of place.old)) }
        ensures takes { IsReaderLook result place.old place.new }
        ensures run { HasTaken (ReaderLooks ∷ []) (sight_of place.old) (sight_of place.new) }
    {
        let Place { token, draws: _ } = place;
        self.table.shared.load::<LookRead>(token, READER_WORD)
    }

    /// A writer's look.
    pub fn look_write(&self, place: &mut Place) -> u64
        requires own { IsAt self.now place.old }
        requires waits { (t : ℕ) × (stage_of place.old ≡ Waiting t Write) }
        ensures becomes { Becomes place.old place.new (looked_at result (view_of place.old)) }
        ensures takes { IsWriterLook result place.old place.new }
        ensures run { HasTaken (WriterLooks ∷ []) (sight_of place.old) (sight_of place.new) }
    {
        let Place { token, draws: _ } = place;
        self.table.shared.load::<LookWrite>(token, WRITER_WORD)
    }

    /// A reader enters.
    pub fn enter(&self, place: &mut Place)
        requires own { IsAt self.now place.old }
        requires next { (t : ℕ) × (stage_of place.old ≡ Next t) }
        ensures becomes { Becomes place.old place.new (gone_in (view_of place.old)) }
        ensures takes { IsEntry place.old place.new }
        ensures run { HasTaken (ReaderEnters ∷ []) (sight_of place.old) (sight_of place.new) }
    {
        let Place { token, draws: _ } = place;
        self.table.shared.fetch_add::<Enter>(token, READER_WORD, 1);
    }

    /// A reader leaves.
    pub fn leave(&self, place: &mut Place, _back: Back)
        requires own { IsAt self.now place.old }
        requires reads { (t : ℕ) × (stage_of place.old ≡ Reading t) }
        ensures becomes { Becomes place.old place.new (gone_out (view_of place.old)) }
        ensures takes { IsReaderLeave place.old place.new }
        ensures run { HasTaken (ReaderLeaves ∷ []) (sight_of place.old) (sight_of place.new) }
    {
        let Place { token, draws: _ } = place;
        self.table.shared.fetch_add::<Leave>(token, WRITER_WORD, 1);
    }

    /// A writer leaves, first step: the next reader may enter.
    pub fn close(&self, place: &mut Place, _back: Back)
        requires own { IsAt self.now place.old }
        requires writes { (t : ℕ) × (stage_of place.old ≡ Writing t) }
        ensures becomes { Becomes place.old place.new (gone_in (view_of place.old)) }
        ensures takes { IsWriterClose place.old place.new }
        ensures run { HasTaken (WriterCloses ∷ []) (sight_of place.old) (sight_of place.new) }
    {
        let Place { token, draws: _ } = place;
        self.table.shared.fetch_add::<Close>(token, READER_WORD, 1);
    }

    /// A writer leaves, second step: the next writer may enter.
    pub fn end(&self, place: &mut Place)
        requires own { IsAt self.now place.old }
        requires closes { (t : ℕ) × (stage_of place.old ≡ Closing t) }
        ensures becomes { Becomes place.old place.new (gone_out (view_of place.old)) }
        ensures takes { IsWriterLeave place.old place.new }
        ensures run { HasTaken (WriterLeaves ∷ []) (sight_of place.old) (sight_of place.new) }
    {
        let Place { token, draws: _ } = place;
        self.table.shared.fetch_add::<End>(token, WRITER_WORD, 1);
    }
}
