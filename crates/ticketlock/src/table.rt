//! The table of the lock: three words, the places of its seats, and the rule over both.
ghost use Rattle.std.specs.Prelude.{◌≡◌, ◌≤◌, ◌^◌, [], ◌∷◌};
ghost use Rattle.ticketlock.specs.declared.view.Kind.TheVariants.{Read, Write};
ghost use Rattle.ticketlock.specs.declared.view.Step.TheVariants.{Draws, ReaderLooks, WriterLooks, ReaderEnters, ReaderLeaves, WriterCloses, WriterLeaves};
ghost use Rattle.ticketlock.specs.Rule.{drawn_for, looked_at, gone_in, gone_out, newcomer};
ghost use Rattle.ticketlock.specs.Places.{sight_cut, unseeing};
ghost use Rattle.ticketlock.specs.Traces.{HasTaken};

use crate::view::Sight;
use atomic_table::{Play, Seat, Split, Table, TableRule};
use std::alloc::Global;

/// The word from which tickets are drawn.
pub(crate) const DRAW_WORD: usize = 0;
/// The word that says which ticket may enter to read.
pub(crate) const READER_WORD: usize = 1;
/// The word that says which ticket may enter to write.
pub(crate) const WRITER_WORD: usize = 2;

/// A seat's place at the words, and how often it has drawn.
#[derive(Drop)]
pub(crate) struct Place {
    pub(crate) token: Seat<u8, Sight>,
    pub(crate) draws: u64,
    pub ghost counted: { draws ≡ token.me.0.view.draws },
}

/// The rule of the three words and of all views. It is told the number of seats.
pub(crate) struct InOrder;

impl TableRule<u8, Sight, u32> for InOrder {
    ghost use Rattle.ticketlock.specs.Places.{opener, unseeing};
    ghost use Rattle.ticketlock.specs.Traces.{IsTraced};

    ghost holds = { IsTraced };

    ghost first = { λ seats. unseeing (opener seats) };
}

/// A draw to read: the ticket that was found.
pub(crate) struct DrawRead;

impl Play<u8, Sight> for DrawRead {
    ghost then = { λ _ me n you. (you.1 ≡ me.1) × (you.0.view ≡ drawn_for Read n me.0.view)
        × HasTaken (Draws Read ∷ []) me.0 you.0 };
}

/// A draw to write: the ticket that was found.
pub(crate) struct DrawWrite;

impl Play<u8, Sight> for DrawWrite {
    ghost then = { λ _ me n you. (you.1 ≡ me.1) × (you.0.view ≡ drawn_for Write n me.0.view)
        × HasTaken (Draws Write ∷ []) me.0 you.0 };
}

/// A reader's look: the word that was found.
pub(crate) struct LookRead;

impl Play<u8, Sight> for LookRead {
    ghost then = { λ _ me n you. (you.1 ≡ me.1) × (you.0.view ≡ looked_at n me.0.view)
        × HasTaken (ReaderLooks ∷ []) me.0 you.0 };
}

/// A writer's look: the word that was found.
pub(crate) struct LookWrite;

impl Play<u8, Sight> for LookWrite {
    ghost then = { λ _ me n you. (you.1 ≡ me.1) × (you.0.view ≡ looked_at n me.0.view)
        × HasTaken (WriterLooks ∷ []) me.0 you.0 };
}

/// An add to the reader word, by which a reader enters.
pub(crate) struct Enter;

impl Play<u8, Sight> for Enter {
    ghost then = { λ _ me n you. (you.1 ≡ me.1) × (you.0.view ≡ gone_in me.0.view)
        × HasTaken (ReaderEnters ∷ []) me.0 you.0 };
}

/// An add to the reader word, by which a writer lets the next reader enter.
pub(crate) struct Close;

impl Play<u8, Sight> for Close {
    ghost then = { λ _ me n you. (you.1 ≡ me.1) × (you.0.view ≡ gone_in me.0.view)
        × HasTaken (WriterCloses ∷ []) me.0 you.0 };
}

/// An add to the writer word, by which a reader leaves.
pub(crate) struct Leave;

impl Play<u8, Sight> for Leave {
    ghost then = { λ _ me n you. (you.1 ≡ me.1) × (you.0.view ≡ gone_out me.0.view)
        × HasTaken (ReaderLeaves ∷ []) me.0 you.0 };
}

/// An add to the writer word, by which a writer leaves.
pub(crate) struct End;

impl Play<u8, Sight> for End {
    ghost then = { λ _ me n you. (you.1 ≡ me.1) × (you.0.view ≡ gone_out me.0.view)
        × HasTaken (WriterLeaves ∷ []) me.0 you.0 };
}

/// Another seat is cut off.
pub(crate) struct Cut;

impl Split<Sight> for Cut {
    ghost left = { sight_cut };

    ghost right = { λ _. unseeing newcomer };
}

/// The three words, with the lock's limit of draws.
#[derive(Drop)]
pub(crate) struct Words {
    pub(crate) table: Table<u8, Sight, u32, InOrder, Global>,
    pub(crate) limit: u64,
    pub ghost three_words: { table.shared.table_id.words ≡ 3 },
    pub ghost no_slots: { table.shared.table_id.slots ≡ 0 },
    pub ghost limited: { limit ≤ 2 ^ 40 },
}
