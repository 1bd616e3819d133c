//! How a run of the program ends.

use journalstore::StoreError;
use mapstore::OpenError;
use std::fmt;
use thiserror::Error;

/// Why a run ends before all is done. Its text is what the run tells on standard error.
#[derive(Debug, Drop, Error)]
pub enum Ending<'a> {
    /// The word that is to sign changes is none.
    Word,
    /// The store is not begun or opened, or its log is not copied into its file at the end.
    Store(OpenError),
    /// The store has failed, which was told then; and what else ended the run.
    Failed(Option<cli::Ending<'a>>),
    /// The journal is full, which was told then, and the run was to end there.
    Full,
    /// Whatever else ends a run of a program.
    Run(cli::Ending<'a>),
}

impl<'a> Ending<'a> {
    ghost use Rattle.std.specs.Prelude.{◌≡◌};
    ghost use Rattle.osdmapstore.specs.Endings.{open_ending, store_status_of};

    /// Of a run whose store is not begun or opened: out of memory, else the error.
    pub fn of_open(error: OpenError) -> Ending<'a>
        ensures { result ≡ open_ending error }
    {
        match error {
            OpenError::Store(StoreError::Memory) => Ending::Run(cli::Ending::Memory),
            error => Ending::Store(error),
        }
    }

    /// The exit status of the program: 1 to 8.
    pub fn status(&self) -> u8
        ensures { result ≡ store_status_of self.now }
    {
        match self {
            Ending::Word => 1,
            Ending::Store(_) => 5,
            Ending::Failed(_) => 6,
            Ending::Full => 8,
            Ending::Run(ending) => ending.status(),
        }
    }
}

impl<'a> From<cli::Ending<'a>> for Ending<'a> {
    ghost use Rattle.std.specs.Prelude.{◌≡◌};
    ghost use Rattle.osdmapstore.specs.declared.ending.Ending.TheVariants.{Run};

    ghost from_gives = { λ run ending. ending ≡ Run run };

    fn from(ending: cli::Ending<'a>) -> Ending<'a> {
        Ending::Run(ending)
    }
}

impl<'a> fmt::Display for Ending<'a> {
    ghost use Rattle.std.specs.Prelude.{Some};
    ghost use Rattle.osdmapstore.specs.Endings.{store_text_of};

    ghost output = { λ ending. Some (store_text_of ending) };

    fn fmt<W: fmt::Write>(&self, f: &mut fmt::Formatter<W>) -> fmt::Result {
        match self {
            Ending::Word => f.write_str(
                "the word of --by is not 1 to 64 characters of visible ASCII\n",
            ),
            Ending::Store(error) => writeln!(f, "store: {error}"),
            Ending::Failed(Some(ending)) | Ending::Run(ending) => write!(f, "{ending}"),
            Ending::Failed(None) | Ending::Full => Ok(()),
        }
    }
}
