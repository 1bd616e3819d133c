//! What is written as JSON, token by token: numbers, lists, and members of objects.

ghost use Rattle.std.specs.Prelude.{◌≡◌, ◌∷◌, ◌++◌, OnOk, map, ℤ, pos, ⊤};
ghost use Rattle.std.specs.List.{All};
ghost use Rattle.json.specs.Token.{key};
ghost use Rattle.serde_json.specs.Data.{Data, string, boolean};
ghost use Rattle.mapjson.specs.Written.{list_data, number_data};
ghost use Rattle.mapjson.specs.Pieces.{tokens_of, IsReadBack};

use json::Writer;
use std::alloc::{AllocError, Global};

/// What is written as JSON: the part of a map which states it.
pub(crate) trait WriteJson {
    ghost Part: { Type 0 };

    ghost part: { Self → Part };

    ghost written: { Part → Data };

    ghost named: { Self → Type 0 } = { λ _. ⊤ };

    /// Writes it behind what is written; the texts of its groups state those groups. The one error is out of memory.
    fn write_json(&self, alloc: Global, out: &mut Writer) -> Result<(), AllocError>
        ensures tokens { OnOk result (out.new.tokens ≡ out.old.tokens ++ tokens_of (written (part self.now))) }
        ensures before { out.new.before ≡ out.old.before }
        ensures back { OnOk result (IsReadBack (written (part self.now))) }
        ensures named { OnOk result (named self.now) };
}

/// Writes a whole number.
pub(crate) fn integer(out: &mut Writer, number: i64) -> Result<(), AllocError>
    ensures tokens { OnOk result (out.new.tokens ≡ out.old.tokens ++ tokens_of (number_data number)) }
    ensures before { out.new.before ≡ out.old.before }
    ensures back { OnOk result (IsReadBack (number_data number)) }
{
    out.i64(number)
}

/// Writes a key and a whole number.
pub(crate) fn integer_member(out: &mut Writer, name: &str, number: i64) -> Result<(), AllocError>
    ensures tokens { OnOk result (out.new.tokens
        ≡ out.old.tokens ++ key name.now ∷ tokens_of (number_data number)) }
    ensures before { out.new.before ≡ out.old.before }
    ensures back { OnOk result (IsReadBack (number_data number)) }
{
    out.key(name)?;
    integer(out, number)
}

/// Writes a key and an epoch.
pub(crate) fn epoch_member(out: &mut Writer, name: &str, epoch: u64) -> Result<(), AllocError>
    ensures tokens { OnOk result (out.new.tokens
        ≡ out.old.tokens ++ key name.now ∷ tokens_of (number_data (pos epoch))) }
    ensures before { out.new.before ≡ out.old.before }
    ensures back { OnOk result (IsReadBack (number_data (pos epoch))) }
{
    out.key(name)?;
    out.u64(epoch)
}

/// Writes a key and a word.
pub(crate) fn word_member(out: &mut Writer, name: &str, word: &str) -> Result<(), AllocError>
    ensures tokens { OnOk result (out.new.tokens
        ≡ out.old.tokens ++ key name.now ∷ tokens_of (string word.now)) }
    ensures before { out.new.before ≡ out.old.before }
{
    out.key(name)?;
    out.string(word)
}

/// Writes a key and whether something is so.
pub(crate) fn boolean_member(out: &mut Writer, name: &str, is: bool) -> Result<(), AllocError>
    ensures tokens { OnOk result (out.new.tokens ≡ out.old.tokens ++ key name.now ∷ tokens_of (boolean is)) }
    ensures before { out.new.before ≡ out.old.before }
{
    out.key(name)?;
    out.boolean(is)
}

/// Writes the list of what is written of each entry.
pub(crate) fn list<T: WriteJson>(
    alloc: Global,
    out: &mut Writer,
    entries: &[T],
) -> Result<(), AllocError>
    ensures tokens { OnOk result (out.new.tokens
        ≡ out.old.tokens ++ tokens_of (list_data T.written (map T.part entries.now))) }
    ensures before { out.new.before ≡ out.old.before }
    ensures back { OnOk result (IsReadBack (list_data T.written (map T.part entries.now))) }
    ensures named { OnOk result (All T.named entries.now) }
{
    out.begin_array()?;
    for entry in entries {
        entry.write_json(alloc, out)?;
    }
    out.end_array()
}

/// Writes a key and the list of what is written of each entry.
pub(crate) fn list_member<T: WriteJson>(
    alloc: Global,
    out: &mut Writer,
    name: &str,
    entries: &[T],
) -> Result<(), AllocError>
    ensures tokens { OnOk result (out.new.tokens
        ≡ out.old.tokens ++ key name.now ∷ tokens_of (list_data T.written (map T.part entries.now))) }
    ensures before { out.new.before ≡ out.old.before }
    ensures back { OnOk result (IsReadBack (list_data T.written (map T.part entries.now))) }
    ensures named { OnOk result (All T.named entries.now) }
{
    out.key(name)?;
    list(alloc, out, entries)
}

impl WriteJson for u32 {
    ghost Part = { ℤ };

    ghost part = { pos };

    ghost written = { number_data };

    fn write_json(&self, _alloc: Global, out: &mut Writer) -> Result<(), AllocError> {
        integer(out, i64::from(*self))
    }
}
