//! What is written of groups and of their exceptions.

ghost use Rattle.mapparts.specs.declared.parts.ExceptionPart.{ExceptionPart};
ghost use Rattle.mapparts.specs.declared.parts.PairPart.{PairPart};
ghost use Rattle.mapparts.specs.declared.pg_parts.PgParts.{PgParts};
ghost use Rattle.osdmap.specs.PartsOf.{pg_part, pair_part, exception_part};
ghost use Rattle.mapjson.specs.Written.{IsNamed, group_data, pair_data, exception_data};

use crate::written::value::{WriteJson, integer, list};
use json::Writer;
use maptypes::pg_text::group_text_is_read_back;
use maptypes::{Blank, Exception, Pair, Pg};
use std::alloc::{AllocError, Global};

impl WriteJson for Pg {
    ghost Part = { PgParts };

    ghost part = { pg_part };

    ghost written = { group_data };

    ghost named = { λ g. IsNamed (pg_part g) };

    fn write_json(&self, alloc: Global, out: &mut Writer) -> Result<(), AllocError> {
        group_text_is_read_back(self.pool, self.number);
        let text = format!(in alloc; "{}", self)?;
        out.string(&text)
    }
}

impl WriteJson for Pair {
    ghost Part = { PairPart };

    ghost part = { pair_part };

    ghost written = { pair_data };

    fn write_json(&self, _alloc: Global, out: &mut Writer) -> Result<(), AllocError> {
        out.begin_array()?;
        integer(out, i64::from(self.from))?;
        integer(out, i64::from(self.to))?;
        out.end_array()
    }
}

impl<E: WriteJson + Blank> WriteJson for Exception<E> {
    ghost Part = { ExceptionPart E.Part };

    ghost part = { exception_part E.part };

    ghost written = { exception_data E.written };

    ghost named = { λ e. IsNamed (pg_part e.pg) };

    #[tactic(auto, unfolding(crate::specs::Written::exception_data))]
    fn write_json(&self, alloc: Global, out: &mut Writer) -> Result<(), AllocError> {
        out.begin_array()?;
        self.pg.write_json(alloc, out)?;
        list(alloc, out, &self.entries)?;
        out.end_array()
    }
}
