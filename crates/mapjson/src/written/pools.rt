//! What is written of pools, and of what they grow to.

ghost use Rattle.mapparts.specs.declared.parts.PoolPart.{PoolPart};
ghost use Rattle.mapparts.specs.declared.parts.GrowPart.{GrowPart};
ghost use Rattle.osdmap.specs.PartsOf.{pool_part};
ghost use Rattle.mapjson.specs.Written.{pool_data};
ghost use Rattle.mapjson.specs.PartsOfChange.{growth_part};
ghost use Rattle.mapjson.specs.WrittenChanges.{growth_data};

use crate::written::forest::use_word;
use crate::written::value::{WriteJson, integer, integer_member, word_member};
use json::Writer;
use maptypes::{Grow, Pool};
use std::alloc::{AllocError, Global};

impl WriteJson for Pool {
    ghost Part = { PoolPart };

    ghost part = { pool_part };

    ghost written = { pool_data };

    #[tactic(auto, unfolding(crate::specs::Written::pool_data))]
    fn write_json(&self, _alloc: Global, out: &mut Writer) -> Result<(), AllocError> {
        out.begin_object()?;
        integer_member(out, "id", i64::from(self.id()))?;
        word_member(out, "kind", use_word(self.kind()))?;
        integer_member(out, "pg_num", i64::from(self.pg_num()))?;
        integer_member(out, "pgp_num", i64::from(self.pgp_num()))?;
        integer_member(out, "rule", i64::from(self.rule()))?;
        integer_member(out, "size", i64::from(self.size()))?;
        out.end_object()
    }
}

impl WriteJson for Grow {
    ghost Part = { GrowPart };

    ghost part = { growth_part };

    ghost written = { growth_data };

    fn write_json(&self, _alloc: Global, out: &mut Writer) -> Result<(), AllocError> {
        out.begin_array()?;
        integer(out, i64::from(self.pool()))?;
        integer(out, i64::from(self.pg_num()))?;
        integer(out, i64::from(self.pgp_num()))?;
        out.end_array()
    }
}
