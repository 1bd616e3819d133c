//! What is written of a change.

ghost use Rattle.std.specs.Prelude.{◌≡◌, ◌++◌, OnOk, option_map};
ghost use Rattle.mapparts.specs.declared.change.ReweightPart.{ReweightPart};
ghost use Rattle.mapjson.specs.PartsOfChange.{crush_parts, reweight_part, change_parts};
ghost use Rattle.mapjson.specs.WrittenChanges.{reweight_data, crush_member, first_members, last_members, change_data, HasNamed};
ghost use Rattle.mapjson.specs.Pieces.{tokens_of, member_tokens, IsReadBack, AreReadBack};

use crate::written::value::{WriteJson, epoch_member, integer, list_member};
use json::Writer;
use maptypes::{ChangeParts, CrushMap, Reweight};
use std::alloc::{AllocError, Global};

impl WriteJson for Reweight {
    ghost Part = { ReweightPart };

    ghost part = { reweight_part };

    ghost written = { reweight_data };

    fn write_json(&self, _alloc: Global, out: &mut Writer) -> Result<(), AllocError> {
        out.begin_array()?;
        integer(out, i64::from(self.osd))?;
        integer(out, i64::from(self.weight))?;
        out.end_array()
    }
}

/// Writes the members before that of a CRUSH map.
fn first_members(
    alloc: Global,
    out: &mut Writer,
    base: u64,
    parts: &ChangeParts,
) -> Result<(), AllocError>
    ensures tokens { OnOk result (out.new.tokens
        ≡ out.old.tokens ++ member_tokens (first_members (change_parts base parts.now))) }
    ensures before { out.new.before ≡ out.old.before }
    ensures back { OnOk result (AreReadBack (first_members (change_parts base parts.now))) }
{
    epoch_member(out, "base", base)?;
    list_member(alloc, out, "down", &parts.osds.down)?;
    list_member(alloc, out, "grow_pool", &parts.pools.grow)
}

/// Writes the member of a CRUSH map, where there is one.
fn crush_member(alloc: Global, out: &mut Writer, crush: &Option<CrushMap>) -> Result<(), AllocError>
    ensures tokens { OnOk result (out.new.tokens
        ≡ out.old.tokens ++ member_tokens (crush_member (option_map crush_parts crush.now))) }
    ensures before { out.new.before ≡ out.old.before }
    ensures back { OnOk result (AreReadBack (crush_member (option_map crush_parts crush.now))) }
{
    let Some(crush) = crush else {
        return Ok(());
    };
    out.key("new_crush")?;
    crush.write_json(alloc, out)
}

/// Writes the members behind it.
fn last_members(alloc: Global, out: &mut Writer, parts: &ChangeParts) -> Result<(), AllocError>
    ensures tokens { OnOk result (out.new.tokens
        ≡ out.old.tokens ++ member_tokens (last_members (change_parts 0 parts.now))) }
    ensures before { out.new.before ≡ out.old.before }
    ensures back { OnOk result (AreReadBack (last_members (change_parts 0 parts.now))) }
    ensures named { OnOk result (HasNamed (change_parts 0 parts.now)) }
{
    list_member(alloc, out, "new_items", &parts.items.come)?;
    list_member(alloc, out, "new_pools", &parts.pools.come)?;
    list_member(alloc, out, "new_upmap", &parts.explicit.come)?;
    list_member(alloc, out, "old_items", &parts.items.gone)?;
    list_member(alloc, out, "old_pools", &parts.pools.gone)?;
    list_member(alloc, out, "old_upmap", &parts.explicit.gone)?;
    list_member(alloc, out, "up", &parts.osds.up)?;
    list_member(alloc, out, "weight", &parts.weights)
}

/// Writes a change with its base: each list, and the CRUSH map where there is one.
#[tactic(auto, unfolding(crate::specs::WrittenChanges::change_data))]
pub(crate) fn write_parts(
    alloc: Global,
    out: &mut Writer,
    base: u64,
    parts: &ChangeParts,
) -> Result<(), AllocError>
    ensures tokens { OnOk result (out.new.tokens
        ≡ out.old.tokens ++ tokens_of (change_data (change_parts base parts.now))) }
    ensures before { out.new.before ≡ out.old.before }
    ensures back { OnOk result (IsReadBack (change_data (change_parts base parts.now))) }
    ensures named { OnOk result (HasNamed (change_parts base parts.now)) }
{
    out.begin_object()?;
    first_members(alloc, out, base, parts)?;
    crush_member(alloc, out, &parts.crush)?;
    last_members(alloc, out, parts)?;
    out.end_object()
}
