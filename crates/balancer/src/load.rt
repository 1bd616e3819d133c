//! What OSDs carry beside a pool.

ghost use Rattle.std.specs.Prelude.{◌≡◌};
ghost use Rattle.balancer.specs.Shares.{carried_by};

/// How much more of a pool an OSD counts as having than its groups, in 256ths of a group, and not in groups.
#[derive(Clone, Copy, Debug)]
pub(crate) struct Load {
    pub parts: i32,
}

/// How much more of the pool an OSD counts as having than its groups, of what is asked for each.
pub(crate) fn carried_by(carried: &[i32], osd: u32) -> Load
    ensures { result.parts ≡ carried_by carried.now osd }
{
    match carried.get(osd as usize) {
        Some(parts) => Load { parts: *parts },
        None => Load { parts: 0 },
    }
}
