//! Rules under their ids.

use crush::Rule;
use keylist::Keyed;

/// A rule of a map, under its id.
#[derive(Debug, Drop)]
pub struct NumberedRule {
    /// 0 to 255.
    pub id: u32,
    /// What places the groups of a pool.
    pub rule: Rule,
}

impl Keyed for NumberedRule {
    ghost key_of = { λ rule. rule.id };

    fn key(&self) -> u64 {
        u64::from(self.id)
    }
}
