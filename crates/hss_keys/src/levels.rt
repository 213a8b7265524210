// Levels of trees.

ghost use Rattle.std.specs.Prelude.{◌≡◌, ◌↔◌, ◌<◌, ◌≤◌, List, length, take, All, IsSome, IfSome, IsTrue};
ghost use Rattle.lms_tree.specs.declared.types.Level.{Level};
ghost use Rattle.std.specs.List.{sum_by};
ghost use Rattle.lms_tree.specs.Types.{height};
ghost use Rattle.hss_keys.specs.Levels.{CanSign, IsLevels, capacity};

use lms_tree::{Level, height};
use std::marker::Model;

/// One to three levels of trees of heights 5 and 10, from the top down.
#[derive(Drop)]
pub struct Levels {
    items: [Level; 3],
    count: usize,
}

impl Model for Levels {
    ghost Value = { List Level };

    ghost view = { λ s. take s.count s.items };

    ghost invariant = { λ s. (s.count ≤ 3) × IsLevels (take s.count s.items) };
}

impl Levels {
    /// These levels; `None` exactly where there are none, more than three, or one of another height
    /// than 5 and 10.
    pub fn of(items: &[Level]) -> Option<Levels>
        ensures some { IsSome result ↔ IsLevels items.now }
        ensures value { IfSome result (λ levels. levels ≡ items.now) }
    {
        if items.is_empty() || items.len() > 3 || !all_can_sign(items) {
            return None;
        }
        let mut kept = [items[0]; 3];
        kept[..items.len()].copy_from_slice(items);
        Some(Levels {
            items: kept,
            count: items.len(),
        })
    }

    /// The levels, from the top down.
    pub fn as_slice(&self) -> &[Level]
        ensures value { result.now ≡ self.now }
        ensures levels { IsLevels self.now }
        ensures small { sum_by height self.now ≤ 30 }
    {
        &self.items[..self.count]
    }

    /// How many messages a key over these levels signs: 2 to the sum of the heights.
    #[tactic(auto, using(crate::proofs::CapacityLaws::capacity_pos, crate::proofs::CapacityLaws::capacity_bound))]
    pub fn capacity(&self) -> u64
        ensures value { result ≡ capacity self.now }
        ensures bound { (0 < result) × (result ≤ 1073741824) }
    {
        capacity(self.as_slice())
    }
}

fn can_sign(level: Level) -> bool
    ensures { IsTrue result ↔ CanSign level }
{
    height(level) == 5 || height(level) == 10
}

fn all_can_sign(levels: &[Level]) -> bool
    ensures { IsTrue result ↔ All CanSign levels.now }
{
    levels.iter().all(|level| can_sign(*level))
}

// How many messages the levels sign.
#[tactic(auto, unfolding(crate::specs::Levels::capacity))]
pub(crate) fn capacity(levels: &[Level]) -> u64
    requires { sum_by height levels.now ≤ 30 }
    ensures { result ≡ capacity levels.now }
{
    let bits: usize = levels.iter().map(|level| height(*level)).sum();
    1 << bits
}
