// What a key says of its levels.

ghost use Rattle.std.specs.Prelude.{◌↔◌, IsTrue};
ghost use Rattle.hss_keys.specs.Keys.{NamesLevels};

use crate::flat::is_level_at;
use crate::levels::Levels;
use crate::verifying::Key60;
use lms_ots::u32_at;

/// Tells whether `key` names these levels: it counts them, and has the type codes of the first of
/// them (RFC 8554, 6.1). The key doesn't show the levels below the first one.
pub fn names_levels(levels: &Levels, key: &Key60) -> bool
    ensures { IsTrue result ↔ NamesLevels levels.now key.now }
{
    let levels = levels.as_slice();
    u32_at(key, 0) as usize == levels.len() && is_level_at(key, 4, levels[0])
}
