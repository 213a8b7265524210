// Signatures and keys, by the functions that the definitions name.

ghost use Rattle.std.specs.Prelude.{◌≡◌};
ghost use Rattle.hss_keys.specs.Functions.{hss_verifies, flat_index as index_spelled, names_levels as levels_named};

use hss_keys::{Key60, Levels, flat_index, hss_verify, key_laws, names_levels};

/// Whether a signature verifies under a key.
pub(crate) fn verifies(key: &Key60, sig: &[u8], msg: &[u8]) -> bool
    ensures { result ≡ hss_verifies key.now sig.now msg.now }
{
    key_laws();
    hss_verify(key, msg, sig)
}

/// The index that a signature's leaf numbers spell.
pub(crate) fn index_of(levels: &Levels, sig: &[u8]) -> Option<u64>
    ensures { result ≡ index_spelled levels.now sig.now }
{
    key_laws();
    flat_index(levels, sig)
}

/// Whether a key names these levels.
pub(crate) fn is_of_levels(levels: &Levels, key: &Key60) -> bool
    ensures { result ≡ levels_named levels.now key.now }
{
    key_laws();
    names_levels(levels, key)
}
