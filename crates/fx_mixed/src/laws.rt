//! What may be believed of packed words.

ghost use Rattle.fx_mixed.specs.Packed.{PackedLaw, PlaceLaw, AgainLaw};

use fx_statements::wrapped_law;

/// Words in their widths are read as they were packed.
pub fn packed_law()
    ensures { PackedLaw }
{
    wrapped_law();
}

/// A word stands at its place, and what is written there changes no other.
pub fn place_law()
    ensures { PlaceLaw }
{
    wrapped_law();
}

/// Bytes that are read as words are those of the words, packed again.
pub fn again_law()
    ensures { AgainLaw }
{
    wrapped_law();
}
