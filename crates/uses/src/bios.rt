//! A bio that is checked, and cut after its first data unit.
ghost use Rattle.std.specs.Prelude.{◌≡◌, ◌++◌, length, IfOk, IfErr};
ghost use Rattle.bc_bio.specs.BioUnits.{placed_units};
ghost use Rattle.bc_bio.specs.Conditions.{HasKey};

use bc_bio::Bio;
use bc_key::Keys;
use std::alloc::Global;

/// The first data unit of a bio, and the others, each with its sector and number. The context's key is one of `keys`.
///
/// # Errors
/// The bio as it was, where a disk of so many sectors refuses it, where it has one unit alone, or out of memory.
pub fn first_unit(alloc: Global, keys: &Keys, sectors: u32, bio: Bio) -> Result<(Bio, Bio), Bio>
    requires { HasKey keys.now.keys bio.context }
    ensures one { IfOk result (λ parts. length parts.0.units ≡ 1) }
    ensures units { IfOk result (λ parts.
        placed_units keys.now.keys parts.0 ++ placed_units keys.now.keys parts.1 ≡ placed_units keys.now.keys bio) }
    ensures back { IfErr result (λ same. same ≡ bio) }
{
    if bio.check(keys, sectors).is_err() || bio.units.len() < 2 {
        return Err(bio);
    }
    bio.split(alloc, keys, 1)
}
