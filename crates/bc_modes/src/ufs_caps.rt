//! What a controller's crypto engine can do, as UFSHCI's capability registers tell it.
ghost use Rattle.std.specs.Prelude.{◌≡◌, ◌<◌, ◌≤◌, length, position, slice_get, is_some, IfSome};
ghost use Rattle.bc_key.specs.declared.config.Config.{Config};
ghost use Rattle.bc_key.specs.declared.config.DataUnit.{DataUnit};
ghost use Rattle.bc_key.specs.declared.config.Mode.{Mode};
ghost use Rattle.bc_key.specs.DataUnits.{bit_of};
ghost use Rattle.bc_key.specs.Support.{has_bits, has_unit, supports};
ghost use Rattle.bc_modes.specs.Capabilities.{algorithm_id, capabilities_of, index_for, is_supported, key_size_code, serves};
ghost use Rattle.bc_modes.specs.Entries.{served_unit};

use arrayvec::ArrayVec;
use bc_base::SECTOR_BYTES;
use bc_key::{Caps, Config, DataUnit, Mode};
use std::marker::Model;

/// How many modes there are, each with a capability at most.
const MODES: usize = 2;

/// One capability: a mode, and the data units that it can be used with.
#[derive(Clone, Copy, Debug, PartialEq, Eq)]
pub struct Capability {
    pub mode: Mode,
    /// A mask of data units, of which [`DataUnit::bit`] gives the bits.
    pub units: u8,
}

/// A capability without data units, as it stands in the unused places of a list.
impl Default for Capability {
    ghost use Rattle.bc_key.specs.declared.config.Mode.TheVariants.{Aes256Xts};

    ghost is_default = { λ capability. (capability.mode ≡ Aes256Xts) × (capability.units ≡ 0) };

    fn default() -> Capability {
        Capability {
            mode: Mode::Aes256Xts,
            units: 0,
        }
    }
}

impl Capability {
    /// The id of its algorithm: 0 for AES-XTS, 3 for ESSIV-AES-CBC.
    pub fn algorithm_id(&self) -> u8
        ensures { result ≡ algorithm_id self.now.mode }
    {
        match self.mode {
            Mode::Aes256Xts => 0,
            Mode::Aes128CbcEssiv => 3,
        }
    }

    /// The code of its key's size: 3 for 256 bits, 1 for 128 bits.
    pub fn key_size_code(&self) -> u8
        ensures { result ≡ key_size_code self.now.mode }
    {
        match self.mode {
            Mode::Aes256Xts => 3,
            Mode::Aes128CbcEssiv => 1,
        }
    }

    /// Whether it is of the mode and has the data unit.
    pub(crate) fn serves(&self, mode: Mode, unit: DataUnit) -> bool
        ensures { result ≡ serves mode unit self.now }
    {
        self.mode == mode && self.has_unit(unit)
    }

    /// Whether its mask has the data unit's bit.
    fn has_unit(&self, unit: DataUnit) -> bool
        ensures { result ≡ has_bits self.now.units (bit_of unit) }
    {
        self.units & unit.bit() == unit.bit()
    }

    /// The data unit of so many sectors of 512 bytes, if there is one and the capability has it.
    pub(crate) fn served_unit(&self, sectors: u8) -> Option<DataUnit>
        ensures { result ≡ served_unit self.now sectors }
    {
        let unit = DataUnit::of_bytes(SECTOR_BYTES as u32 * u32::from(sectors))?;
        if self.has_unit(unit) {
            Some(unit)
        } else {
            None
        }
    }
}

/// The capabilities of a controller, by their indexes, and how many bytes a data unit number may
/// have.
#[derive(Drop)]
pub struct UfsCaps {
    capabilities: ArrayVec<Capability, MODES>,
    max_dun_bytes: u8,
}

impl Model for UfsCaps {
    ghost use Rattle.std.specs.Prelude.{◌≤◌, length};
    ghost use Rattle.bc_modes.specs.Capabilities.{Capabilities};

    ghost Value = { Capabilities };

    ghost view = { λ caps. record { list = caps.capabilities.items; max_dun_bytes = caps.max_dun_bytes } };

    ghost invariant = { λ caps. length caps.capabilities.items ≤ 2 };
}

impl UfsCaps {
    /// The capabilities of a controller that supports what the set says: AES-256-XTS first, and no
    /// mode without data units.
    pub fn of(caps: &Caps) -> UfsCaps
        ensures list { result ≡ capabilities_of caps.now }
        ensures serves_the_same { (mode : Mode) (unit : DataUnit) →
            is_some (index_for result mode unit) ≡ has_unit caps.now mode unit }
        ensures supports_the_same { (config : Config) → is_supported result config ≡ supports caps.now config }
    {
        let mut capabilities = ArrayVec::new();
        if caps.xts != 0 {
            capabilities.push(Capability {
                mode: Mode::Aes256Xts,
                units: caps.xts,
            });
        }
        if caps.essiv != 0 {
            capabilities.push(Capability {
                mode: Mode::Aes128CbcEssiv,
                units: caps.essiv,
            });
        }
        UfsCaps {
            capabilities,
            max_dun_bytes: caps.max_dun_bytes,
        }
    }

    /// Whether a key with this configuration can be used: a capability serves its mode and data
    /// unit, and its numbers have few enough bytes.
    pub fn supports(&self, config: &Config) -> bool
        ensures { result ≡ is_supported self.now config.now }
    {
        self.index_for(config.mode, config.unit).is_some() && config.dun_bytes <= self.max_dun_bytes
    }

    /// The capabilities, each at its index: 0 to 2 of them.
    pub fn capabilities(&self) -> &[Capability]
        ensures list { result.now ≡ self.now.list }
        ensures few { length result.now ≤ 2 }
    {
        self.capabilities.as_slice()
    }

    /// The index of the first capability that is of the mode and has the data unit, if one does.
    pub(crate) fn index_for(&self, mode: Mode, unit: DataUnit) -> Option<u8>
        ensures index { result ≡ index_for self.now mode unit }
        ensures within { IfSome result (λ index. index < 2) }
    {
        match place_for(self.capabilities.as_slice(), mode, unit) {
            Some(place) => Some(place as u8),
            None => None,
        }
    }

    /// The capability at an index, if there is one.
    pub(crate) fn capability(&self, index: u8) -> Option<Capability>
        ensures { result ≡ slice_get self.now.list index }
    {
        self.capabilities.get(usize::from(index)).copied()
    }
}

/// The place of the first capability that is of the mode and has the data unit, if one does.
fn place_for(capabilities: &[Capability], mode: Mode, unit: DataUnit) -> Option<usize>
    ensures place { result ≡ position (serves mode unit) capabilities.now }
    ensures within { IfSome result (λ place. place < length capabilities.now) }
{
    capabilities
        .iter()
        .position(|capability| capability.serves(mode, unit))
}
