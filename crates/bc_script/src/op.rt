//! What a section of a script asks for: bios, evictions, resets and plugs.

ghost use Rattle.std.specs.Prelude.{◌≡◌, ◌++◌, [], ◌∷◌, Some, IsSome, OnOk, OnErr};
ghost use Rattle.bc_script.specs.Bios.{bio_of};
ghost use Rattle.bc_script.specs.Script.{context_of, unit_count, open_after};

use bc_base::Items;
use bc_bio::{Access, Context, Extent};
use bc_key::KeyNo;
use std::alloc::AllocError;

/// What a write writes, in all its data units together.
#[derive(Debug, Drop)]
pub enum Text {
    /// This byte throughout, whatever the size of a data unit.
    Fill(u8),
    /// These bytes: all data units, one after the other, of which there is one at least.
    Bytes(Items<u8>),
}

/// One operation of a section. Operations are numbered from 0 in each section, and each has one
/// answer.
#[derive(Debug, Drop)]
pub enum Op {
    /// Writes so many data units from a sector of 512 bytes on, under a key and the number of the
    /// first of them, or in the clear where there is no context.
    Write {
        context: Option<Context>,
        sector: u32,
        units: u32,
        text: Text,
    },
    /// Reads as many.
    Read {
        context: Option<Context>,
        sector: u32,
        units: u32,
    },
    /// Takes the key with this number out of all keyslots.
    Evict(KeyNo),
    /// Has the device with this number, from 0, program its keyslots again.
    Reset(u8),
    /// Opens a plug: the bios that follow are held until it is closed, or full. It is paired with
    /// `Unplug`, in one section.
    Plug,
    /// Closes the plug, and submits the bios that it holds.
    Unplug,
}

impl Op {
    /// The bio that the operation submits; `None` where it submits none. Its sectors are of 512
    /// bytes, its data units of its key's size. What a write writes is no part of it.
    pub fn bio(&self) -> Option<Extent>
        ensures { result ≡ bio_of self.now }
    {
        match self {
            Op::Write {
                context,
                sector,
                units,
                ..
            } => Some(Extent {
                access: Access::Write,
                context: *context,
                sector: *sector,
                units: u64::from(*units),
            }),
            Op::Read {
                context,
                sector,
                units,
            } => Some(Extent {
                access: Access::Read,
                context: *context,
                sector: *sector,
                units: u64::from(*units),
            }),
            _ => None,
        }
    }

    /// The key and number of the operation's bio, if it has one under a key.
    pub fn context(&self) -> Option<Context>
        ensures { result ≡ context_of self.now }
    {
        match self {
            Op::Write { context, .. } => *context,
            Op::Read { context, .. } => *context,
            _ => None,
        }
    }

    /// How many data units the operation's bio has.
    pub(crate) fn units(&self) -> u32
        ensures { result ≡ unit_count self.now }
    {
        match self {
            Op::Write { units, .. } => *units,
            Op::Read { units, .. } => *units,
            _ => 0,
        }
    }

    /// Whether a plug is open after the operation, where one may be open before it.
    pub(crate) fn plugs(&self, plugged: bool) -> bool
        requires { IsSome (open_after plugged (self.now ∷ [])) }
        ensures { open_after plugged (self.now ∷ []) ≡ Some result }
    {
        match self {
            Op::Plug => true,
            Op::Unplug => false,
            _ => plugged,
        }
    }
}

/// Appends an operation. Nothing is appended where there is no memory.
pub(crate) fn add_op(section: &mut Vec<Op>, op: Op) -> Result<(), AllocError>
    ensures ok { OnOk result (section.new.items ≡ section.old.items ++ op ∷ []) }
    ensures err { OnErr result (section.new.items ≡ section.old.items) }
{
    // The checker wants the type of a part of `Op` named where a list of them grows.
    let _context: Option<Context> = op.context();
    section.push(op)?;
    Ok(())
}
