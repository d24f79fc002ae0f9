//! The way of a data unit that software enciphers.

ghost use Rattle.std.specs.Prelude.{◌≡◌};
ghost use Rattle.bc_disk.specs.Soft.{HasCipherOf, IsCipherOf};

use bc_base::{BLOCK_BYTES, Place, Store};
use bc_bio::Context;
use bc_medium::{Fault, Medium, MediumPass, UnitAt, Via};
use bc_modes::UnitCipher;
use bc_queue::UnitAccess;
use std::marker::Model;
use std::sync::Wait;

/// The way to a medium by software: of each key that goes so the cipher is here.
#[derive(Drop)]
pub(crate) struct SoftAccess<'a, S: Store> {
    medium: &'a Medium<S>,
    ciphers: &'a [Option<UnitCipher>],
}

impl<'a, S: Store> Model for SoftAccess<'a, S> {
    ghost use Rattle.bc_disk.specs.Soft.{SoftData};

    ghost Value = { SoftData S };

    ghost view = { λ a. record { medium = a.medium.now; ciphers = a.ciphers.now } };
}

impl<'a, S: Store> SoftAccess<'a, S> {
    /// The way to this medium by these ciphers.
    pub(crate) fn new(medium: &'a Medium<S>, ciphers: &'a [Option<UnitCipher>]) -> SoftAccess<'a, S>
        ensures { result ≡ record { medium = medium.now; ciphers = ciphers.now } }
    {
        SoftAccess { medium, ciphers }
    }

    /// The cipher of a context's key.
    fn cipher(&self, context: Option<Context>) -> (&UnitCipher, Context)
        requires { HasCipherOf self.now context }
        ensures { IsCipherOf self.now context result.0.now result.1 }
    {
        let Some(context) = context else {
            unreachable!()
        };
        match &self.ciphers[usize::from(context.key.0)] {
            Some(cipher) => (cipher, context),
            None => unreachable!(),
        }
    }
}

impl<'a, S: Store, R: Wait> UnitAccess<R, MediumPass<S>> for SoftAccess<'a, S> {
    ghost use Rattle.bc_medium.specs.declared.via.Via.TheVariants as ways;
    ghost use Rattle.bc_medium.specs.Medium.{Belongs};
    ghost use Rattle.bc_queue.specs.Queues.{facts_by};
    ghost use Rattle.bc_disk.specs.Soft.{TakesSoft};

    ghost facts = { λ a pass. facts_by S.contents a.medium ways.Soft pass };

    ghost is_ready = { λ a pass. Belongs a.medium pass };

    ghost takes = { λ a sector context. TakesSoft S.owns a sector context };

    fn caller(&self, pass: &MediumPass<S>) -> u16 {
        pass.number()
    }

    fn write(
        &mut self,
        rt: &R,
        pass: &mut MediumPass<S>,
        at: &UnitAt,
        plain: Vec<u8>,
    ) -> Result<Place, (Fault, Vec<u8>)> {
        let medium = self.medium;
        let mut scratch = [0; BLOCK_BYTES];
        let text = &mut scratch[..plain.len()];
        text.copy_from_slice(plain.as_slice());
        let (cipher, context) = self.cipher(at.context);
        cipher.encrypt(&context.dun, text);
        medium.write_unit(rt, pass, *at, Via::Soft, plain, text)
    }

    fn read(
        &mut self,
        rt: &R,
        pass: &mut MediumPass<S>,
        at: &UnitAt,
        text: &mut [u8],
    ) -> Result<Place, Fault> {
        match self.medium.read_unit(rt, pass, *at, Via::Soft, text) {
            Ok(place) => {
                let (cipher, context) = self.cipher(at.context);
                cipher.decrypt(&context.dun, text);
                Ok(place)
            }
            Err(fault) => Err(fault),
        }
    }
}
