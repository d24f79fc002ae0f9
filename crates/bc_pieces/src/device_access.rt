//! A caller's way to the devices of a disk, one piece of a request at a time.

ghost use Rattle.std.specs.Prelude.{◌≡◌, ℕ, ◌+◌, ◌<◌, ◌≤◌, ◌∷◌, List, length, Option};
ghost use Rattle.bc_bio.specs.declared.context.Context.{Context};
ghost use Rattle.bc_bio.specs.Windows.{IsRequest, NamedUnit, count_units};
ghost use Rattle.bc_bio.specs.Requests.{tagged_bios};
ghost use Rattle.bc_queue.specs.Carrying.{ArePerformable};
ghost use Rattle.bc_pieces.specs.Pieces.{CarriesPiece, DeviceFacts, IsOnDevice, piece_part};

use bc_bio::Request;
use bc_key::Keys;

/// A caller's way to the devices of a disk: it carries out a piece of a request by one of them. `R` is what it waits
/// with, and `P` what the caller takes along. [`carry_out_pieces`](crate::carry_out_pieces) goes over the pieces of a
/// request by it. A way of many callers waits for the others; a way of one caller waits for nobody.
pub trait DeviceAccess<R, P> {
    /// What contracts see of it: the disk and its devices, the caller's number, and what the caller has seen.
    ghost facts: { Self → P → DeviceFacts };

    /// The pass is one of this way, in the state that the calls keep.
    ghost is_ready: { Self → P → Type 0 };

    /// A device takes a unit at this sector under this context.
    ghost takes: { Self → ℕ → ℕ → Option Context → Type 0 };

    /// The caller has room for the entries and the events of these pieces.
    ghost affords: { Self → P → List (List NamedUnit) → Type 0 };

    /// What this way tells of a piece besides: of one caller, which events and entries it makes. Of many it tells
    /// nothing.
    ghost exact: { DeviceFacts → DeviceFacts → ℕ → List NamedUnit → Type 0 };

    /// Carries out `count` data units of a request from number `first` on, one at least, by the device on which they
    /// lie: under one hold of their key, which is taken also where all of them are passed over.
    fn carry_out(
        &self,
        rt: &R,
        pass: &mut P,
        keys: &Keys,
        device: u8,
        request: &mut Request,
        first: u32,
        count: u32,
    )
        requires ready { is_ready self.now pass.old }
        requires keys { (facts self.now pass.old).access.keys ≡ keys.now.keys }
        requires device { device < length (facts self.now pass.old).targets }
        requires request { IsRequest keys.now.keys (tagged_bios request.old.bios) }
        requires some { 1 ≤ count }
        requires within { first + count ≤ count_units (tagged_bios request.old.bios) }
        requires on_device { (n : ℕ) → first ≤ n → n < first + count →
            IsOnDevice keys.now.keys (facts self.now pass.old).targets request.old n device }
        requires units { ArePerformable keys.now.keys (takes self.now device) request.old.bios first count }
        requires room { (rest : List (List NamedUnit)) ×
            affords self.now pass.old (piece_part keys.now.keys request.old first count ∷ rest) }
        ensures ready { is_ready self.now pass.new }
        ensures carries { CarriesPiece (facts self.now pass.old) (facts self.now pass.new) request.old request.new first
            device count }
        ensures room { (rest : List (List NamedUnit)) →
            affords self.now pass.old (piece_part keys.now.keys request.old first count ∷ rest) →
            affords self.now pass.new rest }
        ensures exact { exact (facts self.now pass.old) (facts self.now pass.new) device
            (piece_part keys.now.keys request.old first count) };
}
