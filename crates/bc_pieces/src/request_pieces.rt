//! The pieces of a request, one after the other.

ghost use Rattle.std.specs.Prelude.{◌≡◌, List, ◌++◌};
ghost use Rattle.bc_bio.specs.Windows.{IsRequest, NamedUnit};
ghost use Rattle.bc_bio.specs.Requests.{tagged_bios};
ghost use Rattle.bc_pieces.specs.Pieces.{CarriesPieces, GoesByDevices, pieces_in};
ghost use Rattle.bc_pieces.specs.PieceEffects.{AddsByDevice};
ghost use Rattle.bc_pieces.specs.AttemptedRequest.{CarriesWhole};

use crate::DeviceAccess;
use bc_bio::Request;
use bc_key::Keys;
use bc_medium::order_laws;
use bc_profile::hold_laws;
use bc_queue::request_laws;
use bc_stack::Stack;

/// Carries out all data units of a request over the devices on which they lie: cut where the device changes, piece
/// after piece and in order, each under one hold of its key on its own device.
///
/// Each unit lies on a device, has its bytes, and is one that this device takes. The caller has room for the pieces.
pub fn carry_out_pieces<R, P, A: DeviceAccess<R, P>>(
    rt: &R,
    access: &A,
    pass: &mut P,
    stack: &Stack,
    keys: &Keys,
    request: &mut Request,
)
    requires ready { A.is_ready access.now pass.old }
    requires keys { (A.facts access.now pass.old).access.keys ≡ keys.now.keys }
    requires targets { (A.facts access.now pass.old).targets ≡ stack.now.targets }
    requires request { IsRequest keys.now.keys (tagged_bios request.old.bios) }
    requires units { GoesByDevices keys.now.keys stack.now.targets (A.takes access.now) request.old }
    requires room { A.affords access.now pass.old (pieces_in keys.now.keys stack.now.targets request.old) }
    ensures ready { A.is_ready access.now pass.new }
    ensures carries { CarriesPieces A.exact keys.now.keys stack.now.targets (A.facts access.now pass.old)
        (A.facts access.now pass.new) request.old request.new 0
        (pieces_in keys.now.keys stack.now.targets request.old) }
    ensures tells { AddsByDevice (A.facts access.now pass.old) (A.facts access.now pass.new)
        (pieces_in keys.now.keys stack.now.targets request.old) }
    ensures whole { CarriesWhole (A.facts access.now pass.old) (A.facts access.now pass.new) request.old request.new
        (pieces_in keys.now.keys stack.now.targets request.old) }
    ensures bios { tagged_bios request.new.bios ≡ tagged_bios request.old.bios }
    ensures room { (rest : List (List NamedUnit)) →
        A.affords access.now pass.old (pieces_in keys.now.keys stack.now.targets request.old ++ rest) →
        A.affords access.now pass.new rest }
{
    order_laws();
    request_laws();
    hold_laws();
    let units = request.units();
    let mut first = 0;
    while first < units {
        let (device, count) = stack.cut_at_borders(keys, request, first);
        access.carry_out(rt, pass, keys, device, request, first, count);
        first += count;
    }
}
