//! Bios that wait to be carried out together.
ghost use Rattle.std.specs.Prelude.{◌≡◌, ◌==◌, List, ◌+◌, ◌<◌, ◌≤◌, ◌∷◌, ◌++◌, [], length, map, is_err, IfOk, OnOk};
ghost use Rattle.std.specs.Prelude.{OnErr, IfErr, Some, slice_get, vec_len, vec_capacity};
ghost use Rattle.std.specs.Borrow.{Lends, sem};
ghost use Rattle.std.specs.List.{AllByRecursion};
ghost use Rattle.bc_bio.specs.BioUnits.{extent_of};
ghost use Rattle.bc_bio.specs.Chunks.{chunks_and};
ghost use Rattle.bc_bio.specs.Conditions.{IsPlaced};
ghost use Rattle.bc_bio.specs.Windows.{TaggedBio, joins};
ghost use Rattle.bc_bio.specs.Requests.{reply_of, tagged_of, unmarked};
ghost use Rattle.bc_queue.specs.Plugs.{Added, AreRequests, HasReady, IsOfWindow, IsPlug, IsReady, IsWaiting};
ghost use Rattle.bc_queue.specs.Plugs.{StandsApart, bios_in, count_bios, no_bios, tagged_requests, with_request};

use bc_bio::{Bio, Reply, Request};
use bc_key::Keys;
use std::alloc::{AllocError, Global};
use std::marker::Model;

/// How many bios a plug takes.
pub const MAX_PLUGGED: usize = 64;

/// Bios that wait, as requests. It is filled, its requests are carried out one after the other, and it is emptied.
///
/// All calls on one plug are given the same keys, and each of its bios has a key of these and ends below sector 2^32.
#[derive(Drop)]
pub struct Plug {
    requests: Vec<Request>,
    /// Empty requests, of which each has room for all bios of the plug.
    ready: Vec<Request>,
    /// How many bios were plugged.
    count: usize,
}

impl Model for Plug {
    ghost use Rattle.std.specs.Prelude.{vec_capacity};
    ghost use Rattle.bc_queue.specs.Plugs.{PlugParts, HasReady};

    ghost Value = { PlugParts };

    ghost view = { λ p. record { requests = p.requests.items; count = p.count } };

    ghost invariant = { λ p. HasReady p.requests.items p.ready.items (vec_capacity p.requests) (vec_capacity p.ready) };
}

impl Plug {
    ghost use Rattle.bc_bio.specs.contracts.request.Request.{the_row as request_row};
    ghost use Rattle.bc_queue.specs.contracts.plug.Plug.{the_row};

    /// No bios yet, and memory for [`MAX_PLUGGED`] of them.
    ///
    /// # Errors
    ///
    /// Out of memory.
    pub fn new(alloc: Global) -> Result<Plug, AllocError>
        ensures { IfOk result (λ plug. plug ≡ no_bios) }
    {
        Ok(Plug {
            requests: Vec::with_capacity(alloc, MAX_PLUGGED)?,
            ready: ready_requests(alloc)?,
            count: 0,
        })
    }

    /// Plugs a bio: after the last one's request, where it runs on at the back of the last one, and else in a request
    /// of its own. All calls are given equal keys; the bio's key is one of them, and its end is a sector number of 32
    /// bits. Takes no memory.
    ///
    /// # Errors
    ///
    /// The bio, where [`MAX_PLUGGED`] bios are plugged. The plug is then as it was.
    pub fn add(&mut self, keys: &Keys, bio: Bio) -> Result<(), Bio>
        requires plug { IsPlug self.old }
        requires requests { AreRequests keys.now.keys self.old.requests }
        requires placed { IsPlaced keys.now.keys (extent_of bio) }
        ensures full { is_err result ≡ (count_bios self.old.requests == MAX_PLUGGED) }
        ensures back { IfErr result (λ refused. refused ≡ bio) }
        ensures err { OnErr result (self.new ≡ self.old) }
        ensures bios { OnOk result (bios_in self.new.requests ≡ bios_in self.old.requests ++ unmarked bio ∷ []) }
        ensures merges { OnOk result (tagged_requests self.new.requests
            ≡ chunks_and (joins keys.now.keys) (tagged_requests self.old.requests) (tagged_of bio)) }
        ensures window { OnOk result ((window : List TaggedBio) → IsOfWindow keys.now.keys self.old.requests window →
            IsOfWindow keys.now.keys self.new.requests (window ++ tagged_of bio ∷ [])) }
        ensures plug { OnOk result (IsPlug self.new) }
        ensures requests { OnOk result (AreRequests keys.now.keys self.new.requests) }
    {
        if self.count == MAX_PLUGGED {
            return Err(bio);
        }
        put(&mut self.requests, &mut self.ready, keys, bio);
        self.count += 1;
        Ok(())
    }

    /// How many requests there are.
    pub fn requests(&self) -> usize
        ensures { result ≡ length self.now.requests }
    {
        self.requests.len()
    }

    /// Request number `n`, from 0 and less than [`Plug::requests`], lent for carrying it out.
    pub fn request_mut(&mut self, n: usize) -> &mut Request
        requires { n < length self.old.requests }
        ensures* writes_back { sem 𝓛 (Lends the_row request_row self.entry result (with_request n self.old)) }
        ensures value { slice_get self.old.requests n ≡ Some result.now }
    {
        &mut self.requests[n]
    }

    /// Empties the plug into replies, request after request and in order. They go after those that `out` has, which
    /// has room for them.
    pub fn drain(&mut self, out: &mut Vec<Reply>)
        requires plug { IsPlug self.old }
        requires spare { vec_len out.old + count_bios self.old.requests ≤ vec_capacity out.old }
        ensures replies { out.new.items ≡ out.old.items ++ map reply_of (bios_in self.old.requests) }
        ensures room { vec_capacity out.new ≡ vec_capacity out.old }
        ensures empty { self.new ≡ no_bios }
    {
        finish_all(&mut self.requests, &mut self.ready, out);
        self.count = 0;
    }
}

/// As many empty requests as a plug can have, each with room for as many bios.
fn ready_requests(alloc: Global) -> Result<Vec<Request>, AllocError>
    ensures many { IfOk result (λ ready. length ready.items ≡ MAX_PLUGGED) }
    ensures ready { IfOk result (λ ready. AllByRecursion IsReady ready.items) }
    ensures room { IfOk result (λ ready. MAX_PLUGGED ≤ vec_capacity ready) }
{
    let mut ready = Vec::with_capacity(alloc, MAX_PLUGGED)?;
    while ready.len() < MAX_PLUGGED {
        let request = Request::new(alloc, MAX_PLUGGED)?;
        ready.push_reserved(request);
    }
    Ok(ready)
}

/// Puts a bio into the last request, where it runs on at its back, and else into one that is ready.
fn put(requests: &mut Vec<Request>, ready: &mut Vec<Request>, keys: &Keys, bio: Bio)
    requires waiting { AllByRecursion IsWaiting requests.old.items }
    requires requests { AreRequests keys.now.keys requests.old.items }
    requires placed { IsPlaced keys.now.keys (extent_of bio) }
    requires few { count_bios requests.old.items < MAX_PLUGGED }
    requires ready { HasReady requests.old.items ready.old.items (vec_capacity requests.old) (vec_capacity ready.old) }
    ensures added { Added keys.now.keys requests.old.items requests.new.items bio }
    ensures ready { HasReady requests.new.items ready.new.items (vec_capacity requests.new) (vec_capacity ready.new) }
{
    let Err(bio) = join_last(requests, keys, bio) else {
        return;
    };
    let Some(mut request) = ready.pop() else {
        unreachable!()
    };
    request.start(bio);
    requests.push_reserved(request);
}

/// Puts a bio into the last request, where it runs on at its back, and else gives it back.
fn join_last(requests: &mut Vec<Request>, keys: &Keys, bio: Bio) -> Result<(), Bio>
    requires waiting { AllByRecursion IsWaiting requests.old.items }
    requires requests { AreRequests keys.now.keys requests.old.items }
    requires placed { IsPlaced keys.now.keys (extent_of bio) }
    requires few { count_bios requests.old.items < MAX_PLUGGED }
    ensures joined { OnOk result (Added keys.now.keys requests.old.items requests.new.items bio) }
    ensures apart { OnErr result (StandsApart keys.now.keys requests.old.items bio) }
    ensures back { IfErr result (λ refused. refused ≡ bio) }
    ensures err { OnErr result (requests.new.items ≡ requests.old.items) }
    ensures many { length requests.new.items ≡ length requests.old.items }
    ensures room { vec_capacity requests.new ≡ vec_capacity requests.old }
{
    let Some(mut last) = requests.pop() else {
        return Err(bio);
    };
    let joined = last.push_back(keys, bio);
    requests.push_reserved(last);
    joined
}

/// Empties all requests into replies, in order, and puts them to those that are ready.
fn finish_all(requests: &mut Vec<Request>, ready: &mut Vec<Request>, out: &mut Vec<Reply>)
    requires waiting { AllByRecursion IsWaiting requests.old.items }
    requires ready { AllByRecursion IsReady ready.old.items }
    requires room { vec_len requests.old + vec_len ready.old ≤ vec_capacity ready.old }
    requires spare { vec_len out.old + count_bios requests.old.items ≤ vec_capacity out.old }
    ensures replies { out.new.items ≡ out.old.items ++ map reply_of (bios_in requests.old.items) }
    ensures room { vec_capacity out.new ≡ vec_capacity out.old }
    ensures empty { requests.new.items ≡ [] }
    ensures ready { AllByRecursion IsReady ready.new.items }
    ensures many { length ready.new.items ≡ length requests.old.items + length ready.old.items }
    ensures requests_room { vec_capacity requests.new ≡ vec_capacity requests.old }
    ensures ready_room { vec_capacity ready.new ≡ vec_capacity ready.old }
{
    requests.reverse();
    while let Some(mut request) = requests.pop() {
        request.finish(out);
        ready.push_reserved(request);
    }
}
