//! What is known of a shard since opening.

ghost use Rattle.std.specs.Prelude.{◌≡◌};

use bc_key::Keys;
use std::marker::Model;
use std::snapshot::Snapshot;

/// The store, the keys and the quotas by caller at opening. It has no bytes.
#[derive(Drop)]
pub struct Opening<S> {
    store: Snapshot<S>,
    keys: Snapshot<Keys>,
    quotas: Snapshot<Vec<u32>>,
}

impl<S> Model for Opening<S> {
    ghost use Rattle.bc_medium.specs.Medium.{OpeningData};

    ghost Value = { OpeningData S };

    ghost view = { λ o. record { store = o.store.value; keys = o.keys.value.keys; quotas = o.quotas.value.items } };
}

impl<S> Opening<S> {
    /// Of these.
    pub(crate) fn of(store: &S, keys: &Keys, quotas: &Vec<u32>) -> Opening<S>
        ensures { result ≡ record { store = store.now; keys = keys.now.keys; quotas = quotas.now.items } }
    {
        Opening {
            store: Snapshot::of(store),
            keys: Snapshot::of(keys),
            quotas: Snapshot::of(quotas),
        }
    }
}
