//! What a run did.

ghost use Rattle.std.specs.Prelude.{◌≡◌};

use crate::answer::Answer;
use crate::line::Line;
use bc_base::Items;
use bc_profile::Event;
use std::marker::Model;

/// The report of a run: for each thread the answers of its operations, for each shard its entries
/// in order, and for each device the events of its keyslots in order. It keeps the ranges of the
/// report's text by its type, so each report has one text.
#[derive(Drop)]
pub struct Report {
    threads: Items<Items<Answer>>,
    shards: Items<Items<Line>>,
    devices: Items<Items<Event>>,
}

impl Model for Report {
    ghost use Rattle.bc_report.specs.Report as specs;

    ghost Value = { specs.Report };

    ghost view = { λ r. record { threads = r.threads; shards = r.shards; devices = r.devices } };

    ghost invariant = { λ r. specs.IsReport (record { threads = r.threads; shards = r.shards; devices = r.devices }) };
}

impl Report {
    ghost use Rattle.bc_report.specs.Report as specs;

    /// A report within the ranges of its text: at most 16 threads, 64 shards and 8 devices, and
    /// fewer than 2^32 entries of a shard and events of a device.
    pub fn new(
        threads: Items<Items<Answer>>,
        shards: Items<Items<Line>>,
        devices: Items<Items<Event>>,
    ) -> Report
        requires { specs.IsReport (record { threads = threads; shards = shards; devices = devices }) }
        ensures { result ≡ record { threads = threads; shards = shards; devices = devices } }
    {
        Report {
            threads,
            shards,
            devices,
        }
    }

    /// For each thread the answers of its operations.
    pub fn threads(&self) -> &[Items<Answer>]
        ensures value { result.now ≡ self.now.threads }
        ensures ranges { specs.IsReport self.now }
    {
        self.threads.as_slice()
    }

    /// For each shard its entries, in order.
    pub fn shards(&self) -> &[Items<Line>]
        ensures value { result.now ≡ self.now.shards }
        ensures ranges { specs.IsReport self.now }
    {
        self.shards.as_slice()
    }

    /// For each device the events of its keyslots, in order.
    pub fn devices(&self) -> &[Items<Event>]
        ensures value { result.now ≡ self.now.devices }
        ensures ranges { specs.IsReport self.now }
    {
        self.devices.as_slice()
    }
}
