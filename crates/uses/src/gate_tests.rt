//! How often a section passes the gate, where a plug's bios run on across the border of two devices.
use bc_base::{Gate, GatePlace, MemFolder, MemSink, MemSource};
use bc_run::{Status, run};
use std::alloc::Global;
use std::sync::Wait;
use std::sync::atomic::{AtomicU64, Ordering};
use std::test::Fail;
use std::thread::Threads;

const OPERATIONS: usize = 5;

/// Where an operation passes the gate: it starts, has a hold on device 0, has one on device 1, is answered.
const PLACES: usize = 4;

/// A gate that counts how often each operation passes it at each place.
#[derive(Drop)]
struct CountingGate {
    counts: [AtomicU64; PLACES * OPERATIONS],
}

impl CountingGate {
    /// No operation has passed it.
    fn new() -> CountingGate {
        let counts = [
            AtomicU64::new(0),
            AtomicU64::new(0),
            AtomicU64::new(0),
            AtomicU64::new(0),
            AtomicU64::new(0),
            AtomicU64::new(0),
            AtomicU64::new(0),
            AtomicU64::new(0),
            AtomicU64::new(0),
            AtomicU64::new(0),
            AtomicU64::new(0),
            AtomicU64::new(0),
            AtomicU64::new(0),
            AtomicU64::new(0),
            AtomicU64::new(0),
            AtomicU64::new(0),
            AtomicU64::new(0),
            AtomicU64::new(0),
            AtomicU64::new(0),
            AtomicU64::new(0),
        ];
        CountingGate { counts }
    }

    /// How often each operation has passed it, place after place.
    fn counted(&self) -> [u64; PLACES * OPERATIONS] {
        let mut counted = [0; PLACES * OPERATIONS];
        for (count, place) in counted.iter_mut().zip(&self.counts) {
            *count = place.load(Ordering::SeqCst);
        }
        counted
    }
}

impl Gate for CountingGate {
    fn pass<R: Wait>(&self, _rt: &R, _thread: u16, tag: u32, place: GatePlace) {
        let place = match place {
            GatePlace::Starts => 0,
            GatePlace::Holds { device: 0, .. } => 1,
            GatePlace::Holds { .. } => 2,
            GatePlace::Answered => 3,
        };
        if (tag as usize) < OPERATIONS {
            self.counts[PLACES * tag as usize + place].fetch_add(1, Ordering::SeqCst);
        }
    }
}

/// What `threads` writes of a script, and how often each of its operations passed the gate.
fn counted<R: Threads + Wait + Sync>(
    rt: &R,
    alloc: Global,
    text: &[u8],
) -> Result<(MemSink, [u64; PLACES * OPERATIONS]), Fail> {
    let mut words = Vec::new(alloc);
    words.push(String::from_str(alloc, "threads")?)?;
    let mut script = MemSource::new(text.to_vec(alloc)?, 4096, Vec::new(alloc));
    let mut out = MemSink::new(alloc, 4096, 4096, Vec::new(alloc))?;
    let mut folder = MemFolder::new(alloc, Vec::new(alloc));
    let gate = CountingGate::new();
    if run(rt, alloc, &words, &mut script, &mut out, &mut folder, &gate) != Status::Ok {
        return Err("the run has no report".into());
    }
    Ok((out, gate.counted()))
}

/// The second bio of the plug has data units on both devices. Its first one fails, so that none of the piece on device 1
/// is carried out; the piece has its hold all the same.
const ACROSS: &[u8] = b"blkcrypt 1\ndisk 2\nfallback off\ndevice 0 1 1 1 0 8\ndevice 1 1 1 1 0 8\n\
    key a aes-256-xts 512 8 \
    000102030405060708090a0b0c0d0e0f101112131415161718191a1b1c1d1e1f\
    202122232425262728292a2b2c2d2e2f303132333435363738393a3b3c3d3e3f\n\
    fault 0 2\n\
    thread\nplug\nwrite a 4 2 4 fill 11\nwrite a 6 4 6 fill 22\nunplug\nread a 4 2 4\nend\n";

#[test]
fn a_request_over_two_devices_passes_the_gate_with_each_hold(rt: HostRuntime) -> Result<(), Fail> {
    let (out, counts) = counted(&rt, rt.alloc(), ACROSS)?;
    let report: &[u8] = b"report 1\nthread 0\nplug\ndone\nfault 0\nunplug\ndone fill 11\n\
        shard 0 5\n0 1 0 inline 0 0 0\n0 1 1 inline 0 0 0\n0 2 0 inline 0 0 0\n0 4 0 inline 0 0 0\n0 4 1 inline 0 0 0\n\
        device 0 3\nprogram 0 0\nidle 0\nidle 0\ndevice 1 2\nprogram 0 0\nidle 0\nend\n";
    assert_eq!(rt; out.held(), report);
    // the plug, its two bios, the end of the plug, the read
    let expected = [
        1, 0, 0, 1, //
        1, 1, 0, 1, //
        1, 0, 1, 1, //
        1, 0, 0, 1, //
        1, 1, 0, 1,
    ];
    assert_eq!(rt; counts, expected);
    Ok(())
}
