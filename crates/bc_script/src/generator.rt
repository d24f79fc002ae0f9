//! The script that `make N` carries out.
//!
//! Sixteen threads write data units under three keys, and each reads back what it wrote. A thread
//! keeps to 64 blocks of its own, so every answer is the same in whatever order the threads run.

ghost use Rattle.std.specs.Prelude.{◌≡◌, ◌++◌, ◌<◌, ◌≤◌, None, IsTrue, IfOk, OnOk, [], ◌∷◌, map};
ghost use Rattle.std.specs.List.{range_with_len};
ghost use Rattle.bc_key.specs.DataUnits.{bytes_of};
ghost use Rattle.bc_key.specs.KeyRefusal.{key_refusal};
ghost use Rattle.bc_key.specs.KeyData.{key_size};
ghost use Rattle.bc_script.specs.Script.{max_slots, max_generated};
ghost use Rattle.bc_script.specs.Name.{is_name};
ghost use Rattle.bc_script.specs.GeneratedScript.{generated, generated_threads, generated_device, generated_keys, counted_key, generated_context, generated_sector, generated_byte, generated_write, generated_read, generated_pair, generated_section};

use crate::limits::MAX_THREADS;
use crate::name::Name;
use crate::named_key::NamedKey;
use crate::op::{Op, Text, add_op};
use crate::script::Script;
use bc_base::{BLOCK_SECTORS, Items};
use bc_bio::Context;
use bc_key::{Caps, DataUnit, Dun, Key, KeyNo, Mode};
use bc_stack::Target;
use std::alloc::{AllocError, Global};

/// How many blocks of 4096 bytes the disk has.
const BLOCKS: u32 = 1024;

/// How many blocks of them each thread has.
const THREAD_BLOCKS: u32 = BLOCKS / MAX_THREADS as u32;

/// How many bytes the numbers of data units may have.
const NUMBER_BYTES: u8 = 8;

/// The script of `make`: a disk of 1024 blocks on one device with so many keyslots, three keys, and
/// sixteen threads. Each thread writes a data unit and reads it back, `n` times.
///
/// # Errors
///
/// `AllocError` where there is no memory for the script.
#[tactic(auto, using(crate::proofs::GeneratedRules::parts_are))]
pub fn generate(alloc: Global, n: u32, slots: u16) -> Result<Script, AllocError>
    requires n { (1 ≤ n) × (n ≤ max_generated) }
    requires slots { (1 ≤ slots) × (slots ≤ max_slots) }
    ensures script { IfOk result (λ script. script ≡ generated n slots) }
{
    let targets = devices(alloc, slots)?;
    let keys = keys(alloc)?;
    let threads = sections(alloc, n)?;
    Ok(Script::new(
        BLOCKS,
        true,
        Items::from_vec(targets),
        Items::from_vec(keys),
        Items::new(alloc),
        Items::from_vec(threads),
    ))
}

/// The one device. It has the whole disk, and supports XTS alone, with data units of 512 and 4096
/// bytes.
fn devices(alloc: Global, slots: u16) -> Result<Vec<Target>, AllocError>
    ensures { IfOk result (λ devices. devices.items ≡ generated_device slots ∷ []) }
{
    let caps = Caps {
        xts: DataUnit::Bytes512.bit() | DataUnit::Bytes4096.bit(),
        essiv: 0,
        max_dun_bytes: NUMBER_BYTES,
    };
    let mut devices = Vec::new(alloc);
    devices.push(Target {
        first: 0,
        blocks: BLOCKS,
        slots,
        caps,
    })?;
    Ok(devices)
}

/// The three keys.
fn keys(alloc: Global) -> Result<Vec<NamedKey>, AllocError>
    ensures { IfOk result (λ keys. keys.items ≡ generated_keys) }
{
    let mut keys = Vec::new(alloc);
    keys.push(named(b"a", Mode::Aes256Xts, DataUnit::Bytes4096, 0x00))?;
    keys.push(named(b"b", Mode::Aes256Xts, DataUnit::Bytes512, 0x40))?;
    keys.push(named(b"c", Mode::Aes128CbcEssiv, DataUnit::Bytes4096, 0x80))?;
    Ok(keys)
}

/// A key whose bytes count up from `first`, under a name.
fn named(name: &[u8], mode: Mode, unit: DataUnit, first: u8) -> NamedKey
    requires name { IsTrue (is_name name.now) }
    requires first { first ≤ 128 }
    requires valid { key_refusal mode (range_with_len first (key_size mode)) (bytes_of unit) 8 ≡ None }
    ensures { result ≡ record { name = name.now; key = counted_key mode unit first } }
{
    let Some(name) = Name::of(name) else {
        unreachable!()
    };
    let raw = counted_bytes(first);
    let Ok(key) = Key::new(mode, &raw[..mode.key_size()], unit.bytes(), NUMBER_BYTES) else {
        unreachable!()
    };
    NamedKey { name, key }
}

/// Bytes that count up from `first`.
#[tactic(auto, using(crate::proofs::GeneratedLoops::all_bytes))]
fn counted_bytes(first: u8) -> [u8; 64]
    requires { first ≤ 128 }
    ensures { result ≡ range_with_len first 64 }
{
    let mut bytes = [0; 64];
    for i in 0..64 {
        bytes[i] = first + i as u8;
    }
    bytes
}

/// The sections of all threads.
#[tactic(auto, using(crate::proofs::GeneratedLoops::section_more))]
fn sections(alloc: Global, n: u32) -> Result<Vec<Items<Op>>, AllocError>
    requires { n ≤ max_generated }
    ensures { IfOk result (λ sections.
        sections.items ≡ map (generated_section n) (range_with_len 0 generated_threads)) }
{
    let mut sections = Vec::new(alloc);
    for thread in 0..MAX_THREADS as u32 {
        sections.push(Items::from_vec(section(alloc, n, thread)?))?;
    }
    Ok(sections)
}

/// The section of one thread.
#[tactic(auto, using(crate::proofs::GeneratedLoops::pair_more))]
fn section(alloc: Global, n: u32, thread: u32) -> Result<Vec<Op>, AllocError>
    requires n { n ≤ max_generated }
    requires thread { thread < generated_threads }
    ensures { IfOk result (λ section. section.items ≡ generated_section n thread) }
{
    let mut section = Vec::new(alloc);
    for j in 0..n {
        add_pair(&mut section, n, thread, j)?;
    }
    Ok(section)
}

/// Appends a thread's pair `j` of a write and a read.
fn add_pair(section: &mut Vec<Op>, n: u32, thread: u32, j: u32) -> Result<(), AllocError>
    requires n { n ≤ max_generated }
    requires thread { thread < generated_threads }
    requires j { j < n }
    ensures { OnOk result (section.new.items ≡ section.old.items ++ generated_pair n thread j) }
{
    add_op(section, write(n, thread, j))?;
    add_op(section, read(n, thread, j))
}

/// The write of a thread's pair `j`.
fn write(n: u32, thread: u32, j: u32) -> Op
    requires n { n ≤ max_generated }
    requires thread { thread < generated_threads }
    requires j { j < n }
    ensures { result ≡ generated_write n thread j }
{
    Op::Write {
        context: Some(context(thread, j)),
        sector: sector(n, thread, j),
        units: 1,
        text: Text::Fill(byte(thread, j)),
    }
}

/// The read of a thread's pair `j`.
fn read(n: u32, thread: u32, j: u32) -> Op
    requires n { n ≤ max_generated }
    requires thread { thread < generated_threads }
    requires j { j < n }
    ensures { result ≡ generated_read n thread j }
{
    Op::Read {
        context: Some(context(thread, j)),
        sector: sector(n, thread, j),
        units: 1,
    }
}

/// The byte that a thread's pair `j` writes.
fn byte(thread: u32, j: u32) -> u8
    requires thread { thread < generated_threads }
    requires j { j < max_generated }
    ensures { result ≡ generated_byte thread j }
{
    ((16 * thread + j) % 256) as u8
}

/// The key of a thread's pair `j`, and the number of its data unit.
fn context(thread: u32, j: u32) -> Context
    requires thread { thread < generated_threads }
    requires j { j < max_generated }
    ensures { result ≡ generated_context thread j }
{
    Context {
        key: KeyNo(((thread + j) % 3) as u16),
        dun: Dun::from_words([u64::from(j), 0, 0, 0]),
    }
}

/// The first sector of a thread's pair `j`: it begins one of the thread's blocks.
fn sector(n: u32, thread: u32, j: u32) -> u32
    requires n { n ≤ max_generated }
    requires thread { thread < generated_threads }
    requires j { j < n }
    ensures { result ≡ generated_sector n thread j }
{
    BLOCK_SECTORS * (THREAD_BLOCKS * thread + (7 * j + n) % THREAD_BLOCKS)
}
