//! Measurements.
use crate::direction::Direction;
use crate::{scripts, units};
use anyhow::Result;
use bc_key::{DataUnit, Mode};
use bc_modes::UnitCipher;
use sha2::{Digest, Sha256};
use std::alloc::Global;
use std::hint::black_box;
use std::rt::Clock;
use std::time::{Duration, Instant};

/// How often a text is parsed and printed.
pub const TIMES: u32 = 5;

/// The key of all measurements: the bytes 00 to 3f, of which ESSIV takes the first 16.
fn key() -> [u8; 64] {
    let mut key = [0; 64];
    for i in 0..64 {
        key[i] = i as u8;
    }
    key
}

/// The work in a microsecond, which is in millions a second.
pub fn a_microsecond(work: u64, took: Duration) -> u64 {
    let micros = took.as_micros().max(1);
    (u128::from(work) / micros) as u64
}

/// Prints a digest.
fn print_digest(rt: &impl Print, alloc: Global, what: &str, digest: &[u8; 32]) -> Result<()> {
    let digits = hex::encode(alloc, digest)?;
    println!(rt; "{what} sha256 {digits}")?;
    Ok(())
}

/// Prints how fast units of this size go this way, in MB (millions of bytes) a second, and the digest of what comes out.
pub fn speed(
    rt: &(impl Print + Clock),
    alloc: Global,
    way: Direction,
    mode: Mode,
    unit: DataUnit,
    units: u32,
) -> Result<()> {
    let size = unit.bytes() as usize;
    let mut texts = units::texts(alloc, units as usize * size)?;
    let cipher = UnitCipher::of_parts(mode, unit, &key());
    let start = Instant::now(rt)?;
    units::carry_units(way, &cipher, texts.as_mut_slice(), size, units as usize);
    let took = start.elapsed(rt)?;
    let rate = a_microsecond(texts.len() as u64, took);
    println!(rt; "{way:?} {mode:?} {size}: {rate} MB/s")?;
    print_digest(rt, alloc, "out", &Sha256::digest(texts.as_slice()))
}

/// Prints the digests of the units enciphered, and of the same units deciphered.
pub fn digests(
    rt: &impl Print,
    alloc: Global,
    mode: Mode,
    unit: DataUnit,
    units: u32,
) -> Result<()> {
    let size = unit.bytes() as usize;
    let cipher = UnitCipher::of_parts(mode, unit, &key());
    let enciphered = units::digest(alloc, Direction::Encrypt, &cipher, size, units)?;
    print_digest(rt, alloc, "enciphered", &enciphered)?;
    let deciphered = units::digest(alloc, Direction::Decrypt, &cipher, size, units)?;
    print_digest(rt, alloc, "deciphered", &deciphered)
}

/// Prints how many thousand keys are expanded in a second.
pub fn expansions(rt: &(impl Print + Clock), mode: Mode, keys: u32) -> Result<()> {
    let mut raw = key();
    let start = Instant::now(rt)?;
    for i in 0..keys {
        raw[0] = (i & 0xff) as u8;
        drop(black_box(UnitCipher::of_parts(mode, DataUnit::Bytes4096, black_box(&raw))));
    }
    let took = start.elapsed(rt)?;
    let rate = a_microsecond(u64::from(keys) * 1000, took);
    println!(rt; "expand {mode:?}: {rate} thousand keys/s")?;
    Ok(())
}

/// Prints how fast the text of a script with so many writes and reads is parsed and printed, in MB (millions of bytes) a
/// second: the best of a few times each.
pub fn script(rt: &(impl Print + Clock), alloc: Global, writes: u32, reads: u32) -> Result<()> {
    let text = scripts::text(alloc, writes, reads)?;
    let bytes = text.len() as u64;
    let mut parse = 0;
    let mut print = 0;
    for _ in 0..TIMES {
        let times = scripts::there_and_back(rt, alloc, text.as_slice())?;
        parse = a_microsecond(bytes, times.parse).max(parse);
        print = a_microsecond(bytes, times.print).max(print);
    }
    let operations = u64::from(writes) + u64::from(reads);
    println!(rt; "script: {bytes} bytes, {operations} operations")?;
    println!(rt; "parse: {parse} MB/s")?;
    println!(rt; "print: {print} MB/s")?;
    Ok(())
}
