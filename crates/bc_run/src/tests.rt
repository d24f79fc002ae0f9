ghost use Rattle.std.specs.Prelude.{◌<◌};

use super::*;
use bc_base::{Folder, FreeGate, MemFolder, MemSink, MemSource};
use std::alloc::Global;
use std::process::Abort;
use std::sync::Wait;
use std::test::Fail;
use std::thread::Threads;

const EMPTY_SCRIPT: &[u8] = b"blkcrypt 1\ndisk 1\nfallback on\nend\n";

const EMPTY_REPORT: &[u8] = b"report 1\nshard 0 0\nend\n";

const FIRST_SCRIPT: &[u8] = b"blkcrypt 1\ndisk 1\nfallback on\n\
    key a aes-256-xts 512 8 \
    000102030405060708090a0b0c0d0e0f101112131415161718191a1b1c1d1e1f\
    202122232425262728292a2b2c2d2e2f303132333435363738393a3b3c3d3e3f\n\
    thread\nwrite a 0 1 0 fill 00\nread a 0 1 0\nend\n";

const FIRST_REPORT: &[u8] = b"report 1\nthread 0\ndone\ndone fill 00\n\
    shard 0 2\n0 0 0 soft\n0 1 0 soft\nend\n";

const TWO_SECTIONS: &[u8] = b"blkcrypt 1\ndisk 2\nfallback on\n\
    key a aes-256-xts 512 8 \
    000102030405060708090a0b0c0d0e0f101112131415161718191a1b1c1d1e1f\
    202122232425262728292a2b2c2d2e2f303132333435363738393a3b3c3d3e3f\n\
    thread\nwrite a 0 1 0 fill 00\nread a 0 1 0\nthread\nwrite a 8 1 1 fill 11\nend\n";

const TWO_REPORTED: &[u8] = b"report 1\nthread 0\ndone\ndone fill 00\nthread 1\ndone\n\
    shard 0 2\n0 0 0 soft\n0 1 0 soft\nshard 1 1\n1 0 0 soft\nend\n";

/// Blocks 0 to 3 are written in turn.
const FOUR_BLOCKS: &[u8] = b"blkcrypt 1\ndisk 4\nfallback on\n\
    key a aes-256-xts 4096 8 \
    000102030405060708090a0b0c0d0e0f101112131415161718191a1b1c1d1e1f\
    202122232425262728292a2b2c2d2e2f303132333435363738393a3b3c3d3e3f\n\
    thread\nwrite a 0 1 0 fill 10\nwrite a 8 1 1 fill 11\nwrite a 16 1 2 fill 12\n\
    write a 24 1 3 fill 13\nend\n";

/// Block b is on shard b mod 3.
const FOUR_OF_3: &[u8] = b"report 1\nthread 0\ndone\ndone\ndone\ndone\n\
    shard 0 2\n0 0 0 soft\n0 3 0 soft\nshard 1 1\n0 1 0 soft\nshard 2 1\n0 2 0 soft\nend\n";

const FOUR_OF_64: &[u8] = b"report 1\nthread 0\ndone\ndone\ndone\ndone\n\
    shard 0 1\n0 0 0 soft\nshard 1 1\n0 1 0 soft\nshard 2 1\n0 2 0 soft\nshard 3 1\n0 3 0 soft\n";

/// The digits of a key of CBC-ESSIV after those of its first byte.
const ESSIV_REST: &str = "8182838485868788898a8b8c8d8e8f";

const MAKE_1: &[u8] = b"make 1: bios 32 units 32 done 32 faults 0 \
    image 0dc92f9b0c04df3cfcff33347b68bd5bf34b2206e06e1c5a2126f3d4c92d81d5\n";

// ---- helpers

fn owned(alloc: Global, words: &[&str]) -> Result<Vec<String>, Fail> {
    let mut all = Vec::new(alloc);
    for word in words {
        all.push(String::from_str(alloc, word)?)?;
    }
    Ok(all)
}

/// Runs the words over a source that gives the text, at most `piece` bytes in a call, and an empty folder.
fn status_of<R: Threads + Wait + Sync + AllocGlobal>(
    rt: &R,
    words: &[&str],
    text: &[u8],
    piece: usize,
    out: &mut MemSink,
) -> Result<Status, Fail>
    requires { 0 < piece }
{
    let alloc = rt.alloc();
    let words = owned(alloc, words)?;
    let mut script = MemSource::new(text.to_vec(alloc)?, piece, Vec::new(alloc));
    let mut folder = MemFolder::new(alloc, Vec::new(alloc));
    Ok(run(rt, alloc, &words, &mut script, out, &mut folder, &FreeGate))
}

/// Runs the words over a source that gives the text, and this folder.
fn status_over<R: Threads + Wait + Sync + AllocGlobal>(
    rt: &R,
    words: &[&str],
    text: &[u8],
    folder: &mut MemFolder,
    out: &mut MemSink,
) -> Result<Status, Fail> {
    let alloc = rt.alloc();
    let words = owned(alloc, words)?;
    let mut script = MemSource::new(text.to_vec(alloc)?, 4096, Vec::new(alloc));
    Ok(run(rt, alloc, &words, &mut script, out, folder, &FreeGate))
}

/// A folder that has so many zeros under the name `x`, and fails at its calls after that with these numbers, from 1.
fn folder_with(rt: &HostRuntime, length: usize, fails: Vec<u64>) -> Result<MemFolder, Fail> {
    let mut folder = MemFolder::new(rt.alloc(), fails);
    let image = vec![in rt.alloc(); 0; length]?;
    folder.put("x", &image)?;
    Ok(folder)
}

/// A sink with room for any report of these tests.
fn sink(alloc: Global) -> Result<MemSink, Fail> {
    Ok(MemSink::new(alloc, 4096, 10, Vec::new(alloc))?)
}

// ---- runs that write their report

#[test]
fn an_empty_script_has_a_report_without_a_thread(rt: HostRuntime) -> Result<(), Fail> {
    for piece in [1, 4096] {
        let mut out = sink(rt.alloc())?;
        let status = status_of(&rt, &["serial"], EMPTY_SCRIPT, piece, &mut out)?;
        assert_eq!(rt; status, Status::Ok);
        assert_eq!(rt; out.held(), EMPTY_REPORT);
        assert_eq!(rt; out.held().len(), 23);
    }
    Ok(())
}

/// Both commands write this report of a script.
fn both_report<R: Threads + Wait + Sync + AllocGlobal + Abort>(
    rt: &R,
    option: &str,
    text: &[u8],
    report: &[u8],
) -> Result<(), Fail> {
    for command in ["serial", "threads"] {
        let mut out = MemSink::new(rt.alloc(), 16384, 4096, Vec::new(rt.alloc()))?;
        let status = status_of(rt, &[command, option], text, 4096, &mut out)?;
        assert_eq!(rt; status, Status::Ok);
        assert_eq!(rt; out.held(), report);
    }
    Ok(())
}

/// What both commands report of [`FOUR_BLOCKS`] over 64 shards: block b is on shard b, and 60 shards have no block.
fn four_of_64_shards(alloc: Global) -> Result<Vec<u8>, Fail> {
    let mut report = FOUR_OF_64.to_vec(alloc)?;
    for shard in 4..64 {
        let line = format!(in alloc; "shard {shard} 0\n")?;
        report.extend_from_slice(line.as_bytes())?;
    }
    report.extend_from_slice(b"end\n")?;
    Ok(report)
}

/// A script of 20 keys, in which each of 150 writes is read back at once, and its report.
fn writes_and_their_reads(alloc: Global) -> Result<(Vec<u8>, Vec<u8>), Fail> {
    let mut text = b"blkcrypt 1\ndisk 1\nfallback on\n".to_vec(alloc)?;
    for key in 10..30 {
        let line = format!(in alloc; "key k{key} aes-128-cbc-essiv 512 8 {key}{ESSIV_REST}\n")?;
        text.extend_from_slice(line.as_bytes())?;
    }
    text.extend_from_slice(b"thread\n")?;
    let mut report = b"report 1\nthread 0\n".to_vec(alloc)?;
    // Bytes and data unit numbers are written in decimal digits, which are hexadecimal digits too.
    for pair in 0..150 {
        let byte = 10 + pair % 30;
        let bio = format!(in alloc; "k{} {} 1 {pair}", 10 + pair % 20, pair % 8)?;
        let ops = format!(in alloc; "write {bio} fill {byte}\nread {bio}\n")?;
        text.extend_from_slice(ops.as_bytes())?;
        let answers = format!(in alloc; "done\ndone fill {byte}\n")?;
        report.extend_from_slice(answers.as_bytes())?;
    }
    text.extend_from_slice(b"end\n")?;
    report.extend_from_slice(b"shard 0 300\n")?;
    for op in 0..300 {
        let entry = format!(in alloc; "0 {op} 0 soft\n")?;
        report.extend_from_slice(entry.as_bytes())?;
    }
    report.extend_from_slice(b"end\n")?;
    Ok((text, report))
}

#[test]
fn where_turns_decide_nothing_both_commands_have_one_report(rt: HostRuntime) -> Result<(), Fail> {
    both_report(&rt, "--shards=1", FIRST_SCRIPT, FIRST_REPORT)?;
    both_report(&rt, "--shards=2", TWO_SECTIONS, TWO_REPORTED)?;
    both_report(&rt, "--shards=3", FOUR_BLOCKS, FOUR_OF_3)?;
    let report = four_of_64_shards(rt.alloc())?;
    both_report(&rt, "--shards=64", FOUR_BLOCKS, report.as_slice())?;
    let (text, report) = writes_and_their_reads(rt.alloc())?;
    both_report(&rt, "--shards=1", text.as_slice(), report.as_slice())
}

#[test]
fn make_1_writes_one_line_whatever_the_options(rt: HostRuntime) -> Result<(), Fail> {
    let commands: [&[&str]; 3] = [
        &["make", "1"],
        &["make", "1", "--slots", "32", "--shards=3"],
        &["make", "1", "--threads"],
    ];
    for words in commands {
        let mut out = sink(rt.alloc())?;
        let status = status_of(&rt, words, EMPTY_SCRIPT, 4096, &mut out)?;
        assert_eq!(rt; status, Status::Ok);
        assert_eq!(rt; out.held(), MAKE_1);
    }
    Ok(())
}

// ---- images

const WRITES: &[u8] = b"blkcrypt 1\ndisk 1\nfallback on\n\
    key a aes-256-xts 512 8 \
    000102030405060708090a0b0c0d0e0f101112131415161718191a1b1c1d1e1f\
    202122232425262728292a2b2c2d2e2f303132333435363738393a3b3c3d3e3f\n\
    thread\nwrite a 0 1 0 fill 00\nend\n";

const READS: &[u8] = b"blkcrypt 1\ndisk 1\nfallback on\n\
    key a aes-256-xts 512 8 \
    000102030405060708090a0b0c0d0e0f101112131415161718191a1b1c1d1e1f\
    202122232425262728292a2b2c2d2e2f303132333435363738393a3b3c3d3e3f\n\
    thread\nread a 0 1 0\nread - 1 7 -\nend\n";

#[test]
fn what_one_run_puts_another_reads(rt: HostRuntime) -> Result<(), Fail> {
    let alloc = rt.alloc();
    let mut folder = MemFolder::new(alloc, Vec::new(alloc));
    let mut out = sink(alloc)?;
    let words = ["serial", "--out", "x"];
    let status = status_over(&rt, words.as_slice(), WRITES, &mut folder, &mut out)?;
    assert_eq!(rt; status, Status::Ok);
    assert_eq!(rt;
        out.held(),
        b"report 1\nthread 0\ndone\nshard 0 1\n0 0 0 soft\nend\n".as_slice()
    );
    let mut out = sink(alloc)?;
    let words = ["serial", "--image=x"];
    let status = status_over(&rt, words.as_slice(), READS, &mut folder, &mut out)?;
    assert_eq!(rt; status, Status::Ok);
    assert!(rt;
        out.held()
            .starts_with(b"report 1\nthread 0\ndone fill 00\ndone fill 00\n")
    );
    match folder.get(alloc, "x", 4096) {
        Ok(image) => {
            assert_eq!(rt; image.len(), 4096);
            // The first block of zeros under this key and number, by another implementation.
            assert_eq!(rt; &image[..4], [0xcd, 0x6b, 0x10, 0x32].as_slice());
        }
        Err(_) => assert!(rt; false),
    }
    Ok(())
}

// ---- faults

#[test]
fn a_folder_that_fails_ends_the_run(rt: HostRuntime) -> Result<(), Fail> {
    let alloc = rt.alloc();
    let both = ["serial", "--image", "x", "--out", "x"];
    for fails in [1, 2] {
        let mut folder = folder_with(&rt, 4096, vec![in alloc; fails]?)?;
        let mut out = sink(alloc)?;
        let status = status_over(&rt, both.as_slice(), EMPTY_SCRIPT, &mut folder, &mut out)?;
        assert_eq!(rt; status, Status::FolderFault);
        assert_eq!(rt; out.held().len(), 0);
    }
    Ok(())
}

#[test]
fn a_sink_that_fails_finds_the_image_put(rt: HostRuntime) -> Result<(), Fail> {
    let alloc = rt.alloc();
    let mut folder = MemFolder::new(alloc, Vec::new(alloc));
    let mut out = MemSink::new(alloc, 4096, 10, vec![in alloc; 1]?)?;
    let words = ["serial", "--out", "x"];
    let status = status_over(&rt, words.as_slice(), EMPTY_SCRIPT, &mut folder, &mut out)?;
    assert_eq!(rt; status, Status::WriteFault);
    assert_eq!(rt; out.held(), b"report 1\ns".as_slice());
    assert!(rt; folder.get(alloc, "x", 4096).is_ok());
    Ok(())
}

#[test]
fn a_source_that_fails_ends_the_run(rt: HostRuntime) -> Result<(), Fail> {
    let alloc = rt.alloc();
    let words = owned(alloc, &["serial"])?;
    let mut script = MemSource::new(EMPTY_SCRIPT.to_vec(alloc)?, 4096, vec![in alloc; 0]?);
    let mut out = sink(alloc)?;
    let mut folder = MemFolder::new(alloc, Vec::new(alloc));
    let status = run(
        &rt,
        alloc,
        &words,
        &mut script,
        &mut out,
        &mut folder,
        &FreeGate,
    );
    assert_eq!(rt; status, Status::ReadFault);
    assert_eq!(rt; out.held().len(), 0);
    Ok(())
}
