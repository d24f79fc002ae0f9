use super::*;
use std::test::Fail;

/// The texts of these tests are shorter.
const MOST_BYTES: usize = 4096;

/// Whether the report that the text says is printed as the text.
fn comes_back(rt: &HostRuntime, text: &[u8]) -> Result<bool, Fail> {
    if text.len() > MOST_BYTES {
        return Ok(false);
    }
    let report = parse(rt.alloc(), text)?;
    let printed = print(rt.alloc(), &report)?;
    Ok(printed.as_slice() == text)
}

#[test]
fn every_line_is_read_and_printed(rt: HostRuntime) -> Result<(), Fail> {
    let texts: [&[u8]; 7] = [
        b"report 1\nshard 0 0\nend\n",
        b"report 1\nend\n",
        b"report 1\nthread 0\nplug\ndone\nfault 0\ndone\nunplug\ndone fill 00\ndone fill 33\n\
        shard 0 6\n0 1 0 soft\n0 1 1 soft\n\
        0 2 0 soft\n0 3 0 soft\n0 5 0 plain\n0 6 0 soft\nend\n",
        b"report 1\nthread 0\ndone\nshard 0 2\n0 0 0 inline 0 0 0\n0 0 1 inline 0 0 0\n\
        shard 1 2\n0 0 2 inline 1 0 0\n0 0 3 inline 1 0 0\n\
        device 0 2\nprogram 0 0\nidle 0\ndevice 1 2\nprogram 0 0\nidle 0\nend\n",
        b"report 1\nthread 0\ndone\ndone fill 11\nthread 1\nbusy 0 0 1\nshard 0 0\ndevice 0 4\n\
        program 0 0\nbusy 0 0 1\nidle 0\nidle 0\nend\n",
        b"report 1\ndevice 0 6\nprogram 0 0\nidle 0\nprogram 1 1\nidle 1\nprogram 1 2 skip 0:1\nidle 0\nend\n",
        b"report 1\nthread 0\n\
        done sha256 000102030405060708090a0b0c0d0e0f101112131415161718191a1b1c1d1eff\n\
        refused empty\n\
        refused misaligned\nrefused outside\nrefused dun\nrefused unsupported\nevicted\nbusy 255 65535 65535\nreset\n\
        fault 4294967295\nthread 1\nshard 0 1\n65535 4294967295 4294967295 inline 255 65535 4294967295\n\
        device 0 3\nevict 65535 65535\nreset\nprogram 65535 65535 skip 65535:65535 0:0\nend\n",
    ];
    for text in texts {
        assert!(rt; comes_back(&rt, text)?);
    }
    Ok(())
}

/// The line that the text is refused for, or 0 where it is read.
fn refused_line(rt: &HostRuntime, text: &[u8]) -> u32 {
    if text.len() > MOST_BYTES {
        return 0;
    }
    match parse(rt.alloc(), text) {
        Ok(_) => 0,
        Err(ReportError::Bad { line }) => line,
        Err(ReportError::Memory) => 1000,
    }
}

#[test]
fn the_first_line_that_no_report_has_is_named(rt: HostRuntime) -> Result<(), Fail> {
    let cases: [(&[u8], u32); 18] = [
        (b"", 1),
        (b"report 1", 1),
        (b"report 2\n", 1),
        (b"report 1\n", 2),
        (b"report 1\nend", 2),
        (b"report 1\nshard 0 0\nend\n ", 4),
        (b"report 1\nshard 0 0\nend\n\n", 4),
        (b"report 1\nshard 0 0\r\nend\n", 2),
        (b"report 1\nshard 0  0\nend\n", 2),
        (b"report 1\nthread 1\nend\n", 2),
        (b"report 1\nthread 0\ndone\nthread 2\nend\n", 4),
        (b"report 1\nshard 0 0\nthread 0\nend\n", 3),
        (b"report 1\nshard 0 1\nend\n", 3),
        (b"report 1\nshard 0 1\n0 0 0 soft\n0 1 0 soft\nend\n", 4),
        (b"report 1\nshard 0 4294967295\n0 0 0 soft\n", 4),
        (b"report 1\nshard 0 4294967296\nend\n", 2),
        (b"report 1\nshard 0 1\n0 0 0 inline 256 0 0\nend\n", 3),
        (b"report 1\ndevice 0 1\nprogram 0 0 skip\nend\n", 3),
    ];
    for (text, line) in cases {
        assert_eq!(rt; refused_line(&rt, text), line);
    }
    Ok(())
}
