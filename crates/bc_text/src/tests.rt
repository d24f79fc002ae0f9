use super::*;
use std::test::Fail;

#[test]
fn a_line_is_read_field_by_field(rt: HostRuntime) -> Result<(), Fail> {
    let mut lines = Lines::new(b"disk 16384 0f\nend\n");
    let mut fields = lines.next().ok_or("a line")?;
    assert_eq!(rt; fields.expect(b"disk"), Some(()));
    assert_eq!(rt;
        number(fields.next().ok_or("a field")?, 1, 16384),
        Some(16384)
    );
    assert_eq!(rt; byte(fields.next().ok_or("a field")?), Some(15));
    assert!(rt; fields.is_empty());
    assert_eq!(rt; lines.next().map(|fields| fields.is_nothing()), Some(false));
    assert_eq!(rt; lines.next().map(|fields| fields.is_nothing()), Some(true));
    assert!(rt; lines.next().is_none());
    Ok(())
}

#[test]
fn what_is_printed_is_read_again(rt: HostRuntime) -> Result<(), Fail> {
    let mut text = Vec::new(rt.alloc());
    put_number(&mut text, 16384)?;
    text.push(b' ')?;
    put_hex(&mut text, &[0x00, 0xa5, 0xff])?;
    assert_eq!(rt; text.as_slice(), b"16384 00a5ff".as_slice());
    Ok(())
}

#[test]
fn what_is_no_number(rt: HostRuntime) -> Result<(), Fail> {
    let fields: [&[u8]; 8] = [
        b"",
        b"01",
        b"+1",
        b"-1",
        b"1 ",
        b"0x1",
        b"16385",
        b"99999999999999999999",
    ];
    for field in fields {
        assert_eq!(rt; number(field, 1, 16384), None);
    }
    Ok(())
}

#[test]
fn what_is_no_byte(rt: HostRuntime) -> Result<(), Fail> {
    let fields: [&[u8]; 6] = [b"", b"0", b"0F", b"0g", b"000", b"0000"];
    for field in fields {
        assert_eq!(rt; byte(field), None);
    }
    Ok(())
}

#[test]
fn bytes_of_lower_case_digits(rt: HostRuntime) -> Result<(), Fail> {
    let mut out = [0; 3];
    assert_eq!(rt; bytes_into(b"00a5ff", &mut out), Some(()));
    assert_eq!(rt; out, [0x00, 0xa5, 0xff]);
    assert_eq!(rt; bytes_into(b"00a5", &mut out), None);
    Ok(())
}
