// The trial cases about one line. A record is its 138 bytes (docs/LAYOUT.md, A record). A case that answers None has printed nothing.
#![tactic(auto)]

use layout::FIELDS;
use say::{Answer, say, show};
use std::io::Print;

pub fn read(rt: &impl Print, piece: &[u8]) -> Option<()> {
    let mut record = [0u8; FIELDS];
    let mut kind = 0;
    let code = door::skurzelt_read(piece, &mut record, &mut kind);
    match (code, kind) {
        (0, 0) => say::text(rt, b"read end of day"),
        (0, _) => read_record(rt, &record)?,
        _ => say!(rt; "read {}", Answer(code)),
    }
    Some(())
}

// Its fields, and what writing it back gives into buffers of these sizes.
fn read_record(rt: &impl Print, record: &[u8; FIELDS]) -> Option<()> {
    say::text(rt, b"read");
    show::record(rt, record);
    for n in [0, 139, 140, 152] {
        say::text(rt, b"\n");
        written(rt, record, n)?;
    }
    Some(())
}

// A piece read into a buffer of n bytes.
pub fn read_into(rt: &impl Print, s: &[u8]) -> Option<()> {
    let (n, piece) = s.split_first_chunk()?;
    let n = u16::from_le_bytes(*n);
    let mut buffer = [b'.'; 300];
    let buffer = buffer.get_mut(..n as usize)?;
    let mut kind = 7;
    let code = door::skurzelt_read(piece, buffer, &mut kind);
    say!(rt; "record {n} {} kind {kind}", Answer(code));
    say::bytes(rt, buffer);
    Some(())
}

// A record written into a buffer of n bytes.
pub fn write(rt: &impl Print, s: &[u8]) -> Option<()> {
    let (n, record) = s.split_first_chunk()?;
    written(rt, record, u16::from_le_bytes(*n))
}

fn written(rt: &impl Print, record: &[u8], n: u16) -> Option<()> {
    let mut buffer = [b'.'; 300];
    let buffer = buffer.get_mut(..n as usize)?;
    let code = door::skurzelt_write(record, buffer);
    say::filled(rt, b"write ", code, buffer);
    Some(())
}

pub fn strike_value(rt: &impl Print, s: &[u8]) -> Option<()> {
    let (denominator, strike) = s.split_first()?;
    let strike = u64::from_le_bytes(*strike.as_array()?);
    let mut value = 7;
    let code = door::skurzelt_strike_value(*denominator, strike, &mut value);
    say::text(rt, b"strike");
    say::number(rt, b" value ", code, value);
    Some(())
}

pub fn strike_form(rt: &impl Print, s: &[u8]) -> Option<()> {
    let value = u64::from_le_bytes(*s.as_array()?);
    let mut denominator = 7;
    let mut strike = 8;
    let code = door::skurzelt_strike_form(value, &mut denominator, &mut strike);
    if code == 0 {
        show::strike(rt, denominator, strike);
    } else {
        say::text(rt, b"form");
        say::left(rt, code, &[denominator, strike]);
    }
    Some(())
}

pub fn clock(rt: &impl Print, s: &[u8]) -> Option<()> {
    let timestamp = u64::from_le_bytes(*s.as_array()?);
    let mut hours = 7;
    let mut minutes = 8;
    let mut seconds = 9;
    let mut milliseconds = 10;
    let code = door::skurzelt_clock(
        timestamp,
        &mut hours,
        &mut minutes,
        &mut seconds,
        &mut milliseconds,
    );
    say::text(rt, b"clock");
    if code == 0 {
        show::time(rt, hours, minutes, seconds, milliseconds);
    } else {
        say::left(rt, code, &[hours, minutes, seconds, milliseconds]);
    }
    Some(())
}
