// Cases A, B and D of 01, worked by hand there, with what scrub and read say of them and what is refused.
use crate::printing::{Found, line};
use std::io;

// What scrub says of a stripe of case B's shape: its counts and its finding.
fn scrubbed(rt: &impl Print, s: &[u8]) -> io::Result<()> {
    match stripe::scrub(5, 2, 2, 1, s) {
        Ok(counts) => println!(rt;
            "scrub {} {} {}",
            counts.rows,
            counts.diagonals,
            Found(counts.finding)
        ),
        Err(_) => println!(rt; "scrub refused"),
    }
}

// What read says of a data element of such a stripe, and the element.
fn read(rt: &impl Print, s: &[u8], row: usize, strip: usize) -> io::Result<()> {
    line(
        rt,
        format_args!("read {row} {strip}"),
        stripe::read_check(5, 2, 2, 1, s, row, strip),
        stripe::read(5, 2, 2, 1, s, row, strip),
    )
}

// Case A: data 11 22 44.
pub(crate) fn case_a(rt: &impl Print) -> io::Result<()> {
    let mut s = [0x11, 0, 0x22, 0, 0x44, 0, 0];
    let answer = stripe::encode(3, 1, 1, 1, &mut s);
    line(rt, "A", answer, &s)
}

// Case B: row 0 is 01 02 04 08 10, row 1 is 20 40 80 03 05; then case D, FF written at row 0, strip 2.
pub(crate) fn case_b_d(rt: &impl Print) -> io::Result<()> {
    let mut s = [
        1, 0x20, 0, 2, 0x40, 0, 4, 0x80, 0, 8, 3, 0, 0x10, 5, 0, 0, 0,
    ];
    let encoded = stripe::encode(5, 2, 2, 1, &mut s);
    line(rt, "B", encoded, &s)?;
    scrubbed(rt, &s)?;
    let written = stripe::write(5, 2, 2, 1, &mut s, 0, 2, 0, &[0xff]);
    line(rt, "D", written, &s)?;
    scrubbed(rt, &s)?;
    read(rt, &s, 0, 2)?;
    read(rt, &s, 2, 0)
}

// Case D's stripe with a data byte changed; with H 0 changed; with H 0 and two bytes of U changed.
pub(crate) fn damaged(rt: &impl Print) -> io::Result<()> {
    scrubbed(
        rt,
        b"\x01\x20\x88\x02\x40\x13\xff\x80\x04\x08\x04\x22\x10\x05\xbf\xe4\xe6",
    )?;
    scrubbed(
        rt,
        b"\x01\x20\x88\x02\x40\x13\xff\x80\x04\x08\x03\x22\x10\x05\xbf\x00\xe6",
    )?;
    scrubbed(
        rt,
        b"\x01\x20\x88\x02\x40\x00\xff\x80\x00\x08\x03\x22\x10\x05\xbf\x00\xe6",
    )
}

// A data element that is not there, an offset past its end, a length that does not fit, a weak shape.
pub(crate) fn refused(rt: &impl Print) -> io::Result<()> {
    let mut s = [0; 17];
    let strip = stripe::write(5, 2, 2, 1, &mut s, 0, 5, 0, &[1]);
    line(rt, "strip 5", strip, &[])?;
    let offset = stripe::write(5, 2, 2, 1, &mut s, 0, 0, 1, &[1]);
    line(rt, "offset 1", offset, &[])?;
    line(rt, "e 2", stripe::encode(5, 2, 2, 2, &mut s), &[])?;
    line(rt, "weak", stripe::encode(4, 1, 2, 1, &mut s), &[])
}
