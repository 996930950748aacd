// Case C of 01 both ways, three chains of which none touches a lost U, and the masks that are refused.
use crate::printing::line;
use std::io;

// Case B's stripe with strips 0 and 1 lost: as it was, and with U(4) changed from 44 to 45, so that no sound stripe agrees.
pub(crate) fn case_c(rt: &impl Print) -> io::Result<()> {
    for u in [0x44, 0x45] {
        let mut s = [
            0xff, 0xff, 0xff, 0xff, 0xff, 0xff, 4, 0x80, 4, 8, 3, 0x22, 0x10, 5, u, 0x1f, 0xe6,
        ];
        let answer = rebuild::rebuild(5, 2, 2, 1, &mut s, 3);
        line(rt, "C", answer, &s)?;
    }
    Ok(())
}

// n = 8, r = 3, s = 5 with strips 0 and 4 lost, which are given back; its data byte of row i and strip j is 7 (8 i + j) + 1.
pub(crate) fn three_chains(rt: &impl Print) -> io::Result<()> {
    let mut s = [
        0xff, 0xff, 0xff, 0xff, 0x08, 0x40, 0x78, 0xf0, 0x0f, 0x47, 0x7f, 0x93, 0x16, 0x4e, 0x86,
        0x3e, 0xff, 0xff, 0xff, 0xff, 0x24, 0x5c, 0x94, 0x2c, 0x2b, 0x63, 0x9b, 0xf7, 0x32, 0x6a,
        0xa2, 0xfa, 0x30, 0x70, 0xd0,
    ];
    let answer = rebuild::rebuild(8, 3, 5, 1, &mut s, 17);
    line(rt, "chains", answer, &s)
}

// A strip above n; three strips; nothing lost from a sound stripe; a mask that a weak shape never comes to.
pub(crate) fn masks(rt: &impl Print) -> io::Result<()> {
    let mut s = [0; 17];
    for mask in [0x40, 7, 0] {
        let answer = rebuild::rebuild(5, 2, 2, 1, &mut s, mask);
        line(rt, format_args!("mask {mask:X}"), answer, &[])?;
    }
    line(rt, "weak", rebuild::rebuild(4, 1, 2, 1, &mut s, 7), &[])
}
