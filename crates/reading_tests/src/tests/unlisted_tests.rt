//! The lengths of instructions without a row, by the manuals and objdump.

use crate::tests::compare::same_text;
use std::alloc::{AllocError, Global};
use std::test::Fail;
use unlisted::{Kind, MeasureError, Reference, Relative, Shape, ShapeFlow, measure, target};
use x86_values::Bits;

/// The mode; bytes in hexadecimal digits; and the length, the kind, where control goes if not to the next instruction alone, and what is relative: where it
/// is, how many bytes it has, and the address that it refers to, with the first byte at 0x1000. Or `ended`, or `unknown`.
const SHAPES: &str = "
# EVEX: vaddps zmm0, zmm0, zmm1; vpxord zmm0, zmm0, [rip+0x10], and at EIP
64 | 62f17c4858c1 | 6 evex
64 | 62f17d48ef0510000000 | 10 evex rip 6+4 101a
64 | 6762f17d48ef05f0ffffff | 11 evex eip 7+4 ffb
# vpternlogd zmm0, zmm0, [rax], 0x11; vpinsrw xmm0, xmm0, eax, 1; vpgatherdd zmm0{k1}, [rax+zmm1]; vaddph zmm0, zmm0, zmm1
64 | 62f37d48250011 | 7 evex
64 | 62f17d08c4c001 | 7 evex
64 | 62f27d49900408 | 7 evex
64 | 62f57c4858c1 | 6 evex
# in the other modes 62 with mod 3 is EVEX: vaddps zmm0, zmm0, [disp]
32 | 62f17c48580578563412 | 10 evex
16 | 62f17c4858063412 | 8 evex
# the mask registers: kandw k0, k0, k0; kmovb k0, [rip+0x10]; kshiftlw k0, k1, 3
64 | c5fc41c0 | 4 mask
64 | c5f9900510000000 | 8 mask rip 4+4 1018
64 | c4e3f932c103 | 6 mask
# VEX: vfmaddps xmm0, xmm1, xmm2, xmm3; vpdpbusd xmm0, xmm1, xmm2; vaesenc ymm0, ymm1, ymm2
64 | c4e37168c230 | 6 vex
64 | c4e27150c2 | 5 vex
32 | c4e275dcc2 | 5 vex
# XOP: vprotb xmm0, xmm1, 3; vphaddbw xmm0, xmm1; bextr eax, ecx, 0x304
64 | 8fe878c0c103 | 6 xop
64 | 8fe978c1c1 | 5 xop
64 | 8fea7810c104030000 | 9 xop
# 3DNow!: pfadd mm0, mm1; pfmul mm0, [rip+0x10]; femms
64 | 0f0fc19e | 4 now3d
64 | 0f0f0510000000b4 | 8 now3d rip 3+4 1018
64 | 0f0e | 2 now3d
# sha256rnds2; sha1rnds4; gf2p8affineqb; wrssq [rax], rcx; incsspq rax; xsavec [rsp+0x40]; rdpid rax
64 | 0f38cbc1 | 4 legacy
64 | 0f3accc101 | 5 legacy
64 | 660f3acec105 | 6 legacy
64 | 480f38f608 | 5 legacy
64 | f3480faee8 | 5 legacy
64 | 0fc7642440 | 5 legacy
64 | f30fc7f8 | 4 legacy
# vmread rcx, rax; extrq xmm0, 1, 2; insertq xmm0, xmm1, 1, 2; extrq xmm0, xmm1; prefetch [rax]; cldemote [rax]; ud0; movntss [rax], xmm0
64 | 0f78c1 | 3 legacy
64 | 660f78c00102 | 6 legacy
64 | f20f78c10102 | 6 legacy
64 | 660f79c1 | 4 legacy
64 | 0f0d00 | 3 legacy
64 | 0f1c00 | 3 legacy
64 | 0fffc1 | 3 legacy raises
64 | f30f2b00 | 4 legacy
# getsec; rsm; vmcall; xend; xtest; xabort 1; vmmcall; and clac, which the table has
64 | 0f37 | 2 legacy leaves
64 | 0faa | 2 legacy returns
64 | 0f01c1 | 3 legacy
64 | 0f01d5 | 3 legacy
64 | 0f01d6 | 3 legacy
64 | c6f801 | 3 legacy leaves
64 | 0f01d9 | 3 legacy
64 | 0f01ca | unknown
# vmlaunch; vmresume; enclu; vmrun; skinit; seamret; uiret; erets; eretu; and behind C2 a memory operand, which is lgdt of the table
64 | 0f01c2 | 3 legacy leaves
64 | 0f01c3 | 3 legacy leaves
64 | 0f01d7 | 3 legacy leaves
64 | 0f01d8 | 3 legacy leaves
64 | 0f01de | 3 legacy leaves
64 | 660f01cd | 4 legacy leaves
64 | 0f01cd | 3 legacy
64 | f30f01ec | 4 legacy returns
64 | f20f01ca | 4 legacy returns
64 | f30f01ca | 4 legacy returns
64 | 0f0110 | unknown
# what processors run: wbnoinvd, whose form without F3 is wbinvd of the table; reserved NOPs, /0 of the table; fneni, fndisi, fnsetpm, frstpm, and between
# them fnclex of the table
64 | f30f09 | 3 legacy
64 | 0f09 | unknown
64 | 0f1fc8 | 3 legacy
64 | 0f1f7c2440 | 5 legacy
64 | 0f1fc0 | unknown
64 | dbe0 | 2 legacy
64 | dbe1 | 2 legacy
64 | dbe4 | 2 legacy
64 | dbe5 | 2 legacy
64 | dbe2 | unknown
64 | dbe6 | unknown
# jkzd and jknzd, near and short
64 | c5f88410000000 | 7 vex branches branch 3+4 1017
64 | c4e17885fcffffff | 8 vex branches branch 4+4 1004
16 | c5f8841000 | 5 vex branches branch 3+2 1015
64 | c4e0787410 | 5 vex branches branch 4+1 1015
32 | c4e0787580 | 5 vex branches branch 4+1 f85
64 | c4e0787610 | unknown
64 | c4e07874 | ended
# xbegin with 32 and 16-bit operands
64 | c7f810000000 | 6 legacy branches branch 2+4 1016
64 | 66c7f81000 | 5 legacy branches branch 3+2 1015
16 | c7f8feff | 4 legacy branches branch 2+2 1002
16 | 66c7f8feffffff | 7 legacy branches branch 3+4 1005
# aliases: sal eax, 1; sal eax, 3; test al, 1; test eax, 0x1020304; test ax, 0x102; test rax, 0x1020304; salc; fstp st(0); ffreep st(0)
64 | d1f0 | 2 legacy
64 | c1f003 | 3 legacy
64 | f6c801 | 3 legacy
64 | f7c804030201 | 6 legacy
64 | 66f7c80201 | 5 legacy
64 | 48f7c804030201 | 7 legacy
32 | d6 | 1 legacy
64 | d9d8 | 2 legacy
64 | dfc0 | 2 legacy
# bswap ax; movzx ax, cx; xsavec [bp+0x10]
64 | 660fc8 | 3 legacy
64 | 660fb7c1 | 4 legacy
16 | 0fc76610 | 4 legacy
# the table has vaddps xmm0, xmm0, xmm1, and les; an EVEX behind 66, of map 4, with a wrong bit; SALC in 64-bit mode; 15 prefixes
64 | c5f858c1 | unknown
32 | c405 | unknown
64 | 6662f17c4858c1 | unknown
64 | 62f47c4858c1 | unknown
64 | 62f1784858c1 | unknown
64 | d6 | unknown
64 | 666666666666666666666666666666 | unknown
# too few bytes
64 | 62f17d48ef0510 | ended
64 | 62 | ended
64 | 66666666666666666666666666660f | unknown
64 | 666666666666666666666666660f | ended
";

/// The mode of a number of bits.
fn mode_of(word: &str) -> Result<Bits, Fail> {
    match word {
        "16" => Ok(Bits::B16),
        "32" => Ok(Bits::B32),
        "64" => Ok(Bits::B64),
        _ => Err(Fail::new("no mode")),
    }
}

/// The word of a kind.
fn kind_word(kind: Kind) -> &'static str {
    match kind {
        Kind::Evex => "evex",
        Kind::Mask => "mask",
        Kind::Vex => "vex",
        Kind::Xop => "xop",
        Kind::Now3d => "now3d",
        Kind::Legacy => "legacy",
    }
}

/// The word of where control goes, with the space before it.
fn flow_word(flow: ShapeFlow) -> &'static str {
    match flow {
        ShapeFlow::Next => "",
        ShapeFlow::Branch => " branches",
        ShapeFlow::Return => " returns",
        ShapeFlow::Elsewhere => " leaves",
        ShapeFlow::Exception => " raises",
    }
}

/// The word of what a number refers to.
fn reference_word(reference: Reference) -> &'static str {
    match reference {
        Reference::Rip => "rip",
        Reference::Eip => "eip",
        Reference::Branch => "branch",
    }
}

/// What a line has of a number.
fn relative_text(alloc: Global, relative: Relative, address: u64) -> Result<String, AllocError> {
    let word = reference_word(relative.to);
    format!(in alloc; " {word} {}+{} {address:x}", relative.at, relative.len)
}

/// What a line has of a shape.
fn shape_text(alloc: Global, bits: Bits, shape: &Shape) -> Result<String, AllocError> {
    let word = kind_word(shape.kind);
    let flow = flow_word(shape.flow);
    let mut text = format!(in alloc; "{} {word}{flow}", shape.len)?;
    if let (Some(relative), Some(address)) = (shape.relative, target(bits, 0x1000, shape)) {
        let more = relative_text(alloc, relative, address)?;
        text.push_str(&more)?;
    }
    Ok(text)
}

/// What a line has of an answer.
fn answer_text(alloc: Global, bits: Bits, bytes: &[u8]) -> Result<String, AllocError> {
    match measure(bits, bytes) {
        Ok(shape) => shape_text(alloc, bits, &shape),
        Err(MeasureError::Ended) => format!(in alloc; "ended"),
        Err(MeasureError::Unknown) => format!(in alloc; "unknown"),
    }
}

/// The mode and the digits at the front of a line.
fn front_of(line: &str) -> Result<(&str, &str), Fail> {
    let mut words = line.split(" | ");
    match (words.next(), words.next()) {
        (Some(mode), Some(digits)) => Ok((mode, digits)),
        _ => Err(Fail::new("a line has no digits")),
    }
}

/// The line that the table should have of some bytes.
fn line_of(alloc: Global, mode: &str, digits: &str) -> Result<String, Fail> {
    let bytes = hex::decode(alloc, digits)?;
    let answer = answer_text(alloc, mode_of(mode)?, &bytes)?;
    let line = format!(in alloc; "{mode} | {digits} | {answer}")?;
    Ok(line)
}

#[test]
fn shapes_are_those_of_the_formats(rt: HostRuntime) -> Result<(), Fail> {
    for line in SHAPES.lines() {
        if !line.is_empty() && !line.starts_with('#') {
            let (mode, digits) = front_of(line)?;
            same_text(&rt, &line_of(rt.alloc(), mode, digits)?, line, digits);
        }
    }
    Ok(())
}
