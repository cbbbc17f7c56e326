//! Rows, names, jumps and versions.

use crate::c_tests::compare::{answers, are, wrote};
use c_calls::effects::feature_name;
use c_calls::jump::jump;
use c_calls::names::{register_text, segment_text};
use c_calls::row_operands::row_operand;
use c_calls::rows::{code_of, name, notation};
use c_calls::version::{interface, version};
use std::process::Abort;

/// The row `REX.W + 89 /r` of `mov` by its code.
const MOV: u32 = 275;

#[test]
fn a_row_is_told(rt: HostRuntime) {
    let mut room = [0xaa; 5];
    let answer = name(MOV, &mut room);
    wrote(&rt, "the name", answer, &room, 3, b"mov\0\xaa");
    let mut room = [0xaa; 15];
    let answer = notation(MOV, &mut room);
    let want = b"REX.W + 89 /r\0\xaa";
    wrote(&rt, "the notation", answer, &room, 13, want);
    answers(&rt, "the row of add", code_of(b"add", 0), 0);
}

/// An operand of row 0, `add r/m8, r8`: its number, its word and its access.
type RowOperand = (u32, i32, &'static [u8], u8);

/// The first is read and written, the second read; there is no third.
const OPERANDS: &[RowOperand] = &[
    (0, 2, b"Eb\0\xaa\xaa\xaa", 3),
    (1, 2, b"Gb\0\xaa\xaa\xaa", 1),
    (2, 0, b"\0\xaa\xaa\xaa\xaa\xaa", 0),
    (4, -9, b"\xaa\xaa\xaa\xaa\xaa\xaa", 9),
];

#[test]
fn the_operands_of_a_row_are_told(rt: HostRuntime) {
    for (index, want, word, access) in OPERANDS {
        let mut room = [0xaa; 6];
        let mut found = 9;
        let answer = row_operand(0, *index, &mut found, &mut room);
        wrote(&rt, "the word", answer, &room, *want, word);
        are(&rt, "the access", &[found as u64], &[*access as u64]);
    }
}

// The last feature has a name of 6 letters.
#[test]
fn features_are_named(rt: HostRuntime) {
    let mut room = [0xaa; 8];
    let answer = feature_name(40, &mut room);
    wrote(&rt, "the feature", answer, &room, 6, b"RDTSCP\0\xaa");
    answers(&rt, "no feature", feature_name(41, &mut room), -9);
}

#[test]
fn registers_are_named(rt: HostRuntime) {
    let mut room = [0xaa; 5];
    let answer = register_text(1, 5, 0, &mut room);
    wrote(&rt, "the register", answer, &room, 4, b"%rax\0");
    let answer = segment_text(0, 5, &mut room);
    wrote(&rt, "the segment", answer, &room, 2, b"fs\0x\0");
}

#[test]
fn a_far_call_is_written(rt: HostRuntime) {
    let mut call = [0xaa; 16];
    let answer = jump(64, 0x1000, 0x1122_3344_5566_7788, 5, &mut call);
    let want = b"\xff\x15\x02\0\0\0\xeb\x08\x88\x77\x66\x55\x44\x33\x22\x11";
    wrote(&rt, "the call", answer, &call, 16, want);
}

// Version 0.2.0, and the number that capi/feddurzai.h has.
#[test]
fn the_version_is_told(rt: HostRuntime) {
    let found = [version() as u64, interface() as u64];
    are(&rt, "version and interface", &found, &[0x00_02_00, 12]);
}
