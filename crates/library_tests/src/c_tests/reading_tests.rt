//! Reading, showing, telling and writing an instruction.

use crate::c_tests::compare::{answers, are, gave, wrote};
use crate::c_tests::empty::{NO_INFO, NO_INSTR, NO_PARTS, NO_SHAPE, NO_USE, UNTOLD};
use c_calls::assembling::{assemble, read_intel};
use c_calls::decoding::decode;
use c_calls::effects::{effects, full_register};
use c_calls::encoding::{encode, encoded_len};
use c_calls::flat::{FlatInstr, FlatTouched, FlatUse};
use c_calls::info::info;
use c_calls::line::{line, line_text};
use c_calls::many::decode_many;
use c_calls::measuring::measure;
use c_calls::offsets::offsets;
use c_calls::texts::text;
use std::process::Abort;

/// `mov qword [rsp+0x10], rbx`.
const MOV: &[u8] = &[0x48, 0x89, 0x5c, 0x24, 0x10];

/// That the operands are memory at register 4 of class 5, RSP, plus 16 in 8 bits, and register 3 of it, RBX.
fn is_the_move(rt: &impl Abort, instr: &FlatInstr) {
    let (at, reg) = (instr.op0, instr.op1);
    let found = [at.kind as u64, at.reg_class as u64, at.reg_number as u64];
    are(rt, "the base", &found, &[2, 5, 4]);
    let found = [at.value, at.disp_bits as u64, at.scale as u64];
    are(rt, "the address", &found, &[0x10, 8, 1]);
    let found = [reg.kind as u64, reg.reg_class as u64, reg.reg_number as u64];
    are(rt, "the register", &found, &[1, 5, 3]);
}

// Read, shown, written and parted.
#[test]
fn an_instruction_is_read_shown_and_written(rt: HostRuntime) {
    let mut instr = NO_INSTR;
    let answer = decode(64, 0x1000, MOV, &mut instr);
    answers(&rt, "the length", answer, 5);
    is_the_move(&rt, &instr);
    let mut room = [0xaa; 27];
    let answer = text(64, 0, &instr, &mut room);
    let want = b"mov qword [rsp+0x10], rbx\0\xaa";
    wrote(&rt, "the text", answer, &room, 25, want);
    let mut code = [0xaa; 6];
    let answer = encode(64, 0x1000, &instr, &mut code);
    wrote(&rt, "bytes", answer, &code, 5, b"\x48\x89\x5c\x24\x10\xaa");
}

#[test]
fn an_instruction_is_parted(rt: HostRuntime) {
    let mut parts = NO_PARTS;
    let answer = offsets(64, MOV, &mut parts);
    let part = parts.displacement;
    let found = [part.at as u64, part.len as u64];
    gave(&rt, "the displacement", answer, &found, 5, &[4, 1]);
}

/// `vpxord zmm0, zmm0, [rip+0x10]`, which the table leaves out.
const VPXORD: &[u8] = &[0x62, 0xf1, 0x7d, 0x48, 0xef, 0x05, 0x10, 0, 0, 0];

// Its kind, and where its number at RIP is.
#[test]
fn an_instruction_without_a_row_is_measured(rt: HostRuntime) {
    let mut shape = NO_SHAPE;
    let answer = measure(64, VPXORD, &mut shape);
    let found = [
        shape.kind as u64,
        shape.reference as u64,
        shape.at as u64,
        shape.len as u64,
        shape.distance,
    ];
    gave(&rt, "the shape", answer, &found, 10, &[0, 1, 6, 4, 0x10]);
}

// Its flow, the size of its memory operand and how many registers it names.
#[test]
fn an_instruction_is_told(rt: HostRuntime) {
    let mut instr = NO_INSTR;
    let len = decode(64, 0, MOV, &mut instr);
    answers(&rt, "the length", len, 5);
    let mut about = NO_INFO;
    let answer = info(&instr, &mut about);
    let found = [
        about.flow as u64,
        about.memory_size as u64,
        about.use_count as u64,
    ];
    gave(&rt, "flow, size and uses", answer, &found, 0, &[0, 8, 2]);
    has_row(&rt, &instr, 5, MOV_ROW);
}

/// The registers of `push rbx`, and none behind them.
const TOUCHED: &[FlatUse] = &[
    FlatUse {
        reg_class: 5,
        reg_number: 3,
        access: 1,
    },
    FlatUse {
        reg_class: 5,
        reg_number: 4,
        access: 3,
    },
    NO_USE,
];

/// That registers are those of `push rbx`.
fn are_uses(rt: &impl Abort, found: &[FlatUse]) {
    assert_eq!(rt; found, TOUCHED);
}

/// That the sets and the memory are those of `push rbx`.
fn is_the_push(rt: &impl Abort, touched: &FlatTouched) {
    let found = [
        touched.features,
        touched.flags_read as u64,
        touched.flags_written as u64,
    ];
    are(rt, "features and flags", &found, &[0, 0, 0]);
    let found = [touched.memory_count as u64, touched.register_count as u64];
    are(rt, "the counts", &found, &[1, 2]);
    let memory = touched.memory[0];
    let found = [
        memory.displacement,
        memory.size as u64,
        memory.segment as u64,
        memory.access as u64,
    ];
    are(rt, "the memory", &found, &[0xffff_ffff_ffff_fff8, 8, 3, 2]);
}

// `push rbx` reads RBX, moves RSP and writes 8 bytes below it.
#[test]
fn what_is_touched_is_told(rt: HostRuntime) {
    let mut instr = NO_INSTR;
    let len = decode(64, 0, &[0x53], &mut instr);
    answers(&rt, "the length", len, 1);
    let mut touched = UNTOLD;
    let answer = effects(64, &instr, &mut touched);
    answers(&rt, "what is touched", answer, 0);
    is_the_push(&rt, &touched);
    are_uses(&rt, &touched.registers[..3]);
}

// RSP holds SPL.
#[test]
fn the_widest_register_is_told(rt: HostRuntime) {
    answers(&rt, "holds SPL", full_register(1, 4), 0x504);
    answers(&rt, "no register", full_register(5, 16), -17);
}

/// `nop`, a byte that is no instruction, and `ret`.
const CODE: &[u8] = &[0x90, 0x06, 0xc3];

/// That an instruction has so many bytes and this row.
fn has_row(rt: &impl Abort, instr: &FlatInstr, len: u8, code: u16) {
    assert_eq!(rt; (instr.len, instr.code), (len, code));
}

/// That an instruction has neither prefixes nor operands.
fn is_bare(rt: &impl Abort, instr: &FlatInstr) {
    let prefixes = [instr.lock, instr.rep, instr.segment, instr.asize];
    let kinds = [
        instr.op0.kind,
        instr.op1.kind,
        instr.op2.kind,
        instr.op3.kind,
    ];
    assert_eq!(rt; (prefixes, kinds), ([0; 4], [0; 4]));
}

/// The rows `NF3 90`, `REX.W + 89 /r` and `o64 C3` by their codes.
const NOP: u16 = 290;

const MOV_ROW: u16 = 275;

const RET: u16 = 381;

// Three items of three bytes; behind them the room is as it was.
#[test]
fn many_are_read(rt: HostRuntime) {
    let mut instrs = [NO_INSTR; 4];
    let mut count = 9;
    let answer = decode_many(64, 0, CODE, &mut instrs, &mut count);
    gave(&rt, "the items", answer, &[count as u64], 3, &[3]);
    let [nop, single, ret, behind] = instrs;
    has_row(&rt, &nop, 1, NOP);
    has_row(&rt, &single, 1, 0xffff);
    has_row(&rt, &ret, 1, RET);
    has_row(&rt, &behind, 0, 0);
}

#[test]
fn a_line_is_shown(rt: HostRuntime) {
    let mut room = [0xaa; 5];
    let mut instr = NO_INSTR;
    let answer = line(64, 0, 2, &[0xc3], &mut instr, &mut room);
    wrote(&rt, "the line", answer, &room, 1, b"ret\0\xaa");
    has_row(&rt, &instr, 1, RET);
    is_bare(&rt, &instr);
    let answer = line_text(64, 1, 0, CODE, &mut room);
    wrote(&rt, "the text", answer, &room, 1, b"nop\0\xaa");
}

/// A jump to itself.
const JUMP: &[u8] = b"jmp 0x1000";

// A jump to itself by its text: an operand of kind 4, the target.
#[test]
fn a_text_is_read(rt: HostRuntime) {
    let mut out = [0xaa; 3];
    let answer = assemble(64, 0x1000, JUMP, &mut out);
    wrote(&rt, "the bytes", answer, &out, 2, b"\xeb\xfe\xaa");
    let mut instr = NO_INSTR;
    let answer = read_intel(64, 0x1000, JUMP, &mut instr);
    let found = [instr.op0.kind as u64, instr.op0.value, instr.len as u64];
    gave(&rt, "the target", answer, &found, 2, &[4, 0x1000, 2]);
    let len = encoded_len(64, 0x1000, &instr);
    answers(&rt, "the length written", len, 2);
}
