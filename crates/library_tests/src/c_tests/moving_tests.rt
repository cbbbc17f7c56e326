//! Moving and following code, detours, and what is seen before one.

use crate::c_tests::compare::{answers, are, are_offsets, gave, wrote};
use crate::c_tests::empty::{
    NO_BLOCKS, NO_DETOUR, NO_ENTRY, NO_HOOK, NO_MOVE, NO_PLACE, NO_START, NO_VIEW,
};
use c_calls::blocks::move_blocks;
use c_calls::flat::{
    FlatBlock, FlatDetour, FlatHook, FlatMove, FlatMoved, FlatMovedStart, FlatPlace, FlatView,
};
use c_calls::flow::flow;
use c_calls::flow_from::flow_from;
use c_calls::hooks::make_detour;
use c_calls::moving::{move_code, move_outside};
use c_calls::ruled::make_detour_with;
use c_calls::sight::look;
use c_calls::unlisted_move::move_unlisted;
use std::process::Abort;

/// That a moving has so many instructions and bytes, and where the code ends and the slots begin.
fn is_moved(rt: &impl Abort, of: &str, answer: i32, report: &FlatMove, want: &[u64]) {
    let found = [
        report.count,
        report.bytes,
        report.code_bytes,
        report.slots_at,
    ];
    gave(rt, of, answer, &found, 0, want);
}

/// That an instruction of 2 bytes at 1000 went to a place in a form.
fn is_entry(rt: &impl Abort, entry: &FlatMoved, place: u64, form: u64) {
    let found = [
        entry.old_ip,
        entry.new_ip,
        entry.len as u64,
        entry.form as u64,
    ];
    are(rt, "the map", &found, &[0x1000, place, 2, form]);
}

/// Beyond the reach of 32 bits.
const FAR: u64 = 0x7fff_0000_0000;

// `je` over 16 bytes, moved beyond the reach of 32 bits, in the form of number 3.
#[test]
fn code_is_moved(rt: HostRuntime) {
    let (mut out, mut map) = ([0; 16], [NO_ENTRY]);
    let mut report = NO_MOVE;
    let je = &[0x74, 0x10];
    let answer = move_code(
        rt.alloc(),
        64,
        0x1000,
        je,
        FAR,
        &mut out,
        &mut map,
        &mut report,
    );
    is_moved(&rt, "the move", answer, &report, &[1, 16, 8, 8]);
    let want = b"\x75\x06\xff\x25\0\0\0\0\x12\x10\0\0\0\0\0\0";
    wrote(&rt, "the bytes", answer, &out, 0, want);
    is_entry(&rt, &map[0], FAR, 3);
}

// `jmp` to itself: moved by itself it still goes to where it was.
#[test]
fn code_is_moved_outside(rt: HostRuntime) {
    let (mut out, mut map) = ([0xaa; 3], [NO_ENTRY]);
    let mut report = NO_MOVE;
    let jump = &[0xeb, 0xfe];
    let answer = move_outside(
        rt.alloc(),
        64,
        0x1000,
        jump,
        0x1040,
        &mut out,
        &mut map,
        &mut report,
    );
    is_moved(&rt, "the move", answer, &report, &[1, 2, 2, 2]);
    wrote(&rt, "the bytes", answer, &out, 0, b"\xeb\xbe\xaa");
    is_entry(&rt, &map[0], 0x1040, 1);
}

// vpxord zmm0, zmm0, [rip+0x10] and a jump back to it: it still refers to 0x101a, and the jump follows it.
#[test]
fn code_without_a_row_is_moved(rt: HostRuntime) {
    let (mut out, mut map) = ([0xaa; 13], [NO_ENTRY; 2]);
    let mut report = NO_MOVE;
    let code = b"\x62\xf1\x7d\x48\xef\x05\x10\0\0\0\xeb\xf4";
    let answer = move_unlisted(
        rt.alloc(),
        64,
        0x1000,
        code,
        0x2000,
        &mut out,
        &mut map,
        &mut report,
    );
    is_moved(&rt, "the move", answer, &report, &[2, 12, 12, 12]);
    let want = b"\x62\xf1\x7d\x48\xef\x05\x10\xf0\xff\xff\xeb\xf4\xaa";
    wrote(&rt, "the bytes", answer, &out, 0, want);
    let found = [
        map[0].len as u64,
        map[0].form as u64,
        map[1].old_ip,
        map[1].new_ip,
    ];
    are(&rt, "the map", &found, &[10, 2, 0x100a, 0x200a]);
}

// What is reached from the first byte.
#[test]
fn code_is_followed(rt: HostRuntime) {
    let (mut starts, mut leaders) = ([0; 4], [9; 4]);
    let code = &[0x74, 0x01, 0x90, 0xc3];
    let count = flow(rt.alloc(), 64, 0, code, &mut starts, &mut leaders);
    are_offsets(&rt, "the starts", &starts, &[0, 2, 3, 0]);
    are_offsets(&rt, "the leaders", &leaders, &[0, 2, 3, 9]);
    answers(&rt, "the count", count, 3);
}

// From offset 2, in a mode that has no byte 06.
#[test]
fn code_is_followed_from_an_offset(rt: HostRuntime) {
    let (mut starts, mut leaders) = ([0; 4], [9; 4]);
    let mut kinds = [9; 4];
    let code = &[0x74, 0x01, 0x90, 0x06];
    let count = flow_from(
        rt.alloc(),
        64,
        0,
        code,
        &[2],
        &mut starts,
        &mut leaders,
        &mut kinds,
    );
    are_offsets(&rt, "the starts", &starts, &[2, 3, 0, 0]);
    are_offsets(&rt, "the leaders", &leaders, &[2, 2, 9, 9]);
    wrote(&rt, "the kinds", count, &kinds, 2, &[0, 0xff, 9, 9]);
}

/// `sub rsp, 0x18`, `xor eax, eax` and `ret`.
const FUNCTION: &[u8] = b"\x48\x83\xec\x18\x31\xc0\xc3";

/// That five bytes are wanted, six taken, and the jump back is behind them; that there is no slot and no relay.
fn is_the_detour(rt: &impl Abort, made: &FlatDetour) {
    let found = [made.taken, made.bytes, made.jump_back, made.slots_at];
    are(rt, "the detour", &found, &[6, 11, 6, 11]);
    let found = [made.relay_at, made.at, made.target, made.form as u64];
    are(rt, "not there", &found, &[11, 0, 0, 1]);
}

#[test]
fn a_detour_is_made(rt: HostRuntime) {
    let (mut patch, mut trampoline) = ([0xaa; 7], [0xaa; 12]);
    let mut made = NO_DETOUR;
    let answer = make_detour(
        rt.alloc(),
        64,
        0x1000,
        FUNCTION,
        0x2000,
        0x3000,
        0,
        &mut patch,
        &mut trampoline,
        &mut made,
    );
    is_the_detour(&rt, &made);
    let want = b"\xe9\xfb\x0f\0\0\xcc\xaa";
    wrote(&rt, "the patch", answer, &patch, 0, want);
    let want = b"\x48\x83\xec\x18\x31\xc0\xe9\xfb\xdf\xff\xff\xaa";
    wrote(&rt, "the trampoline", answer, &trampoline, 0, want);
}

/// `jmp rax`, three times `nop`, and `jmp` to the start.
const UNSEEN: &[u8] = b"\xff\xe0\x90\x90\x90\xeb\xf9";

/// That sight ends by the indirect jump at the start, and that the last jump is a suspect.
fn is_the_view(rt: &impl Abort, view: &FlatView) {
    let found = [view.sight as u64, view.sight_at];
    are(rt, "sight", &found, &[2, 0]);
    let found = [
        view.is_entered as u64,
        view.entered_from,
        view.entered_target,
    ];
    are(rt, "not entered", &found, &[0, 0, 0]);
    let found = [view.has_inside as u64, view.inside];
    are(rt, "no entry within", &found, &[0, 0]);
    let found = [
        view.has_suspect as u64,
        view.suspect_from,
        view.suspect_target,
    ];
    are(rt, "the suspect", &found, &[1, 5, 0]);
}

// The first five bytes are overwritten, and the start is closed.
#[test]
fn a_function_is_seen(rt: HostRuntime) {
    let mut view = NO_VIEW;
    let answer = look(rt.alloc(), 64, 0x1000, UNSEEN, &[], 5, &[0], 1, &mut view);
    answers(&rt, "the call", answer, 0);
    is_the_view(&rt, &view);
}

/// `je` to the end, `mov rcx, rax`, an instruction without a row, and `ret`.
const PARTLY_SEEN: &[u8] = b"\x74\x09\x48\x89\xc1\x62\xf1\x7c\x48\x28\xc1\xc3";

/// That two instructions are taken and moved, and that sight ends behind them.
fn is_the_hook(rt: &impl Abort, made: &FlatHook) {
    let found = [
        made.detour.taken,
        made.detour.bytes,
        made.detour.jump_back,
        made.moved,
    ];
    are(rt, "the detour", &found, &[5, 14, 9, 2]);
    let found = [
        made.view.sight as u64,
        made.view.sight_at,
        made.view.is_entered as u64,
        made.view.has_suspect as u64,
    ];
    are(rt, "the view", &found, &[1, 5, 0, 0]);
}

/// That an instruction of the function has its image at a place of the trampoline.
fn is_moved_start(rt: &impl Abort, of: &str, moved: &FlatMovedStart, start: u64, place: u64) {
    are(rt, of, &[moved.start, moved.place], &[start, place]);
}

// In the trampoline the branch has 6 bytes in place of 2.
#[test]
fn a_detour_is_made_by_rules(rt: HostRuntime) {
    let (mut patch, mut trampoline) = ([0xaa; 5], [0xaa; 14]);
    let mut moved = [NO_START; 3];
    let mut made = NO_HOOK;
    let answer = make_detour_with(
        rt.alloc(),
        64,
        0x1000,
        PARTLY_SEEN,
        0x2000,
        0x3000,
        0,
        0,
        &[11],
        &mut patch,
        &mut trampoline,
        &mut moved,
        &mut made,
    );
    is_the_hook(&rt, &made);
    wrote(&rt, "the patch", answer, &patch, 0, b"\xe9\xfb\x0f\0\0");
    let want = b"\x0f\x84\x05\xe0\xff\xff\x48\x89\xc1\xe9\xf7\xdf\xff\xff";
    wrote(&rt, "the trampoline", answer, &trampoline, 0, want);
    is_moved_start(&rt, "the first", &moved[0], 0, 0);
    is_moved_start(&rt, "the second", &moved[1], 2, 6);
    is_moved_start(&rt, "no third", &moved[2], 9, 9);
}

/// 1000: jne 1100; ret. 1100: jmp 1006.
const BLOCK_BYTES: &[u8] = &[
    0x0f, 0x85, 0xfa, 0, 0, 0, 0xc3, 0xcc, 0xcc, 0xe9, 1, 0xff, 0xff, 0xff,
];

/// Both move.
const BLOCKS: &[FlatBlock] = &[
    FlatBlock {
        old_ip: 0x1000,
        new_ip: 0x2000,
        offset: 0,
        len: 7,
    },
    FlatBlock {
        old_ip: 0x1100,
        new_ip: 0x2020,
        offset: 9,
        len: 5,
    },
];

/// That a moved block ends there, with so many bytes and instructions.
fn is_placed(rt: &impl Abort, of: &str, block: &FlatPlace, want: &[u64]) {
    let found = [block.end, block.code_bytes, block.count];
    are(rt, of, &found, want);
}

// What is near stays near: 2000: jne 2020; ret. 2020: jmp 2006. Of each block where it ends in the moved bytes, and its bytes and instructions.
#[test]
fn blocks_are_moved_at_once(rt: HostRuntime) {
    let mut out = [0xaa; 13];
    let (mut places, mut map) = ([NO_PLACE; 2], [NO_ENTRY; 3]);
    let mut report = NO_BLOCKS;
    let answer = move_blocks(
        rt.alloc(),
        64,
        BLOCK_BYTES,
        BLOCKS,
        &mut out,
        &mut places,
        &mut map,
        &mut report,
    );
    let found = [report.bytes, report.count, report.block];
    gave(&rt, "the numbers", answer, &found, 0, &[12, 3, 2]);
    let want = b"\x0f\x85\x1a\0\0\0\xc3\xe9\xe1\xff\xff\xff\xaa";
    wrote(&rt, "the bytes", answer, &out, 0, want);
    is_placed(&rt, "the first block", &places[0], &[7, 7, 2]);
    is_placed(&rt, "the second block", &places[1], &[12, 5, 1]);
}
