//! What instructions touch besides their operands, by the operation, the flags and the features that the manual's page of each tells.

use crate::tests::compare::{same_items, same_value};
use crate::tests::read_bytes::read;
use instruction_info::{
    AccessKind, Features, FlagSet, FlagUse, RegisterUse, all_registers, flags_of, needed_features,
    used_features,
};
use opcode_rows::ROWS;
use std::alloc::Global;
use std::process::Abort;
use std::test::Fail;
use x86_values::{Bits, Code, Instr, Register, Segment};

/// A register with what is done to it.
fn used(reg: Register, access: AccessKind) -> RegisterUse {
    RegisterUse { reg, access }
}

/// That an instruction of 64-bit mode touches these registers.
fn touches(rt: &impl Abort, alloc: Global, digits: &str, want: &[RegisterUse]) -> Result<(), Fail> {
    let instr = read(alloc, Bits::B64, 0, digits)?.instr;
    let found = all_registers(Bits::B64, &instr);
    same_items(rt, found.as_slice(), want, digits);
    Ok(())
}

#[test]
fn forms_have_their_own_accesses(rt: HostRuntime) -> Result<(), Fail> {
    let (xmm1, rax) = (Register::Xmm(1), used(Register::RAX, AccessKind::Read));
    let xmm2 = used(Register::Xmm(2), AccessKind::Read);
    // from memory the rest becomes 0: movss and movsd xmm1, [rax]
    let replaced = used(xmm1, AccessKind::Write);
    touches(&rt, rt.alloc(), "f30f1008", &[replaced, rax])?;
    touches(&rt, rt.alloc(), "f20f1008", &[replaced, rax])?;
    // from a register it stays, and sums keep it in each form: movss and movsd xmm1, xmm2; addss xmm1, [rax]; addsd xmm1, xmm2
    let merged = used(xmm1, AccessKind::ReadWrite);
    touches(&rt, rt.alloc(), "f30f10ca", &[merged, xmm2])?;
    touches(&rt, rt.alloc(), "f20f10ca", &[merged, xmm2])?;
    touches(&rt, rt.alloc(), "f30f5808", &[merged, rax])?;
    touches(&rt, rt.alloc(), "f20f58ca", &[merged, xmm2])?;
    // movss [rax], xmm2; vmovss xmm1, [rax]
    touches(&rt, rt.alloc(), "f30f1110", &[rax, xmm2])?;
    touches(&rt, rt.alloc(), "c5fa1008", &[replaced, rax])
}

#[test]
fn far_transfers_may_change_the_stack_segment(rt: HostRuntime) -> Result<(), Fail> {
    let (cs, ss) = (Register::Seg(Segment::Cs), Register::Seg(Segment::Ss));
    let rsp = used(Register::R64(4), AccessKind::ReadWrite);
    // retf; call far [rax]
    let (returned, outer) = (
        used(cs, AccessKind::Write),
        used(ss, AccessKind::ConditionalWrite),
    );
    touches(&rt, rt.alloc(), "cb", &[rsp, returned, outer])?;
    let (called, inner) = (
        used(cs, AccessKind::ReadWrite),
        used(ss, AccessKind::ConditionalReadWrite),
    );
    let rax = used(Register::RAX, AccessKind::Read);
    touches(&rt, rt.alloc(), "ff18", &[rax, rsp, called, inner])
}

/// The flags of a case: read, written, cleared, set, undefined and kept.
fn flag_use(flags: [u32; 6]) -> FlagUse {
    let [read_, written, cleared, set, undefined, kept] = flags;
    FlagUse {
        read: FlagSet(read_),
        written: FlagSet(written),
        cleared: FlagSet(cleared),
        set: FlagSet(set),
        undefined: FlagSet(undefined),
        kept: FlagSet(kept),
    }
}

/// The flags of a code, if the table has it.
fn flags_if_known(code: Code) -> Option<FlagUse> {
    if code.0 < ROWS {
        Some(flags_of(code))
    } else {
        None
    }
}

#[test]
fn instructions_have_the_flags_of_their_pages(rt: HostRuntime) -> Result<(), Fail> {
    // read, written, cleared, set, undefined, kept: IOPL is 3000, VIF 80000, VM 20000, NT 4000, IF 200, and C0 to C3 are 47000000
    let cases = &[
        // cli; sti; popf; popfq
        ("fa", [0x3000, 0x8_0200, 0x8_0200, 0, 0, 0x8_0200]),
        ("fb", [0x3000, 0x8_0200, 0, 0x8_0200, 0, 0x8_0200]),
        ("669d", [0x2_3000, 0x9_7FD5, 0x1_0000, 0, 0, 0x8_3200]),
        ("9d", [0x3000, 0x25_7FD5, 0x1_0000, 0, 0, 0x3200]),
        // iretq
        ("48cf", [0x2_7000, 0x3F_7FD5, 0, 0, 0, 0x3F_3200]),
        // fxsave, fxrstor, xsave, xrstor and xsaveopt of [rax]
        ("0fae00", [0x4700_0000, 0, 0, 0, 0, 0]),
        ("0fae08", [0, 0x4700_0000, 0, 0, 0, 0]),
        ("0fae20", [0x4700_0000, 0, 0, 0, 0, 0]),
        ("0fae28", [0, 0x4700_0000, 0, 0, 0, 0x4700_0000]),
        ("0fae30", [0x4700_0000, 0, 0, 0, 0, 0]),
        // sbb eax, ecx; inc eax; and eax, ecx; rol eax, 1; rol eax, cl; sar eax, 1; shl eax, 5
        ("19c8", [0x1, 0x8D5, 0, 0, 0, 0]),
        ("ffc0", [0, 0x8D4, 0, 0, 0, 0]),
        ("21c8", [0, 0x8C5, 0x801, 0, 0x10, 0]),
        ("d1c0", [0, 0x801, 0, 0, 0, 0]),
        ("d3c0", [0, 0x1, 0, 0, 0x800, 0x801]),
        ("d1f8", [0, 0x8C5, 0x800, 0, 0x10, 0]),
        ("c1e005", [0, 0xC5, 0, 0, 0x810, 0x8D5]),
    ];
    for (digits, flags) in cases {
        let code = read(rt.alloc(), Bits::B64, 0, digits)?.instr.code;
        let want = flag_use(*flags);
        same_value(&rt, &flags_if_known(code), &Some(want), digits);
    }
    Ok(())
}

/// The features that an instruction uses and those that it needs, if the table has its code.
fn features_if_known(instr: &Instr) -> Option<(Features, Features)> {
    if instr.code.0 < ROWS {
        Some((used_features(instr), needed_features(instr)))
    } else {
        None
    }
}

#[test]
fn hints_need_no_feature(rt: HostRuntime) -> Result<(), Fail> {
    let none = Features(0);
    let cases = &[
        // endbr64; rdsspq rax; prefetchnta [rax]; prefetchw [rax]; pause; nop dword [rax]
        ("f30f1efa", Features::CET_IBT, none),
        ("f3480f1ec8", Features::CET_SS, none),
        ("0f1800", Features::SSE, none),
        ("0f0d08", Features::PREFETCHW, none),
        ("f390", none, none),
        ("0f1f00", none, none),
        // popcnt eax, ecx; tzcnt eax, ecx; clflush [rax]; sfence
        ("f30fb8c1", Features::POPCNT, Features::POPCNT),
        ("f30fbcc1", Features::BMI1, Features::BMI1),
        ("0fae38", Features::CLFSH, Features::CLFSH),
        ("0faef8", Features::SSE, Features::SSE),
        // vbroadcastss xmm1, [rax]; vbroadcastss xmm1, xmm2
        ("c4e2791808", Features::AVX, Features::AVX),
        ("c4e27918ca", Features::AVX2, Features::AVX2),
    ];
    for (digits, used, needed) in cases {
        let instr = read(rt.alloc(), Bits::B64, 0, digits)?.instr;
        same_value(
            &rt,
            &features_if_known(&instr),
            &Some((*used, *needed)),
            digits,
        );
    }
    Ok(())
}
