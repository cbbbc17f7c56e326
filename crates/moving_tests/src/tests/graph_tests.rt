//! What control reaches in pieces of code, and their basic blocks.

ghost use Rattle.std.specs.Prelude.{◌≤◌, length};

use crate::tests::compare::same_items;
use decoder::DecodeError;
use flow_graph::{FlowError, FlowGraph, flow_graph, flow_graph_from, flow_graph_in};
use operand_info::Flow;
use std::alloc::Global;
use std::process::Abort;
use std::test::Fail;
use x86_values::Bits;

/// What control reaches in at most 16 bytes.
fn graph_of_bytes(
    alloc: Global,
    bits: Bits,
    base: u64,
    bytes: &[u8],
) -> Result<FlowGraph, FlowError>
    requires { length bytes.now ≤ 16 }
{
    match bits {
        Bits::B16 => flow_graph::<16>(alloc, base, bytes),
        Bits::B32 => flow_graph::<32>(alloc, base, bytes),
        Bits::B64 => flow_graph::<64>(alloc, base, bytes),
    }
}

/// What control reaches in the bytes that are given in hexadecimal.
fn graph_of(alloc: Global, bits: Bits, base: u64, digits: &str) -> Result<FlowGraph, Fail> {
    let bytes = hex::decode(alloc, digits)?;
    if bytes.len() > 16 {
        return Err(Fail::new("there are more than 16 bytes"));
    }
    Ok(graph_of_bytes(alloc, bits, base, &bytes)?)
}

/// What control reaches in 64-bit code from several first offsets.
fn graph_from(alloc: Global, base: u64, digits: &str, entries: &[u32]) -> Result<FlowGraph, Fail> {
    let bytes = hex::decode(alloc, digits)?;
    if bytes.len() > 16 {
        return Err(Fail::new("there are more than 16 bytes"));
    }
    Ok(flow_graph_from(alloc, Bits::B64, base, &bytes, entries)?)
}

/// That control reaches these offsets of some code, whose basic blocks have these leaders.
fn reaches(
    rt: &impl Abort,
    code: &str,
    graph: Result<FlowGraph, Fail>,
    starts: &[u32],
    leaders: &[u32],
) -> Result<(), Fail> {
    let graph = graph?;
    same_items(rt, code, graph.starts(), starts);
    same_items(rt, code, graph.leaders(), leaders);
    Ok(())
}

#[test]
fn code_has_its_reached_offsets_and_leaders(rt: HostRuntime) -> Result<(), Fail> {
    let cases: &[(&str, &[u32], &[u32])] = &[
        ("", &[], &[]),
        ("9090c3", &[0, 1, 2], &[0, 0, 0]),
        // behind the last byte
        ("90", &[0], &[0]),
        // invalid, and too short
        ("06c3", &[0], &[0]),
        ("90e8", &[0, 1], &[0, 0]),
        // ud2, jmp rax
        ("0f0bc3", &[0], &[0]),
        ("ffe0c3", &[0], &[0]),
        // int3, syscall, call rax
        ("ccc3", &[0, 1], &[0, 0]),
        ("0f05c3", &[0, 2], &[0, 0]),
        ("ffd0c3", &[0, 2], &[0, 0]),
        // a jump behind the bytes, and a call as the last instruction, behind them and back
        ("eb01c3", &[0], &[0]),
        ("e800000000", &[0], &[0]),
        ("e8fbffffff", &[0], &[0]),
        // a conditional jump, a jump and a call
        ("74010fc3", &[0, 2, 3], &[0, 2, 3]),
        ("eb01ccc3", &[0, 3], &[0, 3]),
        ("e801000000c3c3", &[0, 5, 6], &[0, 5, 6]),
        // the target is the end: one successor
        ("7400c3", &[0, 2], &[0, 0]),
        ("eb00c3", &[0, 2], &[0, 0]),
        // into the middle of the jump: inc eax
        ("ebffc0c3", &[0, 1, 3], &[0, 1, 1]),
        // back to the first byte
        ("90ebfd", &[0, 1], &[0, 0]),
        ("9074fdc3", &[0, 1, 3], &[0, 0, 3]),
        // to itself
        ("ebfe", &[0], &[0]),
        ("90ebfe", &[0, 1], &[0, 1]),
        ("74fec3", &[0, 2], &[0, 2]),
        // a join: from a branch and from the instruction before it, which goes on or jumps
        ("74019090c3", &[0, 2, 3, 4], &[0, 2, 3, 3]),
        ("7402eb00c3", &[0, 2, 4], &[0, 2, 4]),
        // a join by a jump back, behind two that go on
        ("909090ebfc", &[0, 1, 2, 3], &[0, 1, 1, 1]),
    ];
    for (digits, starts, leaders) in cases {
        let graph = graph_of(rt.alloc(), Bits::B64, 0x40_1000, digits);
        reaches(&rt, digits, graph, starts, leaders)?;
    }
    Ok(())
}

/// That the offsets that are reached in some code have these flows.
fn has_flows(rt: &impl Abort, graph: &FlowGraph, flows: &[Result<Flow, DecodeError>], code: &str) {
    same_items(rt, code, graph.flows(), flows);
}

/// That the offsets that are reached in 64-bit code have these flows.
fn flows_so(
    rt: &impl Abort,
    alloc: Global,
    code: &str,
    flows: &[Result<Flow, DecodeError>],
) -> Result<(), Fail> {
    let graph = graph_of(alloc, Bits::B64, 0, code)?;
    has_flows(rt, &graph, flows, code);
    Ok(())
}

#[test]
fn each_reached_offset_has_its_flow(rt: HostRuntime) -> Result<(), Fail> {
    let cases: &[(&str, &[Result<Flow, DecodeError>])] = &[
        ("", &[]),
        (
            "74010fc3",
            &[
                Ok(Flow::ConditionalBranch),
                Err(DecodeError::TooShort),
                Ok(Flow::Return),
            ],
        ),
        (
            "eb010606",
            &[Ok(Flow::UnconditionalBranch), Err(DecodeError::Invalid)],
        ),
        // call rax, int3, and a jump back to the first byte
        (
            "ffd0ccebfb",
            &[
                Ok(Flow::IndirectCall),
                Ok(Flow::Interrupt),
                Ok(Flow::UnconditionalBranch),
            ],
        ),
        (
            "e801000000900f0b",
            &[Ok(Flow::Call), Ok(Flow::Next), Ok(Flow::Exception)],
        ),
    ];
    for (digits, flows) in cases {
        flows_so(&rt, rt.alloc(), digits, flows)?;
    }
    Ok(())
}

// 64-bit code at 0x401000 from several first offsets: those outside the code, and those that stand there again, add nothing.
#[test]
fn several_entries_have_one_graph(rt: HostRuntime) -> Result<(), Fail> {
    let cases: &[(&str, &[u32], &[u32], &[u32])] = &[
        ("", &[0], &[], &[]),
        ("9090c3", &[], &[], &[]),
        ("9090c3", &[1], &[1, 2], &[1, 1]),
        ("9090c3", &[3, 0x8000_0000], &[], &[]),
        // in the midst of a basic block, which it parts
        ("9090c3", &[0, 1], &[0, 1, 2], &[0, 1, 1]),
        ("9090c3", &[1, 3, 0, 1], &[0, 1, 2], &[0, 1, 1]),
        // behind a return, and into an instruction: ret; mov eax, 0xc3
        ("c3b8c3000000", &[0, 2], &[0, 2], &[0, 2]),
        // control comes to the other by a jump back to it
        ("9090ebfd", &[2], &[1, 2], &[1, 2]),
        ("9090ebfd", &[0, 2], &[0, 1, 2], &[0, 1, 2]),
        // a join of two functions: jmp to the ret, nop, ret
        ("eb0190c3", &[2, 0], &[0, 2, 3], &[0, 2, 3]),
    ];
    for (digits, entries, starts, leaders) in cases {
        let graph = graph_from(rt.alloc(), 0x40_1000, digits, entries);
        reaches(&rt, digits, graph, starts, leaders)?;
    }
    Ok(())
}

/// `nop`, a call that is too short behind it, and `push es`, which is no instruction of 64-bit mode.
const FLOWS: &[Result<Flow, DecodeError>] = &[
    Ok(Flow::Next),
    Err(DecodeError::TooShort),
    Err(DecodeError::Invalid),
];

#[test]
fn several_entries_have_their_flows(rt: HostRuntime) -> Result<(), Fail> {
    let graph = graph_from(rt.alloc(), 0, "90e806", &[2, 0])?;
    has_flows(&rt, &graph, FLOWS, "90e806");
    Ok(())
}

/// What control reaches in bytes of a mode that is given as a value.
fn graph_in(alloc: Global, bits: Bits, base: u64, digits: &str) -> Result<FlowGraph, Fail> {
    let bytes = hex::decode(alloc, digits)?;
    if bytes.len() > 16 {
        return Err(Fail::new("there are more than 16 bytes"));
    }
    Ok(flow_graph_in(alloc, bits, base, &bytes)?)
}

// A jump forth to ret, and one back to the first byte.
#[test]
fn targets_go_around_the_address_space(rt: HostRuntime) -> Result<(), Fail> {
    for (bits, base) in &[
        (Bits::B16, 0xFFFE),
        (Bits::B16, 0x1_FFFE),
        (Bits::B32, 0xFFFF_FFFE),
        (Bits::B64, 0xFFFF_FFFF_FFFF_FFFE),
    ] {
        let forth = graph_in(rt.alloc(), *bits, *base, "eb01ccc3");
        reaches(&rt, "eb01ccc3", forth, &[0, 3], &[0, 3])?;
        let back = graph_in(rt.alloc(), *bits, *base, "9090ebfc");
        reaches(&rt, "9090ebfc", back, &[0, 1, 2], &[0, 0, 0])?;
    }
    Ok(())
}

// `inc eax` and `ret`, or `ret` with a REX prefix; a call to its end, of three bytes or of five.
#[test]
fn each_mode_reads_its_own_code(rt: HostRuntime) -> Result<(), Fail> {
    let cases: &[(Bits, &str, &[u32], &[u32])] = &[
        (Bits::B16, "40c3", &[0, 1], &[0, 0]),
        (Bits::B32, "40c3", &[0, 1], &[0, 0]),
        (Bits::B64, "40c3", &[0], &[0]),
        (Bits::B16, "e800000000c3", &[0, 3, 5], &[0, 0, 0]),
        (Bits::B32, "e800000000c3", &[0, 5], &[0, 0]),
    ];
    for (bits, digits, starts, leaders) in cases {
        let graph = graph_of(rt.alloc(), *bits, 0x100, digits);
        reaches(&rt, digits, graph, starts, leaders)?;
    }
    Ok(())
}
