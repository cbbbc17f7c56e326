//! Instructions that the table leaves out: followed by control, and stepped. Their bytes and addresses are worked out manually after the manuals.

use crate::tests::compare::{same, same_items};
use decoder::DecodeError;
use flow_graph::{FlowGraph, Follow, flow_graph_following};
use operand_info::Flow;
use std::alloc::Global;
use std::process::Abort;
use std::test::Fail;
use step_slots::{UnlistedStepError, step_unlisted_at};
use unlisted::MeasureError;
use x86_values::Bits;

/// What control reaches from the first byte of some code.
fn graph_of(
    alloc: Global,
    follow: Follow,
    bits: Bits,
    base: u64,
    digits: &str,
) -> Result<FlowGraph, Fail> {
    let bytes = hex::decode(alloc, digits)?;
    if bytes.len() > 16 {
        return Err(Fail::new("there are more than 16 bytes"));
    }
    Ok(flow_graph_following(alloc, follow, bits, base, &bytes, &[0])?)
}

/// That control reaches these offsets, whose basic blocks have these leaders.
fn reaches(rt: &impl Abort, code: &str, graph: &FlowGraph, starts: &[u32], leaders: &[u32]) {
    same_items(rt, code, graph.starts(), starts);
    same_items(rt, code, graph.leaders(), leaders);
}

#[test]
fn control_goes_through_instructions_without_a_row(rt: HostRuntime) -> Result<(), Fail> {
    let cases: &[(Bits, u64, &str, &[u32], &[u32])] = &[
        // vmovaps zmm0, zmm1; ret
        (Bits::B64, 0x1000, "62f17c4828c1c3", &[0, 6], &[0, 0]),
        (Bits::B32, 0x1000, "62f17c4828c1c3", &[0, 6], &[0, 0]),
        (Bits::B16, 0x1000, "62f17c4828c1c3", &[0, 6], &[0, 0]),
        // vpxord zmm0, zmm0, [rip+0x10]
        (
            Bits::B64,
            0x1000,
            "62f17d48ef0510000000c3",
            &[0, 10],
            &[0, 0],
        ),
        // kandw k0, k0, k0; vfrczps xmm0, xmm1 (XOP); pfadd mm0, mm1; prefetchwt1 [rax]
        (Bits::B64, 0x1000, "c5fc41c0c3", &[0, 4], &[0, 0]),
        (Bits::B64, 0x1000, "8fe97880c1c3", &[0, 5], &[0, 0]),
        (Bits::B64, 0x1000, "0f0fc19ec3", &[0, 4], &[0, 0]),
        (Bits::B64, 0x1000, "0f0d10c3", &[0, 3], &[0, 0]),
        // xbegin over nop, to its own end, to itself, and behind the bytes
        (
            Bits::B64,
            0x1000,
            "c7f80100000090c3",
            &[0, 6, 7],
            &[0, 6, 7],
        ),
        (Bits::B64, 0x1000, "c7f800000000c3", &[0, 6], &[0, 0]),
        (Bits::B64, 0x1000, "c7f8faffffffc3", &[0, 6], &[0, 6]),
        (Bits::B64, 0x1000, "c7f810000000c3", &[0, 6], &[0, 0]),
        // with a distance of 32 or 16 bits
        (
            Bits::B32,
            0x1000,
            "c7f80100000090c3",
            &[0, 6, 7],
            &[0, 6, 7],
        ),
        (Bits::B32, 0x1000, "66c7f8010090c3", &[0, 5, 6], &[0, 5, 6]),
        (Bits::B16, 0x1000, "c7f8010090c3", &[0, 4, 5], &[0, 4, 5]),
        (
            Bits::B16,
            0x1000,
            "66c7f80100000090c3",
            &[0, 7, 8],
            &[0, 7, 8],
        ),
        // past the end of the address space
        (Bits::B16, 0xFFFC, "c7f8010090c3", &[0, 4, 5], &[0, 4, 5]),
        // among others: nop, vmovaps, and a jump back to the first byte
        (
            Bits::B64,
            0x1000,
            "9062f17c4828c1ebf7",
            &[0, 1, 7],
            &[0, 0, 0],
        ),
        // the bytes end inside an EVEX; no instruction
        (Bits::B64, 0x1000, "62f17c48", &[0], &[0]),
        (Bits::B64, 0x1000, "06c3", &[0], &[0]),
    ];
    for (bits, base, digits, starts, leaders) in cases {
        let graph = graph_of(rt.alloc(), Follow::Unlisted, *bits, *base, digits)?;
        reaches(&rt, digits, &graph, starts, leaders);
    }
    Ok(())
}

#[test]
fn control_ends_there_unless_it_is_asked_for(rt: HostRuntime) -> Result<(), Fail> {
    for digits in &["62f17c4828c1c3", "c7f80100000090c3", "8fe97880c1c3", "06c3"] {
        let graph = graph_of(rt.alloc(), Follow::Listed, Bits::B64, 0x1000, digits)?;
        reaches(&rt, digits, &graph, &[0], &[0]);
    }
    Ok(())
}

/// That the offsets that are reached in 64-bit code have these flows.
fn has_flows(
    rt: &impl Abort,
    alloc: Global,
    digits: &str,
    flows: &[Result<Flow, DecodeError>],
) -> Result<(), Fail> {
    let graph = graph_of(alloc, Follow::Unlisted, Bits::B64, 0, digits)?;
    same_items(rt, digits, graph.flows(), flows);
    Ok(())
}

#[test]
fn only_xbegin_branches(rt: HostRuntime) -> Result<(), Fail> {
    let cases: &[(&str, &[Result<Flow, DecodeError>])] = &[
        (
            "c7f80100000090c3",
            &[
                Ok(Flow::ConditionalBranch),
                Ok(Flow::Next),
                Ok(Flow::Return),
            ],
        ),
        (
            "62f17d48ef0510000000c3",
            &[Ok(Flow::Next), Ok(Flow::Return)],
        ),
        ("62f17c48", &[Err(DecodeError::Invalid)]),
    ];
    for (digits, flows) in cases {
        has_flows(&rt, rt.alloc(), digits, flows)?;
    }
    Ok(())
}

/// That an instruction at 0x1000 has this block at a place.
fn steps(
    rt: &impl Abort,
    alloc: Global,
    bits: Bits,
    digits: &str,
    place: u64,
    want: &str,
) -> Result<(), Fail> {
    let bytes = hex::decode(alloc, digits)?;
    let want = hex::decode(alloc, want)?;
    match step_unlisted_at(bits, 0x1000, &bytes, place) {
        Ok(step) => {
            same_items(rt, digits, &step.bytes, &want);
            same(rt, digits, &usize::from(step.len), &bytes.len());
            Ok(())
        }
        Err(_) => Err(Fail::new("there is no block")),
    }
}

// At 0x2000 each number is 0x1000 less; the jump back is to 0x1000 and the length.
#[test]
fn a_step_refers_to_the_same_address(rt: HostRuntime) -> Result<(), Fail> {
    let cases: &[(Bits, &str, &str)] = &[
        // vmovaps zmm0, zmm1
        (Bits::B64, "62f17c4828c1", "62f17c4828c1e9fbefffff"),
        (Bits::B32, "62f17c4828c1", "62f17c4828c1e9fbefffff"),
        (Bits::B16, "62f17c4828c1", "62f17c4828c1e9fdef"),
        // vpxord zmm0, zmm0, [rip+0x10], [eip+0x10]
        (
            Bits::B64,
            "62f17d48ef0510000000",
            "62f17d48ef0510f0ffffe9fbefffff",
        ),
        (
            Bits::B64,
            "6762f17d48ef0510000000",
            "6762f17d48ef0510f0ffffe9fbefffff",
        ),
        // an immediate behind the displacement: vpternlogd zmm0, zmm0, [rip+0x10], 0xff
        (
            Bits::B64,
            "62f37d48250510000000ff",
            "62f37d48250510f0ffffffe9fbefffff",
        ),
        // vfrczps xmm0, xmm1 (XOP); prefetchwt1 [rip+0x10]
        (Bits::B64, "8fe97880c1", "8fe97880c1e9fbefffff"),
        (Bits::B64, "0f0d1510000000", "0f0d1510f0ffffe9fbefffff"),
        // xbegin, with a distance of 32 or 16 bits
        (Bits::B64, "c7f801000000", "c7f801f0ffffe9fbefffff"),
        (Bits::B32, "c7f801000000", "c7f801f0ffffe9fbefffff"),
        (Bits::B32, "66c7f80100", "66c7f801f0e9fbefffff"),
        (Bits::B16, "c7f80100", "c7f801f0e9fdef"),
        (Bits::B16, "66c7f801000000", "66c7f801f00000e9fdef"),
    ];
    for (bits, digits, want) in cases {
        steps(&rt, rt.alloc(), *bits, digits, 0x2000, want)?;
    }
    Ok(())
}

/// That an instruction at 0x1000 has no block at a place, for this cause.
fn refuses(
    rt: &impl Abort,
    alloc: Global,
    bits: Bits,
    digits: &str,
    place: u64,
    why: UnlistedStepError,
) -> Result<(), Fail> {
    let bytes = hex::decode(alloc, digits)?;
    match step_unlisted_at(bits, 0x1000, &bytes, place) {
        Ok(_) => Err(Fail::new("there is a block")),
        Err(found) => {
            same(rt, digits, &found, &why);
            Ok(())
        }
    }
}

#[test]
fn a_step_is_refused(rt: HostRuntime) -> Result<(), Fail> {
    let cases: &[(Bits, &str, u64, UnlistedStepError)] = &[
        (
            Bits::B64,
            "90",
            0x2000,
            UnlistedStepError::NotMeasured(MeasureError::Unknown),
        ),
        (
            Bits::B64,
            "62f17c",
            0x2000,
            UnlistedStepError::NotMeasured(MeasureError::Ended),
        ),
        (
            Bits::B64,
            "62f17d48ef0510000000",
            0x1_0000_0000,
            UnlistedStepError::TooFar { target: 0x101a },
        ),
        (
            Bits::B64,
            "62f17c4828c1",
            0x1_0000_0000,
            UnlistedStepError::TooFar { target: 0x1006 },
        ),
        (
            Bits::B32,
            "66c7f80100",
            0x2_0000,
            UnlistedStepError::TooFar { target: 0x1006 },
        ),
        (
            Bits::B64,
            "62f17c4828c1",
            0xFFFF_FFFF_FFFF_FFF8,
            UnlistedStepError::Wraps {
                end: 0x1_0000_0000_0000_0003,
            },
        ),
        (
            Bits::B16,
            "c7f80100",
            0xFFFE,
            UnlistedStepError::Wraps { end: 0x1_0005 },
        ),
    ];
    for (bits, digits, place, why) in cases {
        refuses(&rt, rt.alloc(), *bits, digits, *place, *why)?;
    }
    Ok(())
}
