//! The generator.

ghost use Rattle.std.specs.Prelude.{◌≡◌, ◌+◌, ◌-◌, ◌*◌, ◌<◌, ◌≤◌, ◌^◌, ◌++◌, OnOk, IfOk};
ghost use Rattle.plain_spelling.specs.Values.{low_bytes};
ghost use Rattle.listing_run.specs.SampleRun.Generator as spec;

use arrayvec::ArrayVec;
use plain_spelling::numbers::append_low_bytes;
use std::alloc::{AllocError, Global};

/// The address of the first byte of made code.
pub const CODE_BASE: u64 = 0x40_0000;

/// Returns the state after another one.
#[tactic(auto, unfolding(crate::specs::SampleRun::Generator::next_state))]
fn next_state(state: u64) -> u64
    ensures { result ≡ spec.next_state state }
{
    state
        .wrapping_mul(6_364_136_223_846_793_005)
        .wrapping_add(1_442_695_040_888_963_407)
}

/// Appends some bytes, and after them a number in four bytes, lowest first.
fn append_with_number(code: &mut Vec<u8>, front: &[u8], number: u64) -> Result<(), AllocError>
    ensures { OnOk result (code.new.items ≡ code.old.items ++ (front.now ++ low_bytes 4 number)) }
{
    let mut bytes = ArrayVec::new();
    append_low_bytes(&mut bytes, 4, number);
    code.extend_from_slice(front)?;
    code.extend_from_slice(&bytes)
}

/// Appends the instruction that a number draws.
#[tactic(auto, unfolding(crate::specs::SampleRun::Generator::instr_bytes, crate::specs::SampleRun::Generator::kind_bytes))]
fn append_instruction(code: &mut Vec<u8>, drawn: u64) -> Result<(), AllocError>
    ensures { OnOk result (code.new.items ≡ code.old.items ++ spec.instr_bytes drawn) }
{
    let rest = drawn / 8;
    match drawn % 8 {
        0 => code.extend_from_slice(&[0x90]),
        1 => code.extend_from_slice(&[0x48, 0x89, 0xC0 + (rest % 64) as u8]),
        2 => append_with_number(code, &[0xB8 + (rest % 8) as u8], drawn),
        3 => code.extend_from_slice(&[0x8B, 0x43, (rest % 256) as u8]),
        4 => code.extend_from_slice(&[0x75, (rest % 256) as u8]),
        5 => append_with_number(code, &[0xE8], rest % 65_536),
        6 => append_with_number(code, &[0x48, 0x8B, 0x05], rest % 65_536),
        _ => code.extend_from_slice(&[0xC5, 0xF8, 0x58, 0xC0 + (rest % 64) as u8]),
    }
}

/// Returns the bytes of `count` instructions that the generator draws, starting from the state `count`.
#[tactic(auto, unfolding(crate::specs::SampleRun::Generator::drawn_number, crate::specs::SampleRun::Generator::sample_code))]
pub fn sample_code(alloc: Global, count: u32) -> Result<Vec<u8>, AllocError>
    ensures { IfOk result (λ code. code.items ≡ spec.sample_code count) }
{
    let mut code = Vec::new(alloc);
    let mut state = u64::from(count);
    for _ in 0..count {
        state = next_state(state);
        append_instruction(&mut code, state >> 33)?;
    }
    Ok(code)
}
