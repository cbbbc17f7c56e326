//! What each module says of one instruction, and what is made of a few bytes.

ghost use Rattle.std.specs.Prelude.{◌≤◌, length};
ghost use Rattle.feddurzai.specs.Detours.{IsDetourAnswer};

use feddurzai::codes::JNE_REL8;
use feddurzai::decoding::{decode_in, read_items};
use feddurzai::encoding::{NoSpelling, encode, encoded_len};
use feddurzai::flow::{flow_graph_in, graph_of_code_from};
use feddurzai::format::Intel;
use feddurzai::hooks::{Detour, DetourError, Hooks, JumpForm, StartTarget, detour};
use feddurzai::info::laws::well_formed_codes_are_in_the_table;
use feddurzai::info::{Flow, flow_of};
use feddurzai::measuring::{Kind, Shape, ShapeFlow, measure};
use feddurzai::moving::move_block;
use feddurzai::region::{NotTaken, Region};
use feddurzai::rows::code_of;
use feddurzai::slots::StepSlots;
use feddurzai::streams::{MemSink, MemSource, info_stream};
use feddurzai::values::{Bits, Code, Instr};
use std::alloc::Global;
use std::fmt::Debug;
use std::process::Abort;
use std::test::Fail;

/// That what was found is what is wanted of something.
fn same<T: PartialEq + Debug>(rt: &impl Abort, of: &str, found: &T, want: &T) {
    assert_eq!(rt; found, want, "{of}");
}

/// That the items that were found are those that are wanted of something.
fn same_items<T: PartialEq + Debug>(rt: &impl Abort, of: &str, found: &[T], want: &[T]) {
    assert_eq!(rt; found, want, "{of}");
}

/// The row `o64 75 cb` of `jne` by its code.
const JNE: Code = Code(169);

/// `jne` over 16 bytes.
const BRANCH: &[u8] = &[0x75, 0x10];

/// The instruction at 1000 in 64-bit mode.
fn read(bytes: &[u8]) -> Result<Instr, Fail> {
    Ok(decode_in(Bits::B64, 0x1000, bytes)?.instr)
}

/// The flow of the instruction at 1000 in 64-bit mode.
fn flow(bytes: &[u8]) -> Result<Flow, Fail> {
    well_formed_codes_are_in_the_table();
    let instr = decode_in(Bits::B64, 0x1000, bytes)?.instr;
    Ok(flow_of(instr.code))
}

/// That the instruction at 1000 in 64-bit mode has this text in Intel's style.
fn is_shown(rt: &impl Abort, alloc: Global, bytes: &[u8], text: &str) -> Result<(), Fail> {
    let bits = Bits::B64;
    let instr = decode_in(bits, 0x1000, bytes)?.instr;
    let shown = Intel { bits, instr }.to_string(alloc)?;
    same(rt, "the text", &shown.as_str(), &text);
    Ok(())
}

/// That an instruction at 1000 has these bytes.
fn is_written(rt: &impl Abort, instr: &Instr, bytes: &[u8]) -> Result<(), Fail> {
    let encoded = encode(Bits::B64, 0x1000, instr)?;
    same_items(rt, "the bytes", &encoded, bytes);
    Ok(())
}

/// That an instruction cannot reach its target from an address.
fn is_too_far(rt: &impl Abort, ip: u64, instr: &Instr) {
    let len = encoded_len(Bits::B64, ip, instr);
    same(rt, "the length", &len, &Err(NoSpelling::Target));
}

/// What the stream of one instruction at 1000 writes of what it does.
fn info_line(alloc: Global, bytes: &[u8]) -> Result<Vec<u8>, Fail> {
    let mut source = MemSource::new(bytes);
    let mut lines = MemSink::new(alloc, 80)?;
    if info_stream::<64, _, _>(0x1000, &mut source, &mut lines) != Ok(1) {
        return Err(Fail::new("the stream has not one line"));
    }
    Ok(lines.bytes().to_vec(alloc)?)
}

// What each module says of one instruction is the manual's.
#[test]
fn an_instruction_is_read_told_and_written(rt: HostRuntime) -> Result<(), Fail> {
    let instr = read(BRANCH)?;
    same(&rt, "the row", &instr.code, &JNE);
    same(&rt, "the row of the name", &code_of("jne", 2), &Some(JNE));
    same(&rt, "the row of the constant", &JNE_REL8, &JNE);
    same(&rt, "the flow", &flow(BRANCH)?, &Flow::ConditionalBranch);
    is_shown(&rt, rt.alloc(), BRANCH, "jne 0x1012")?;
    is_written(&rt, &instr, BRANCH)?;
    is_too_far(&rt, 0x2000, &instr);
    let line = info_line(rt.alloc(), BRANCH)?;
    let want = b"0000000000001000 ConditionalBranch r -> 0x1012\n";
    same_items(&rt, "the line", &line, want);
    Ok(())
}

// `vaddps zmm0, zmm0, zmm1`, which the table leaves out.
#[test]
fn an_instruction_without_a_row_is_measured(rt: HostRuntime) {
    let shape = measure(Bits::B64, &[0x62, 0xf1, 0x7c, 0x48, 0x58, 0xc1]);
    let want = Shape {
        len: 6,
        kind: Kind::Evex,
        flow: ShapeFlow::Next,
        relative: None,
    };
    same(&rt, "the shape", &shape, &Ok(want));
}

/// The bytes of the branch at 1000, moved.
fn moved_branch(alloc: Global, new_base: u64) -> Result<String, Fail> {
    let code = read_items(alloc, Bits::B64, 0x1000, BRANCH)?;
    let moved = move_block(alloc, code.bits(), code.placed(), new_base)?;
    Ok(hex::encode(alloc, moved.bytes())?)
}

/// That control reaches only the first byte of the branch at 1000.
fn is_followed(rt: &impl Abort, alloc: Global) -> Result<(), Fail> {
    let graph = flow_graph_in(alloc, Bits::B64, 0x1000, &[0x75, 0x10])?;
    same_items(rt, "the starts", graph.starts(), &[0]);
    Ok(())
}

/// That control reaches only the second byte of the branch at 1000 from there.
fn is_followed_from_its_middle(rt: &impl Abort, alloc: Global) -> Result<(), Fail> {
    let graph = graph_of_code_from(alloc, Bits::B64, 0x1000, &[0x75, 0x10], &[1])?;
    same_items(rt, "the starts", graph.starts(), &[1]);
    Ok(())
}

// The same branch moved beyond the reach of 32 bits, and followed from its own start and from the middle of it.
#[test]
fn code_is_moved_and_followed(rt: HostRuntime) -> Result<(), Fail> {
    let image = moved_branch(rt.alloc(), 0x7fff_0000_0000)?;
    let want = "7406ff25000000001210000000000000";
    same(&rt, "the bytes", &image.as_str(), &want);
    is_followed(&rt, rt.alloc())?;
    is_followed_from_its_middle(&rt, rt.alloc())
}

/// The place of six bytes in an empty region.
fn first_place(alloc: Global) -> Result<u64, Fail> {
    let mut region = Region::make(alloc, 0x2000, 64, 2)?;
    Ok(region.place(6)?)
}

/// What the finish of a slot is answered where there is none.
fn no_finish(alloc: Global, place: u64) -> Result<Result<(), NotTaken>, Fail> {
    let mut slots = StepSlots::make(alloc, Bits::B64, 0x2000, 64, 2)?;
    Ok(slots.finish(place))
}

#[test]
fn places_and_slots_are_made(rt: HostRuntime) -> Result<(), Fail> {
    same(&rt, "the place", &first_place(rt.alloc())?, &0x2000);
    let place = 0x2000;
    let want = Err(NotTaken { place });
    same(&rt, "the finish", &no_finish(rt.alloc(), place)?, &want);
    Ok(())
}

/// `xor eax, eax`, `cmp eax, 5` and `ret`.
const CODE: [u8; 6] = [0x31, 0xC0, 0x83, 0xF8, 0x05, 0xC3];

/// The detour of some code at 1000 to 5000, whose trampoline stands at 2000.
fn detour_to_5000(
    alloc: Global,
    bits: Bits,
    code: &[u8],
    start: StartTarget,
) -> Result<Detour, DetourError>
    requires { length code.now ≤ 1048576 }
    ensures { IsDetourAnswer bits 0x1000 code.now 0x5000 0x2000 start result }
{
    detour(alloc, bits, 0x1000, code, 0x5000, 0x2000, start)
}

/// The detour of the code at 1000, whose trampoline stands at 2000.
fn detour_of_code(alloc: Global) -> Result<Detour, DetourError> {
    detour_to_5000(alloc, Bits::B64, &CODE, StartTarget::Moved)
}

/// The place of a hook of the code at 1000, and the bytes of the range of hooks.
fn hook_of_code(alloc: Global) -> Result<(u64, Vec<u8>), Fail> {
    let mut hooks = Hooks::make(alloc, Bits::B64, 0x2000, 32, 16)?;
    let place = hooks.install(alloc, 0x1000, &CODE, 0x5000, StartTarget::Moved)?;
    Ok((place, hooks.image().to_vec(alloc)?))
}

/// The first two instructions of the code at 2000, and the jump back from 200A to 1005.
const TRAMPOLINE: &[u8] = b"\x31\xc0\x83\xf8\x05\xe9\xfb\xef\xff\xff";

// A hook takes the first two instructions of the code.
#[test]
fn hooks_are_made(rt: HostRuntime) -> Result<(), Fail> {
    let made = detour_of_code(rt.alloc())?;
    let found = (made.form(), made.taken());
    same(&rt, "the detour", &found, &(JumpForm::Near, 5));
    let (place, image) = hook_of_code(rt.alloc())?;
    same(&rt, "the place", &place, &0x2000);
    same_items(&rt, "the trampoline", made.trampoline(), TRAMPOLINE);
    let found = image.get(..TRAMPOLINE.len());
    same(&rt, "the range", &found, &Some(TRAMPOLINE));
    Ok(())
}
