//! Lines of the flow of control, of maps and of made code.

use crate::tests::outcomes::all_write;
use std::test::Fail;

/// Commands, code, and the lines of its map or of what control reaches.
const FLOW_AND_MAPS: &str = "
map 64 1000 2000 | ebfe | 0000000000001000 0000000000002000 short
map 64 1000 7fff00000000 | 7410 | 0000000000001000 00007fff00000000 far
map 64 1000 2000 | - | -
flow 64 0 | - | -
flow 64 0 | 74010fc3 | 0000000000000000 0000000000000000 ConditionalBranch / 0000000000000002 0000000000000002 too short / 0000000000000003 0000000000000003 Return
flow 64 0 | eb01ccc3 | 0000000000000000 0000000000000000 UnconditionalBranch / 0000000000000003 0000000000000003 Return
flow 64 0 | 9090c3 | 0000000000000000 0000000000000000 Next / 0000000000000001 0000000000000000 Next / 0000000000000002 0000000000000000 Return
# nop; push es, which 64-bit mode does not have
flow 32 0 | 9006 | 00000000 00000000 Next / 00000001 00000000 Next
flow 64 0 | 9006 | 0000000000000000 0000000000000000 Next / 0000000000000001 0000000000000000 invalid
# int3; call rax; ud2; and jmp eax
flow 64 7f0000001000 | ccffd00f0b90 | 00007f0000001000 00007f0000001000 Interrupt / 00007f0000001001 00007f0000001000 IndirectCall / 00007f0000001003 00007f0000001000 Exception
flow 32 1000 | ffe090 | 00001000 00001000 IndirectBranch
# A jump into the middle of another instruction: mov eax, 0x909090c3; je to its second byte, which is ret; ret.
flow 64 0 | b8c390909074fac3 | 0000000000000000 0000000000000000 Next / 0000000000000001 0000000000000001 Return / 0000000000000005 0000000000000000 ConditionalBranch / 0000000000000007 0000000000000007 Return
flow 32 100 | b8c390909074fac3 | 00000100 00000100 Next / 00000101 00000101 Return / 00000105 00000100 ConditionalBranch / 00000107 00000107 Return
# The same bytes: mov ax, 0x90c3; nop; nop.
flow 16 100 | b8c390909074fac3 | 0100 0100 Next / 0101 0101 Return / 0103 0100 Next / 0104 0100 Next / 0105 0100 ConditionalBranch / 0107 0107 Return
# A loop back to the first byte: dec eax; jne; ret. In 64-bit mode the first byte is a REX of the jne.
flow 16 0 | 4875fdc3 | 0000 0000 Next / 0001 0000 ConditionalBranch / 0003 0003 Return
flow 32 0 | 4875fdc3 | 00000000 00000000 Next / 00000001 00000000 ConditionalBranch / 00000003 00000003 Return
flow 64 0 | 4875fdc3 | 0000000000000000 0000000000000000 ConditionalBranch / 0000000000000003 0000000000000003 Return
# A target behind the end of the address space: two bytes behind the end of the jump.
flow 16 FFFC | e90200ccccc3 | fffc fffc UnconditionalBranch / 0001 0001 Return
flow 32 FFFFFFFC | e902000000ccccc3 | fffffffc fffffffc UnconditionalBranch / 00000003 00000003 Return
flow 64 FFFFFFFFFFFFFFFC | e902000000ccccc3 | fffffffffffffffc fffffffffffffffc UnconditionalBranch / 0000000000000003 0000000000000003 Return
# jmp over nop and ret to a call of the nop, whose last byte is the last.
flow 16 1000 | eb0290c3e8fbff | 1000 1000 UnconditionalBranch / 1002 1002 Next / 1003 1002 Return / 1004 1004 Call
flow 32 1000 | eb0290c3e8f9ffffff | 00001000 00001000 UnconditionalBranch / 00001002 00001002 Next / 00001003 00001002 Return / 00001004 00001004 Call
flow 64 1000 | eb0290c3e8f9ffffff | 0000000000001000 0000000000001000 UnconditionalBranch / 0000000000001002 0000000000001002 Next / 0000000000001003 0000000000001002 Return / 0000000000001004 0000000000001004 Call
# xor ecx, ecx; inc ecx, to which loop comes back too; nop, which follows it alone; loop; ret.
flow 16 0 | 31c9ffc190e2fbc3 | 0000 0000 Next / 0002 0002 Next / 0004 0002 Next / 0005 0002 ConditionalBranch / 0007 0007 Return
flow 32 0 | 31c9ffc190e2fbc3 | 00000000 00000000 Next / 00000002 00000002 Next / 00000004 00000002 Next / 00000005 00000002 ConditionalBranch / 00000007 00000007 Return
flow 64 0 | 31c9ffc190e2fbc3 | 0000000000000000 0000000000000000 Next / 0000000000000002 0000000000000002 Next / 0000000000000004 0000000000000002 Next / 0000000000000005 0000000000000002 ConditionalBranch / 0000000000000007 0000000000000007 Return
";

#[test]
fn maps_and_reached_offsets_have_their_lines(rt: HostRuntime) -> Result<(), Fail> {
    all_write(&rt, rt.alloc(), FLOW_AND_MAPS)
}

/// Commands, an input that they do not read, and the numbers of made code.
const SAMPLES: &str = "
sample 1 | 0f04 | instructions 1 / bytes 7 / text 78 / moved 7 / grown 0 / sum 824
sample 10000 | 0f04 | instructions 65536 / bytes 245136 / text 4321020 / moved 269692 / grown 6139 / sum 36579573
sample 00010000 | 0f04 | instructions 65536 / bytes 245136 / text 4321020 / moved 269692 / grown 6139 / sum 36579573
";

// The numbers are those of another generator, and of the listing and the map of the code that it made.
#[test]
fn made_code_has_its_numbers(rt: HostRuntime) -> Result<(), Fail> {
    all_write(&rt, rt.alloc(), SAMPLES)
}
