//! Registers by their names, their numbers and their sizes.

ghost use Rattle.std.specs.Prelude.{◌≡◌};
ghost use Rattle.x86_values.specs.Named as named;
ghost use Rattle.x86_values.specs.Registers as spec;

use crate::{Register, Segment};

/// The names of the manual (Intel SDM volume 1, 3.4.1 and 3.7.2.1; volume 2, table 3-1).
impl Register {
    pub const AL: Register = Register::Low8(0);

    pub const CL: Register = Register::Low8(1);

    pub const DL: Register = Register::Low8(2);

    pub const BL: Register = Register::Low8(3);

    pub const SPL: Register = Register::Low8(4);

    pub const BPL: Register = Register::Low8(5);

    pub const SIL: Register = Register::Low8(6);

    pub const DIL: Register = Register::Low8(7);

    pub const R8B: Register = Register::Low8(8);

    pub const R9B: Register = Register::Low8(9);

    pub const R10B: Register = Register::Low8(10);

    pub const R11B: Register = Register::Low8(11);

    pub const R12B: Register = Register::Low8(12);

    pub const R13B: Register = Register::Low8(13);

    pub const R14B: Register = Register::Low8(14);

    pub const R15B: Register = Register::Low8(15);

    pub const AH: Register = Register::High8(0);

    pub const CH: Register = Register::High8(1);

    pub const DH: Register = Register::High8(2);

    pub const BH: Register = Register::High8(3);

    pub const AX: Register = Register::R16(0);

    pub const CX: Register = Register::R16(1);

    pub const DX: Register = Register::R16(2);

    pub const BX: Register = Register::R16(3);

    pub const SP: Register = Register::R16(4);

    pub const BP: Register = Register::R16(5);

    pub const SI: Register = Register::R16(6);

    pub const DI: Register = Register::R16(7);

    pub const R8W: Register = Register::R16(8);

    pub const R9W: Register = Register::R16(9);

    pub const R10W: Register = Register::R16(10);

    pub const R11W: Register = Register::R16(11);

    pub const R12W: Register = Register::R16(12);

    pub const R13W: Register = Register::R16(13);

    pub const R14W: Register = Register::R16(14);

    pub const R15W: Register = Register::R16(15);

    pub const EAX: Register = Register::R32(0);

    pub const ECX: Register = Register::R32(1);

    pub const EDX: Register = Register::R32(2);

    pub const EBX: Register = Register::R32(3);

    pub const ESP: Register = Register::R32(4);

    pub const EBP: Register = Register::R32(5);

    pub const ESI: Register = Register::R32(6);

    pub const EDI: Register = Register::R32(7);

    pub const R8D: Register = Register::R32(8);

    pub const R9D: Register = Register::R32(9);

    pub const R10D: Register = Register::R32(10);

    pub const R11D: Register = Register::R32(11);

    pub const R12D: Register = Register::R32(12);

    pub const R13D: Register = Register::R32(13);

    pub const R14D: Register = Register::R32(14);

    pub const R15D: Register = Register::R32(15);

    pub const RAX: Register = Register::R64(0);

    pub const RCX: Register = Register::R64(1);

    pub const RDX: Register = Register::R64(2);

    pub const RBX: Register = Register::R64(3);

    pub const RSP: Register = Register::R64(4);

    pub const RBP: Register = Register::R64(5);

    pub const RSI: Register = Register::R64(6);

    pub const RDI: Register = Register::R64(7);

    pub const R8: Register = Register::R64(8);

    pub const R9: Register = Register::R64(9);

    pub const R10: Register = Register::R64(10);

    pub const R11: Register = Register::R64(11);

    pub const R12: Register = Register::R64(12);

    pub const R13: Register = Register::R64(13);

    pub const R14: Register = Register::R64(14);

    pub const R15: Register = Register::R64(15);

    pub const ES: Register = Register::Seg(Segment::Es);

    pub const CS: Register = Register::Seg(Segment::Cs);

    pub const SS: Register = Register::Seg(Segment::Ss);

    pub const DS: Register = Register::Seg(Segment::Ds);

    pub const FS: Register = Register::Seg(Segment::Fs);

    pub const GS: Register = Register::Seg(Segment::Gs);

    pub const CR0: Register = Register::Cr(0);

    pub const CR2: Register = Register::Cr(2);

    pub const CR3: Register = Register::Cr(3);

    pub const CR4: Register = Register::Cr(4);

    pub const CR8: Register = Register::Cr(8);

    pub const DR0: Register = Register::Dr(0);

    pub const DR1: Register = Register::Dr(1);

    pub const DR2: Register = Register::Dr(2);

    pub const DR3: Register = Register::Dr(3);

    pub const DR4: Register = Register::Dr(4);

    pub const DR5: Register = Register::Dr(5);

    pub const DR6: Register = Register::Dr(6);

    pub const DR7: Register = Register::Dr(7);

    pub const ST0: Register = Register::St(0);

    pub const ST1: Register = Register::St(1);

    pub const ST2: Register = Register::St(2);

    pub const ST3: Register = Register::St(3);

    pub const ST4: Register = Register::St(4);

    pub const ST5: Register = Register::St(5);

    pub const ST6: Register = Register::St(6);

    pub const ST7: Register = Register::St(7);

    pub const MM0: Register = Register::Mm(0);

    pub const MM1: Register = Register::Mm(1);

    pub const MM2: Register = Register::Mm(2);

    pub const MM3: Register = Register::Mm(3);

    pub const MM4: Register = Register::Mm(4);

    pub const MM5: Register = Register::Mm(5);

    pub const MM6: Register = Register::Mm(6);

    pub const MM7: Register = Register::Mm(7);

    pub const XMM0: Register = Register::Xmm(0);

    pub const XMM1: Register = Register::Xmm(1);

    pub const XMM2: Register = Register::Xmm(2);

    pub const XMM3: Register = Register::Xmm(3);

    pub const XMM4: Register = Register::Xmm(4);

    pub const XMM5: Register = Register::Xmm(5);

    pub const XMM6: Register = Register::Xmm(6);

    pub const XMM7: Register = Register::Xmm(7);

    pub const XMM8: Register = Register::Xmm(8);

    pub const XMM9: Register = Register::Xmm(9);

    pub const XMM10: Register = Register::Xmm(10);

    pub const XMM11: Register = Register::Xmm(11);

    pub const XMM12: Register = Register::Xmm(12);

    pub const XMM13: Register = Register::Xmm(13);

    pub const XMM14: Register = Register::Xmm(14);

    pub const XMM15: Register = Register::Xmm(15);

    pub const YMM0: Register = Register::Ymm(0);

    pub const YMM1: Register = Register::Ymm(1);

    pub const YMM2: Register = Register::Ymm(2);

    pub const YMM3: Register = Register::Ymm(3);

    pub const YMM4: Register = Register::Ymm(4);

    pub const YMM5: Register = Register::Ymm(5);

    pub const YMM6: Register = Register::Ymm(6);

    pub const YMM7: Register = Register::Ymm(7);

    pub const YMM8: Register = Register::Ymm(8);

    pub const YMM9: Register = Register::Ymm(9);

    pub const YMM10: Register = Register::Ymm(10);

    pub const YMM11: Register = Register::Ymm(11);

    pub const YMM12: Register = Register::Ymm(12);

    pub const YMM13: Register = Register::Ymm(13);

    pub const YMM14: Register = Register::Ymm(14);

    pub const YMM15: Register = Register::Ymm(15);
}

impl Register {
    /// Returns the number of the register in its class: 0 for AL, AH, AX, EAX and RAX alike.
    ///
    /// A segment register has its encoded number, 0 to 5 for ES, CS, SS, DS, FS and GS. EIP and RIP are the only ones of their class and have 0. An
    /// instruction encodes AH, CH, DH and BH as 4 more than their number (Intel SDM volume 2, table 2-2).
    pub const fn number(self) -> u8
        ensures { result ≡ spec.number self }
    {
        match self {
            Register::Low8(n)
            | Register::High8(n)
            | Register::R16(n)
            | Register::R32(n)
            | Register::R64(n)
            | Register::Cr(n)
            | Register::Dr(n)
            | Register::St(n)
            | Register::Mm(n)
            | Register::Xmm(n)
            | Register::Ymm(n) => n,
            Register::Seg(segment) => segment as u8,
            Register::Eip | Register::Rip => 0,
        }
    }

    /// Returns whether the register exists: its number is below the size of its class, which is 4 for the high byte registers, 8 for x87, MMX and
    /// debug registers, and 16 for all others.
    #[inline]
    #[tactic(auto, unfolding(crate::specs::Named::is_named))]
    pub const fn is_named(self) -> bool
        ensures { result ≡ named.is_named self }
    {
        match self {
            Register::Low8(n) => n < 16,
            Register::High8(n) => n < 4,
            Register::R16(n) | Register::R32(n) | Register::R64(n) => n < 16,
            Register::Cr(n) | Register::Xmm(n) | Register::Ymm(n) => n < 16,
            Register::Dr(n) | Register::St(n) | Register::Mm(n) => n < 8,
            Register::Seg(_) | Register::Eip | Register::Rip => true,
        }
    }

    /// Returns the size of the register in bytes: 1 to 32, and 10 for an x87 register.
    ///
    /// A control or debug register has 8, as in 64-bit mode (Intel SDM volume 2, 2.2.1.6); in the other modes it holds 4. A segment register has the
    /// 2 bytes of its selector.
    pub const fn size(self) -> usize
        ensures { result ≡ spec.size self }
    {
        match self {
            Register::Low8(_) | Register::High8(_) => 1,
            Register::R16(_) | Register::Seg(_) => 2,
            Register::R32(_) | Register::Eip => 4,
            Register::R64(_)
            | Register::Cr(_)
            | Register::Dr(_)
            | Register::Mm(_)
            | Register::Rip => 8,
            Register::St(_) => 10,
            Register::Xmm(_) => 16,
            Register::Ymm(_) => 32,
        }
    }
}
