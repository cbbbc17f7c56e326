//! The flags that an instruction reads and changes.

ghost use Rattle.std.specs.Prelude.{⊤, ◌≡◌, ◌<◌, [], ◌∷◌, codes};
ghost use Rattle.instruction_info.specs.Effects as spec;

use crate::effect::effect_at;
use bitflags::{Flag, Flags, bitflag_items};
use opcode_rows::ROWS;
use x86_values::Code;

/// Flags, at their bits of EFLAGS (Intel SDM volume 1, 3.4.3), and the condition bits C0 to C3 of the x87 status word (8.1.3), at their bits of that
/// word plus 16: 24, 25, 26 and 30. IOPL has two bits.
#[derive(Clone, Copy, PartialEq, Eq, Debug)]
pub struct FlagSet(pub u32);

bitflag_items! {
    impl FlagSet: u32 {
        const CF = 0x1;
        const PF = 0x4;
        const AF = 0x10;
        const ZF = 0x40;
        const SF = 0x80;
        const TF = 0x100;
        const IF = 0x200;
        const DF = 0x400;
        const OF = 0x800;
        const IOPL = 0x3000;
        const NT = 0x4000;
        const RF = 0x10000;
        const VM = 0x20000;
        const AC = 0x40000;
        const VIF = 0x80000;
        const VIP = 0x100000;
        const ID = 0x200000;
        const C0 = 0x1000000;
        const C1 = 0x2000000;
        const C2 = 0x4000000;
        const C3 = 0x40000000;
    }
}

impl Flags for FlagSet {
    type Bits = u32;

    ghost exact = { ⊤ };

    ghost table = { (codes "CF", 0x1) ∷ (codes "PF", 0x4) ∷ (codes "AF", 0x10) ∷ (codes "ZF", 0x40) ∷ (codes "SF", 0x80) ∷
        (codes "TF", 0x100) ∷ (codes "IF", 0x200) ∷ (codes "DF", 0x400) ∷ (codes "OF", 0x800) ∷ (codes "IOPL", 0x3000) ∷
        (codes "NT", 0x4000) ∷ (codes "RF", 0x10000) ∷ (codes "VM", 0x20000) ∷ (codes "AC", 0x40000) ∷ (codes "VIF", 0x80000) ∷
        (codes "VIP", 0x100000) ∷ (codes "ID", 0x200000) ∷ (codes "C0", 0x1000000) ∷ (codes "C1", 0x2000000) ∷
        (codes "C2", 0x4000000) ∷ (codes "C3", 0x40000000) ∷ [] };

    ghost set_of = { λ f. f.0 };

    fn flags<'a>() -> &'a [Flag<FlagSet>] {
        FlagSet::FLAGS
    }

    fn bits(&self) -> u32 {
        self.0
    }

    fn from_bits_retain(bits: u32) -> FlagSet {
        FlagSet(bits)
    }
}

/// What an instruction does to the flags. Flags that are in neither `written` nor `undefined` do not change.
#[derive(Clone, Copy, PartialEq, Eq, Debug)]
pub struct FlagUse {
    /// Those that what it does depends on.
    pub read: FlagSet,
    /// Those that it gives a value, with those that it always clears or sets.
    pub written: FlagSet,
    /// Those of `written` that become 0.
    pub cleared: FlagSet,
    /// Those of `written` that become 1.
    pub set: FlagSet,
    /// The flags that the manual leaves undefined after it.
    pub undefined: FlagSet,
    /// Those of `written` and `undefined` that some instructions of the row leave as they were: by a count of 0, or by a privilege that is missing.
    pub kept: FlagSet,
}

/// Returns what the instructions of a code below `ROWS` do to the flags.
///
/// ```
/// let add = decode_in(Bits::B64, 0x40_1000, b"\x01\xf8")?;
/// laws::well_formed_codes_are_in_the_table();
/// let flags = flags_of(add.instr.code);
/// println!(rt; "{}", flags.written.contains(FlagSet::ZF))?; // true
/// ```
#[inline]
pub fn flags_of(code: Code) -> FlagUse
    requires { code.0 < ROWS }
    ensures read { result.read.0 ≡ spec.flags_read code.0 }
    ensures written { result.written.0 ≡ spec.flags_written code.0 }
    ensures cleared { result.cleared.0 ≡ spec.flags_cleared code.0 }
    ensures set_ { result.set.0 ≡ spec.flags_set code.0 }
    ensures undefined { result.undefined.0 ≡ spec.flags_undefined code.0 }
    ensures kept { result.kept.0 ≡ spec.flags_kept code.0 }
{
    let effect = effect_at(code);
    FlagUse {
        read: FlagSet(effect.read),
        written: FlagSet(effect.written),
        cleared: FlagSet(effect.cleared),
        set: FlagSet(effect.set),
        undefined: FlagSet(effect.undefined),
        kept: FlagSet(effect.kept),
    }
}
