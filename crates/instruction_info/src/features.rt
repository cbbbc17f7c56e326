//! The CPUID features that an instruction uses, and those that it needs.

ghost use Rattle.std.specs.Prelude.{⊤, ◌≡◌, ◌<◌, [], ◌∷◌, Some, codes};
ghost use Rattle.instruction_info.specs.Effects as spec;

use crate::effect::effect_at;
use bitflags::{Flag, Flags, bitflag_items};
use instruction_parts::row_types::{Map, Row, RowKind};
use opcode_rows::{ROWS, row_of};
use x86_values::{Code, Instr};

/// CPUID feature flags, each under its name in the manual (Intel SDM volume 2, CPUID). An instruction uses, or needs, all features of its set.
#[derive(Clone, Copy, PartialEq, Eq, Debug)]
pub struct Features(pub u64);

bitflag_items! {
    impl Features: u64 {
        const FPU = 0x1;
        const TSC = 0x2;
        const MSR = 0x4;
        const CX8 = 0x8;
        const SEP = 0x10;
        const CMOV = 0x20;
        const CLFSH = 0x40;
        const MMX = 0x80;
        const FXSR = 0x100;
        const SSE = 0x200;
        const SSE2 = 0x400;
        const SSE3 = 0x800;
        const PCLMULQDQ = 0x1000;
        const MONITOR = 0x2000;
        const SSSE3 = 0x4000;
        const FMA = 0x8000;
        const CX16 = 0x10000;
        const SSE41 = 0x20000;
        const SSE42 = 0x40000;
        const MOVBE = 0x80000;
        const POPCNT = 0x100000;
        const AES = 0x200000;
        const XSAVE = 0x400000;
        const AVX = 0x800000;
        const F16C = 0x1000000;
        const RDRAND = 0x2000000;
        const FSGSBASE = 0x4000000;
        const BMI1 = 0x8000000;
        const AVX2 = 0x10000000;
        const BMI2 = 0x20000000;
        const RDSEED = 0x40000000;
        const ADX = 0x80000000;
        const SMAP = 0x100000000;
        const CLFLUSHOPT = 0x200000000;
        const CET_SS = 0x400000000;
        const CET_IBT = 0x800000000;
        const XSAVEOPT = 0x1000000000;
        const LZCNT = 0x2000000000;
        const PREFETCHW = 0x4000000000;
        const SYSCALL = 0x8000000000;
        const RDTSCP = 0x10000000000;
    }
}

impl Flags for Features {
    type Bits = u64;

    ghost exact = { ⊤ };

    ghost table = { (codes "FPU", 0x1) ∷ (codes "TSC", 0x2) ∷ (codes "MSR", 0x4) ∷ (codes "CX8", 0x8) ∷ (codes "SEP", 0x10) ∷
        (codes "CMOV", 0x20) ∷ (codes "CLFSH", 0x40) ∷ (codes "MMX", 0x80) ∷ (codes "FXSR", 0x100) ∷ (codes "SSE", 0x200) ∷
        (codes "SSE2", 0x400) ∷ (codes "SSE3", 0x800) ∷ (codes "PCLMULQDQ", 0x1000) ∷ (codes "MONITOR", 0x2000) ∷
        (codes "SSSE3", 0x4000) ∷ (codes "FMA", 0x8000) ∷ (codes "CX16", 0x10000) ∷ (codes "SSE41", 0x20000) ∷
        (codes "SSE42", 0x40000) ∷ (codes "MOVBE", 0x80000) ∷ (codes "POPCNT", 0x100000) ∷ (codes "AES", 0x200000) ∷
        (codes "XSAVE", 0x400000) ∷ (codes "AVX", 0x800000) ∷ (codes "F16C", 0x1000000) ∷ (codes "RDRAND", 0x2000000) ∷
        (codes "FSGSBASE", 0x4000000) ∷ (codes "BMI1", 0x8000000) ∷ (codes "AVX2", 0x10000000) ∷ (codes "BMI2", 0x20000000) ∷
        (codes "RDSEED", 0x40000000) ∷ (codes "ADX", 0x80000000) ∷ (codes "SMAP", 0x100000000) ∷
        (codes "CLFLUSHOPT", 0x200000000) ∷ (codes "CET_SS", 0x400000000) ∷ (codes "CET_IBT", 0x800000000) ∷
        (codes "XSAVEOPT", 0x1000000000) ∷ (codes "LZCNT", 0x2000000000) ∷ (codes "PREFETCHW", 0x4000000000) ∷
        (codes "SYSCALL", 0x8000000000) ∷ (codes "RDTSCP", 0x10000000000) ∷ [] };

    ghost set_of = { λ f. f.0 };

    fn flags<'a>() -> &'a [Flag<Features>] {
        Features::FLAGS
    }

    fn bits(&self) -> u64 {
        self.0
    }

    fn from_bits_retain(bits: u64) -> Features {
        Features(bits)
    }
}

/// Returns the features that the manual's page names for a code below `ROWS`; none if every processor has the instruction.
///
/// Two forms of a row can use different features. VBROADCASTSS and VBROADCASTSD use AVX from memory, which this function returns, and AVX2 from a
/// register, which [`used_features`] returns. A hint uses a feature but does not need it: see [`needed_features`].
#[inline]
pub fn features_of(code: Code) -> Features
    requires { code.0 < ROWS }
    ensures { result.0 ≡ spec.features_of code.0 }
{
    Features(effect_at(code).features)
}

/// The features that the form without memory of a code below `ROWS` uses: those of `features_of` for all rows but a few.
#[inline]
fn register_features_of(code: Code) -> Features
    requires { code.0 < ROWS }
    ensures { result.0 ≡ spec.register_features_of code.0 }
{
    Features(effect_at(code).register_features)
}

/// Whether an operand is memory.
#[inline]
pub(crate) fn has_memory(instr: &Instr) -> bool
    ensures { result ≡ spec.names_memory instr.now }
{
    instr.ops.iter().any(|op| op.is_memory())
}

/// Returns the features that an instruction uses. Its code must be below `ROWS`.
///
/// These are the features of its row; if the two forms of a row use different features, those of the form at hand. A processor without one of them
/// refuses the instruction, or executes another in its place: a NOP, BSF or BSR.
#[tactic(auto, unfolding(crate::specs::Effects::used_features))]
pub fn used_features(instr: &Instr) -> Features
    requires { instr.now.code.0 < ROWS }
    ensures { result.0 ≡ spec.used_features instr.now }
{
    if has_memory(instr) {
        features_of(instr.code)
    } else {
        register_features_of(instr.code)
    }
}

/// Returns whether a row belongs to an opcode that is reserved for hints: 0F 0D and 0F 18 to 0F 1F.
#[inline]
fn is_hint(row: &Row) -> bool
    ensures { result ≡ spec.is_hint (Some row.now) }
{
    match (row.kind, row.map) {
        (RowKind::Legacy, Map::M0f) => row.opcode == 0x0D || row.opcode / 8 == 3,
        _ => false,
    }
}

/// The features that an instruction needs, whose row uses some.
#[inline]
#[tactic(auto, unfolding(crate::specs::Effects::needed_features))]
fn features_unless_hint(instr: &Instr) -> Features
    requires { instr.now.code.0 < ROWS }
    ensures { result.0 ≡ spec.needed_features instr.now }
{
    if is_hint(&row_of(instr.code)) {
        Features(0)
    } else {
        used_features(instr)
    }
}

/// Returns the features that an instruction needs. Its code must be below `ROWS`.
///
/// These are [`used_features`], or none for a hint. Prefetches, RDSSPD, RDSSPQ, ENDBR32 and ENDBR64 use a feature, but a processor without it
/// executes them as a NOP.
///
/// ```
/// println!(rt; "{}", needed_features(&add.instr).contains(Features::AVX))?; // false
/// ```
#[inline]
#[tactic(auto, using(crate::proofs::NoFeatures::needs_none))]
pub fn needed_features(instr: &Instr) -> Features
    requires { instr.now.code.0 < ROWS }
    ensures { result.0 ≡ spec.needed_features instr.now }
{
    let used = features_of(instr.code).0;
    let used_by_registers = register_features_of(instr.code).0;
    if used == 0 && used_by_registers == 0 {
        Features(0)
    } else {
        features_unless_hint(instr)
    }
}
