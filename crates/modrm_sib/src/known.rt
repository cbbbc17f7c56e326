//! The tail of a row that fits its state and ModRM with any SIB: only lengths are tested.

ghost use Rattle.std.specs.Prelude.{◌≡◌, ℕ, ◌<◌, ◌≤◌, true, false, IsTrue, IfSome, IsNone, Some, None, Ok};
ghost use Rattle.modrm_sib.specs.Answer as spec;
ghost use Rattle.modrm_sib.specs.Parts as parts;
ghost use Rattle.x86_values.specs.declared.Code.{Code};
ghost use Rattle.row_fit.specs.Fits as fits;
ghost use Rattle.row_fit.specs.Sound.{sound};
ghost use Rattle.instruction_parts.specs.Sizes.{state_size};
ghost use Rattle.row_meaning.specs.Given.{has_one_immediate};

use crate::parts::{modrm_of_byte, sib_of_byte};
use instruction_parts::row_types::Row;
use instruction_parts::sizes::state_address_size;
use instruction_parts::{ModRm, PrefixState, Sib};
use row_fit::fits::has_modrm;
use row_fit::tail_fits::needs_sib;
use row_meaning::given::{Given, given_instr_into};
use row_meaning::operands::Behind;
use x86_values::{Bits, Code, Decoded, wrap};

/// The most bytes of an instruction.
const LONGEST: usize = 15;

/// How far ModRM and SIB reach.
#[derive(Clone, Copy)]
struct Reach<'a> {
    /// The number of bytes before the rest.
    used: usize,
    /// The number of displacement bytes in the rest.
    disp: usize,
    rest: &'a [u8],
}

/// The bytes of a displacement that is no byte: 2 in 16-bit addressing, else 4.
#[inline(always)]
fn full_displacement(asize: Bits) -> usize
    ensures { result ≡ fits.full_displacement asize }
{
    match asize {
        Bits::B16 => 2,
        _ => 4,
    }
}

/// Returns whether mod 0 encodes a displacement alone.
#[inline(always)]
#[tactic(auto, unfolding(row_fit::specs::Fits::is_displacement_alone))]
fn is_alone(asize: Bits, m: ModRm, sib: Option<Sib>) -> bool
    ensures { result ≡ fits.is_displacement_alone asize m sib }
{
    m.mode3 == 0
        && match asize {
            Bits::B16 => m.rm == 6,
            _ => m.rm == 5 || (m.rm == 4 && matches!(sib, Some(s) if s.base == 5)),
        }
}

/// Returns the number of displacement bytes that ModRM and SIB require.
#[inline(always)]
#[tactic(auto, unfolding(row_fit::specs::Fits::displacement_bytes, row_fit::specs::Fits::is_displacement_alone))]
fn displacement_size(asize: Bits, m: ModRm, sib: Option<Sib>) -> usize
    ensures { result ≡ fits.displacement_bytes asize m sib }
{
    if m.mode3 == 1 {
        1
    } else if m.mode3 == 2 || is_alone(asize, m, sib) {
        full_displacement(asize)
    } else {
        0
    }
}

/// Reads ModRM, and the SIB if ModRM requires one; None if the bytes end.
#[inline(always)]
#[tactic(auto, unfolding(crate::specs::Answer::tail_answer, crate::specs::Answer::modrm_answer, crate::specs::Answer::behind_modrm_answer, crate::specs::Answer::sib_answer, crate::specs::Parts::takes_sib, crate::specs::Parts::displacement_len))]
fn parts_into<'a>(
    bits: Bits,
    row: &Row,
    state: &PrefixState,
    bytes: &'a [u8],
    behind: &mut Behind,
) -> Option<Reach<'a>>
    requires few { state.now.used < 15 }
    requires mode { fits.reads_mode row.now ≡ true }
    requires offset { fits.reads_by fits.is_offset row.now ≡ false }
    requires modrm { behind.old.modrm ≡ None }
    requires sib { behind.old.sib ≡ None }
    ensures answer { IfSome result (λ r. (ip : ℕ) (code : Code) → spec.tail_answer bits ip state.now code row.now bytes.now
        ≡ spec.rest_answer bits ip state.now code row.now behind.new.modrm behind.new.sib r.used r.rest.now) }
    ensures disp { IfSome result (λ r. r.disp ≡ parts.displacement_len bits row.now state.now behind.new.modrm behind.new.sib) }
    ensures modrm { IfSome result (λ _. IsTrue (fits.modrm_in_range behind.new.modrm)) }
    ensures sib { IfSome result (λ _. IsTrue (fits.sib_in_range behind.new.sib)) }
    ensures few { IfSome result (λ r. r.used < 18) }
    ensures given { IfSome result (λ _. behind.new.modrm ≡ parts.modrm_in row.now bytes.now) }
    ensures none { IsNone result → (ip : ℕ) (code : Code) → spec.IsOver (spec.tail_answer bits ip state.now code row.now bytes.now) }
{
    let used = state.used as usize + 1;
    if !has_modrm(row) {
        return Some(Reach {
            used,
            disp: 0,
            rest: bytes,
        });
    }
    match bytes.split_first() {
        None => None,
        Some((b, rest)) => {
            let m = modrm_of_byte(*b);
            behind.modrm = Some(m);
            let used = used + 1;
            let asize = state_address_size(bits, state);
            if !needs_sib(asize, m) {
                let disp = displacement_size(asize, m, None);
                return Some(Reach { used, disp, rest });
            }
            match rest.split_first() {
                None => None,
                Some((b, rest)) => {
                    let s = sib_of_byte(*b);
                    behind.sib = Some(s);
                    Some(Reach {
                        used: used + 1,
                        disp: displacement_size(asize, m, Some(s)),
                        rest,
                    })
                }
            }
        }
    }
}

/// Reads what follows the opcode byte of an instruction of at most 15 bytes, and writes the instruction to `out`; None if there is none.
// The parts are put where they are to stand: in a struct that is handed on they would be packed into one another.
#[inline(always)]
#[tactic(auto, unfolding(crate::specs::Answer::rest_answer, crate::specs::Answer::fitting_answer))]
pub(crate) fn read_known_tail(
    bits: Bits,
    ip: u64,
    state: &PrefixState,
    code: Code,
    row: &Row,
    size: Bits,
    immediates: u8,
    bytes: &[u8],
    out: &mut Decoded,
) -> Option<()>
    requires sound { IsTrue (sound row.now) }
    requires one { IsTrue (has_one_immediate row.now) }
    requires few { state.now.used < 15 }
    requires size { size ≡ state_size bits row.now state.now }
    requires known { parts.TellsLengths bits row.now state.now immediates }
    requires fitting { parts.KnownToFit bits row.now state.now bytes.now }
    ensures some { IfSome result (λ _. spec.tail_answer bits ip state.now code row.now bytes.now ≡ Ok out.new) }
    ensures short { IfSome result (λ _. out.new.len ≤ 15) }
    ensures none { IsNone result → spec.IsOver (spec.tail_answer bits ip state.now code row.now bytes.now) }
{
    let mut behind = Behind {
        modrm: None,
        sib: None,
        disp: &[],
        imm: &[],
        next: 0,
    };
    match parts_into(bits, row, state, bytes, &mut behind) {
        None => None,
        Some(reach) => {
            let more = reach.disp + immediates as usize;
            let len = reach.used + more;
            if len > LONGEST || reach.rest.len() < more {
                return None;
            }
            let (disp, rest) = reach.rest.split_at(reach.disp);
            let (imm, _) = rest.split_at(immediates as usize);
            behind.disp = disp;
            behind.imm = imm;
            behind.next = wrap(bits, ip as u128 + len as u128);
            let given = Given {
                bits,
                size,
                l: row.l,
                behind: &behind,
            };
            given_instr_into(&given, code, row, state, &mut out.instr);
            out.len = len as u8;
            Some(())
        }
    }
}
