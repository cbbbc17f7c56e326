//! Reads the bytes after the opcode byte, part by part.

ghost use Rattle.std.specs.Prelude.{◌≡◌, ◌<◌, ◌≤◌, true, IsTrue, ℕ, IfOk, IfErr, Err};
ghost use Rattle.x86_values.specs.declared.Decoded.{Decoded};
ghost use Rattle.modrm_sib.specs.Answer as spec;
ghost use Rattle.modrm_sib.specs.Parts as parts;
ghost use Rattle.row_fit.specs.Fits as fits;
ghost use Rattle.instruction_parts.specs.Sizes.{state_size};
ghost use Rattle.row_fit.specs.Sound.{sound};

use crate::TailError;
use crate::ends::{some_modrm_fits, some_sib_fits};
use crate::parts::{displacement_len, modrm_of_byte, parts_fit, sib_of_byte, takes_sib};
use instruction_parts::row_types::Row;
use instruction_parts::sizes::state_size;
use instruction_parts::{ModRm, PrefixState, Sib};
use row_fit::fits::has_modrm;
use row_fit::tail_fits::immediates_bytes;
use row_meaning::operands::{Behind, instr_into};
use x86_values::{Bits, Code, Decoded, wrap};

/// Returns the error at the end of the bytes: whether more bytes can complete them.
#[inline]
fn at_end(can_go_on: bool) -> TailError
    ensures { spec.at_end can_go_on ≡ Err result }
{
    if can_go_on {
        TailError::Ended
    } else {
        TailError::Forbidden
    }
}

/// The number of bytes of the displacement: at most 8.
#[inline(always)]
fn short_displacement_len(
    bits: Bits,
    row: &Row,
    state: &PrefixState,
    m: Option<ModRm>,
    sib: Option<Sib>,
) -> u8
    ensures value { result ≡ parts.displacement_len bits row.now state.now m sib }
    ensures small { result ≤ 8 }
{
    displacement_len(bits, row, state, m, sib)
}

/// The number of bytes of a row's immediates: at most 8.
#[inline(always)]
fn immediates_len(bits: Bits, row: &Row, state: &PrefixState) -> u8
    requires { IsTrue (sound row.now) }
    ensures value { result ≡ fits.immediates_bytes (state_size bits row.now state.now) row.now }
    ensures small { result ≤ 8 }
{
    immediates_bytes(state_size(bits, row, state), row)
}

/// Reads what follows ModRM and SIB.
// An instruction is written where it is to stand, here and in the calls above: handed on as a value, it is copied by each of them.
#[inline(always)]
#[tactic(auto, unfolding(crate::specs::Answer::rest_answer, crate::specs::Answer::fitting_answer))]
fn read_rest(
    bits: Bits,
    ip: u64,
    state: &PrefixState,
    code: Code,
    row: &Row,
    head: &Head,
    out: &mut Decoded,
) -> Result<(), TailError>
    requires sound { IsTrue (sound row.now) }
    requires modrm { IsTrue (fits.modrm_in_range head.now.modrm) }
    requires sib { IsTrue (fits.sib_in_range head.now.sib) }
    requires few { head.now.used < 18 }
    ensures { spec.answer_in result out.new
        ≡ spec.rest_answer bits ip state.now code row.now head.now.modrm head.now.sib head.now.used head.now.rest.now }
{
    let Head {
        modrm: m,
        sib,
        used,
        rest: bytes,
    } = *head;
    if !parts_fit(bits, row, state, m, sib) {
        return Err(TailError::Forbidden);
    }
    let disp_len = short_displacement_len(bits, row, state, m, sib);
    let imm_len = immediates_len(bits, row, state);
    let behind = disp_len as usize + imm_len as usize;
    if bytes.len() < behind {
        return Err(TailError::Ended);
    }
    let (disp, rest) = bytes.split_at(disp_len as usize);
    let (imm, _) = rest.split_at(imm_len as usize);
    let len = used + (disp_len + imm_len);
    let next = wrap(bits, ip as u128 + len as u128);
    let behind = Behind {
        modrm: m,
        sib,
        disp,
        imm,
        next,
    };
    instr_into(bits, code, row, state, &behind, &mut out.instr);
    out.len = len;
    Ok(())
}

/// ModRM and SIB of a tail, and what follows them.
#[derive(Clone, Copy)]
pub(crate) struct Head<'a> {
    modrm: Option<ModRm>,
    sib: Option<Sib>,
    /// The number of bytes before the rest.
    used: u8,
    rest: &'a [u8],
}

/// Reads ModRM, and the SIB if ModRM requires one.
// Where the bytes end, a copy of the row is handed on: so the row itself need not stand in memory.
#[inline(always)]
#[tactic(auto, unfolding(crate::specs::Answer::tail_answer, crate::specs::Answer::modrm_answer, crate::specs::Answer::behind_modrm_answer, crate::specs::Answer::sib_answer))]
fn head_of<'a>(
    bits: Bits,
    state: &PrefixState,
    row: &Row,
    bytes: &'a [u8],
) -> Result<Head<'a>, TailError>
    requires { state.now.used < 15 }
    ensures ok { IfOk result (λ h. (ip : ℕ) (code : Code) → spec.tail_answer bits ip state.now code row.now bytes.now
        ≡ spec.rest_answer bits ip state.now code row.now h.modrm h.sib h.used h.rest.now) }
    ensures modrm { IfOk result (λ h. IsTrue (fits.modrm_in_range h.modrm)) }
    ensures sib { IfOk result (λ h. IsTrue (fits.sib_in_range h.sib)) }
    ensures few { IfOk result (λ h. h.used < 18) }
    ensures given { IfOk result (λ h. h.modrm ≡ parts.modrm_in row.now bytes.now) }
    ensures err { IfErr result (λ e. (ip : ℕ) (code : Code) → spec.tail_answer bits ip state.now code row.now bytes.now ≡ Err e) }
{
    let used = state.used + 1;
    if !has_modrm(row) {
        return Ok(Head {
            modrm: None,
            sib: None,
            used,
            rest: bytes,
        });
    }
    match bytes.split_first() {
        None => {
            let row = *row;
            Err(at_end(some_modrm_fits(bits, &row, state)))
        }
        Some((b, rest)) => {
            let m = modrm_of_byte(*b);
            let used = used + 1;
            if !takes_sib(bits, row, state, m) {
                return Ok(Head {
                    modrm: Some(m),
                    sib: None,
                    used,
                    rest,
                });
            }
            match rest.split_first() {
                None => {
                    let row = *row;
                    Err(at_end(some_sib_fits(bits, &row, state, m)))
                }
                Some((b, rest)) => Ok(Head {
                    modrm: Some(m),
                    sib: Some(sib_of_byte(*b)),
                    used: used + 1,
                    rest,
                }),
            }
        }
    }
}

/// Reads what follows the opcode byte: ModRM, the SIB if ModRM requires one, and the rest.
#[inline(always)]
pub(crate) fn read_tail(
    bits: Bits,
    ip: u64,
    state: &PrefixState,
    code: Code,
    row: &Row,
    bytes: &[u8],
    out: &mut Decoded,
) -> Result<(), TailError>
    requires sound { IsTrue (sound row.now) }
    requires few { state.now.used < 15 }
    ensures { spec.answer_in result out.new ≡ spec.tail_answer bits ip state.now code row.now bytes.now }
{
    match head_of(bits, state, row, bytes) {
        Err(error) => Err(error),
        Ok(head) => read_rest(bits, ip, state, code, row, &head, out),
    }
}
