//! Instructions that are prepared, to be added to routines.

ghost use Rattle.std.specs.Prelude.{◌≡◌, IfOk, IfErr, IfSome, IsNone, Ok, Err, None};
ghost use Rattle.plain_spelling.specs.declared.NoSpelling.{NoSpelling};
ghost use Rattle.encoder.specs.Encoding.{encoding};
ghost use Rattle.move_goals.specs.MovedTargets.Independent.{bytes_without};
ghost use Rattle.code_assembler.specs.Built.{own_address, encoding_refusal};

use crate::laws_below::laws_below;
use arrayvec::ArrayVec;
use encoder::{NoSpelling, encode};
use move_goals::Placed;
use move_goals::moved_targets::laws::without_target_encoded_alike;
use move_goals::moved_targets::target_of;
use std::marker::Model;
use x86_values::{Bits, Instr};

/// An instruction that can be added to routines of a mode any number of times, and is encoded only once.
///
/// ```
/// let mut routine = Assembler::new(rt.alloc(), Bits::B64);
/// let push = Prepared::new(Bits::B64, &read_intel(Bits::B64, 0, b"push rax")?)?;
/// routine.push_prepared(&push)?;
/// routine.push_prepared(&push)?;
/// let made = routine.finish(rt.alloc(), 0x40_1000)?;
/// println!(rt; "{}", hex::encode(rt.alloc(), made.bytes())?)?; // 5050
/// ```
#[derive(Drop)]
pub struct Prepared {
    pub(crate) bits: Bits,
    pub(crate) item: Placed,
    pub(crate) ready: ArrayVec<u8, 15>,
}

impl Model for Prepared {
    ghost use Rattle.code_assembler.specs.Prepared.{PreparedState, IsPrepared};

    ghost Value = { PreparedState };

    ghost view = { λ p. record { bits = p.bits; instr = p.item.instr } };

    ghost invariant = { λ p. IsPrepared (record { bits = p.bits; instr = p.item.instr }) p.item p.ready.items };
}

/// The bytes of an encoding if there is no target, else none.
fn without_target(target: Option<u64>, bytes: ArrayVec<u8, 15>) -> ArrayVec<u8, 15>
    ensures { result.items ≡ bytes_without target (Ok bytes.items) }
{
    match target {
        None => bytes,
        Some(_) => ArrayVec::new(),
    }
}

impl Prepared {
    /// Prepares an instruction for a mode. If it is a near branch, or has an operand at RIP or EIP, it is encoded at its own target.
    ///
    /// Errors: why it has no encoding there. [`Assembler::push`](crate::Assembler::push) refuses it then for the same cause.
    pub fn new(bits: Bits, instr: &Instr) -> Result<Prepared, NoSpelling>
        ensures made { IfOk result (λ it. it ≡ record { bits = bits; instr = instr.now }) }
        ensures encoded { IfOk result (λ _. encoding_refusal (encoding bits (own_address instr.now) instr.now) ≡ None) }
        ensures refused { IfErr result (λ why. encoding bits (own_address instr.now) instr.now ≡ Err why) }
    {
        // Four operands, as the proof has to know.
        let [_first, _second, _third, _fourth] = instr.ops;
        laws_below();
        without_target_encoded_alike();
        let target = target_of(instr);
        let ip = target.unwrap_or(0);
        match encode(bits, ip, instr) {
            Ok(bytes) => Ok(Prepared {
                bits,
                item: Placed {
                    ip,
                    len: bytes.len() as u8,
                    instr: *instr,
                },
                ready: without_target(target, bytes),
            }),
            Err(why) => Err(why),
        }
    }

    /// Returns the mode.
    pub fn bits(&self) -> Bits
        ensures { result ≡ self.now.bits }
    {
        self.bits
    }

    /// Returns the instruction.
    pub fn instr(&self) -> Instr
        ensures { result ≡ self.now.instr }
    {
        self.item.instr
    }
}

/// Prepares an instruction whose encoding at an address is known: it is encoded again only if it has a target. `None`: it has no encoding at its own target.
///
/// The caller has to prove that the bytes are the encoding, so this is for the crates above, and not for users.
pub fn prepared_from(
    bits: Bits,
    ip: u64,
    instr: &Instr,
    bytes: ArrayVec<u8, 15>,
) -> Option<Prepared>
    requires { encoding bits ip instr.now ≡ Ok bytes.items }
    ensures made { IfSome result (λ it. it ≡ record { bits = bits; instr = instr.now }) }
    ensures encoded { IfSome result (λ _. encoding_refusal (encoding bits (own_address instr.now) instr.now) ≡ None) }
    ensures refused { IsNone result → (why : NoSpelling) × (encoding bits (own_address instr.now) instr.now ≡ Err why) }
{
    // Four operands, as the proof has to know.
    let [_first, _second, _third, _fourth] = instr.ops;
    laws_below();
    without_target_encoded_alike();
    if target_of(instr).is_some() {
        return match Prepared::new(bits, instr) {
            Ok(it) => Some(it),
            Err(_) => None,
        };
    }
    Some(Prepared {
        bits,
        item: Placed {
            ip: 0,
            len: bytes.len() as u8,
            instr: *instr,
        },
        ready: bytes,
    })
}
