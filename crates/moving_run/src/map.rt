//! Writing the lines of `map` to a sink.

ghost use Rattle.std.specs.Prelude.{◌≡◌, ◌<◌, ◌≤◌, ◌+◌, ◌++◌, length, slice_index_or, OnOk, OnErr};
ghost use Rattle.arrayvec.specs.ArrayVec.{array_vec_len};
ghost use Rattle.byte_ports.specs.Ports.{HasCause, with_back};
ghost use Rattle.sweep.specs.RunParts.Writing.{HoldsFront, Moves};
ghost use Rattle.moving_run.specs.Map as spec;

use branch_sizes::Form;
use byte_ports::{Failed, Sink};
use move_goals::Placed;
use sweep::run_parts::laws::held_texts_arrive;
use sweep::run_parts::{make_room, put_all};
use sweep::sweep_text::{CHUNK_LEN, Chunk, LINE_LEN, append, append_address};
use x86_values::Bits;

/// The word of a form.
#[tactic(auto, unfolding(crate::specs::Map::form_word))]
fn form_word(form: Form) -> &'static [u8]
    ensures word { result.now ≡ spec.form_word form }
    ensures short { length result.now ≤ 9 }
{
    match form {
        Form::Itself => b"itself",
        Form::Short => b"short",
        Form::Near => b"near",
        Form::Far => b"far",
        Form::Bridge => b"bridge",
        Form::FarBridge => b"farbridge",
    }
}

/// Appends the line of an instruction.
#[tactic(auto, unfolding(crate::specs::Map::map_line))]
fn append_map_line(pending: &mut Chunk, bits: Bits, old: u64, new: u64, form: Form)
    requires { array_vec_len pending.old + LINE_LEN ≤ CHUNK_LEN }
    ensures { pending.new.items ≡ pending.old.items ++ spec.map_line bits old new form }
{
    append_address(pending, bits, old, 0);
    append(pending, b" ");
    append_address(pending, bits, new, 0);
    append(pending, b" ");
    append(pending, form_word(form));
    append(pending, b"\n");
}

/// Writes the line of an instruction, or holds it back.
fn write_map_line<K: Sink>(
    bits: Bits,
    old: u64,
    new: u64,
    form: Form,
    pending: &mut Chunk,
    out: &mut K,
) -> Result<(), Failed>
    ensures ok { OnOk result (Moves (K.held out.old) (K.held out.new) pending.old.items pending.new.items (spec.map_line bits old new form)) }
    ensures err { OnErr result (HoldsFront (K.held out.old) (K.held out.new) pending.old.items) }
    ensures cause { HasCause (K.faults out.old) (K.faults out.new) result }
{
    make_room(pending, out)?;
    append_map_line(pending, bits, old, new, form);
    Ok(())
}

/// Writes the lines of moved instructions: old address, new address and form.
pub fn write_map<K: Sink>(
    bits: Bits,
    items: &[Placed],
    starts: &[u64],
    forms: &[Form],
    out: &mut K,
) -> Result<(), Failed>
    requires starts { length starts.now ≡ length items.now }
    requires forms { length forms.now ≡ length items.now }
    ensures ok { OnOk result (K.held out.new ≡ with_back (K.held out.old) (spec.map_lines bits items.now starts.now forms.now (length items.now))) }
    ensures err { OnErr result (HoldsFront (K.held out.old) (K.held out.new) (spec.map_lines bits items.now starts.now forms.now (length items.now))) }
    ensures cause { HasCause (K.faults out.old) (K.faults out.new) result }
{
    held_texts_arrive();
    let mut pending = Chunk::new();
    for k in 0..items.len() {
        write_map_line(bits, items[k].ip, starts[k], forms[k], &mut pending, out)?;
    }
    put_all(out, &pending)
}
