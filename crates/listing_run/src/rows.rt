//! Writing the table of instructions to a sink.

ghost use Rattle.std.specs.Prelude.{◌≡◌, ◌<◌, ◌≤◌, ◌+◌, OnOk, OnErr};
ghost use Rattle.byte_ports.specs.Ports.{HasCause, with_back};
ghost use Rattle.text_rows.specs.RowLines.Lines.{row_line as line_of};
ghost use Rattle.sweep.specs.RunParts.Writing.{HoldsFront, Moves};
ghost use Rattle.listing_run.specs.Rows.{rows_text};

use byte_ports::{Failed, Sink};
use opcode_rows::ROWS;
use sweep::run_parts::laws::held_texts_arrive;
use sweep::run_parts::{make_room, put_all};
use sweep::sweep_text::{Chunk, append};
use text_rows::row_lines::row_line;
use x86_values::Code;

/// Writes the line of a row, or holds it back.
fn write_row<K: Sink>(code: Code, pending: &mut Chunk, out: &mut K) -> Result<(), Failed>
    requires { code.0 < ROWS }
    ensures ok { OnOk result (Moves (K.held out.old) (K.held out.new) pending.old.items pending.new.items (line_of code.0)) }
    ensures err { OnErr result (HoldsFront (K.held out.old) (K.held out.new) pending.old.items) }
    ensures cause { HasCause (K.faults out.old) (K.faults out.new) result }
{
    make_room(pending, out)?;
    append(pending, &row_line(code));
    Ok(())
}

/// Writes the lines of all rows, in the order of their codes.
pub fn write_rows<K: Sink>(out: &mut K) -> Result<(), Failed>
    ensures ok { OnOk result (K.held out.new ≡ with_back (K.held out.old) rows_text) }
    ensures err { OnErr result (HoldsFront (K.held out.old) (K.held out.new) rows_text) }
    ensures cause { HasCause (K.faults out.old) (K.faults out.new) result }
{
    held_texts_arrive();
    let mut pending = Chunk::new();
    let mut code = 0;
    while code < ROWS {
        write_row(Code(code), &mut pending, out)?;
        code += 1;
    }
    put_all(out, &pending)
}
