//! The call of the program.

ghost use Rattle.std.specs.Prelude.{◌≡◌, ◌↔◌, ◌≤◌, ℕ, List, Option};
ghost use Rattle.byte_ports.specs.Ports.{Rose};
ghost use Rattle.moving_run.specs.CommandWords.Words.{command_of, texts};
ghost use Rattle.sweep.specs.RunParts.StatusLine.{status_line};
ghost use Rattle.sweep.specs.RunParts.Reads.{code_limit, whole_limit, Takes, EndsAtFault};
ghost use Rattle.sweep.specs.RunParts.Writing.{Says};
ghost use Rattle.listing_run.specs.Texts as text;
ghost use Rattle.listing_run.specs.Rows.{rows_text};
ghost use Rattle.listing_run.specs.Outcome.{RunsAs, GoesThroughAs, WritesAs, ReadsInput, Streams, IsWrong, Completes, CompletesThrough, one_block_words};
ghost use Rattle.listing_run.specs.Calls.{IsCalledThrough, IsCalledBy};
ghost use Rattle.listing_run.specs.Taken.{limit_of};
ghost use Rattle.moving_run.specs.Moving.{MovesAs, CompletesMoving};
ghost use Rattle.moving_run.specs.declared.command_words.commands.Command.TheVariants.{Wrong};

use crate::asm_run::assemble_code;
use crate::flow_run::flow_code;
use crate::rows::write_rows;
use crate::sample_run::sample;
use byte_ports::{Sink, Source};
use moving_run::command_words::{BlockWords, Command, command_of};
use moving_run::slots_run::slot_code;
use moving_run::{Wanted, move_code};
use std::alloc::Global;
use sweep::laws::listings_come_to_their_end;
use sweep::run_parts::{Status, put_all, say, status_line};
use sweep::{Lines, StreamError, stream_lines};
use x86_values::Bits;

/// What `--help` writes.
#[tactic(auto, unfolding(crate::specs::Texts::help_text))]
fn help_text() -> &'static [u8]
    ensures { result.now ≡ text.help_text }
{
    b"usage: feddurzai list BITS BASE SYNTAX\n       feddurzai info BITS BASE\n       feddurzai recode BITS1 OLD BITS2 NEW\n       feddurzai flow BITS BASE\n       feddurzai asm BITS BASE\n       feddurzai move BITS OLD NEW\n       feddurzai map BITS OLD NEW\n       feddurzai blocks BITS OLD1 NEW1 LEN1 OLD2 NEW2 ..\n       feddurzai slots BITS OLD REGION SIZE\n       feddurzai rows\n       feddurzai sample N\n       feddurzai --help\n       feddurzai --version\n\nlist writes one line for each instruction of the machine code on standard input.\nBITS is 16, 32 or 64. BASE is the address of the first byte: 1 to 16 hexadecimal\ndigits below 2 to the power of BITS. SYNTAX is intel, att or masm.\n\ninfo writes what each instruction does: where control goes behind it; n, r, w or\nrw for each operand that it leaves alone, reads, writes, or reads and writes; m\nand the size of its memory operand in bytes; -> and the target of a near branch;\n@ and the address of an operand relative to the instruction pointer. It ends at\nthe first byte at which no instruction is read.\n\nrecode writes the bytes of each instruction in mode BITS2, where the code begins\nat address NEW: it is read as info reads it, in mode BITS1 at address OLD, and\nkeeps its operands. An instruction that has no such bytes has ! and a number from\n1 to 10, that of the first condition that fails, and behind 2, 3 and 6 the number\nof the operand that fails it.\n\nflow follows control from the first byte of the machine code. It writes one line\nfor each instruction that is reached: its address, the address of the first\ninstruction of its basic block, and where control goes behind it; or invalid or\ntoo short where no instruction is read.\n\nasm reads lines of text: an instruction as list writes it in the style intel, or\ndb and a byte, as db 0x66. It writes the bytes of all lines, the shortest that\nhave each text; BASE is the address of the first of them.\n\nmove writes the bytes of the machine code on standard input, in mode BITS, moved\nfrom address OLD to address NEW. Each near branch and each operand relative to\nthe instruction pointer keeps its target, or follows it where that is moved too.\nNothing is written where an instruction cannot reach its target.\n\nmap writes one line for each instruction that move would move: its old and its\nnew address, and its form there: itself, short, near, far, bridge or farbridge.\n\nblocks moves 1 to 16 blocks of code as move moves one. Every block but the last\nhas LEN, the number of its bytes in 1 to 16 hexadecimal digits.\n\nslots gives each instruction of the machine code, whose first byte has address\nOLD, a slot for single stepping: the instruction, moved, and a jump back to what\nfollowed it. It writes the bytes of the range that starts at address REGION and\nhas SIZE bytes: a multiple of 10 up to 100000, both hexadecimal. A byte that no\nslot takes is CC.\n\nrows writes one line for each row of the instruction table: its number, its\nnotation and its name. It reads nothing.\n\nsample makes N instructions, 1 to 10000 hexadecimal, lists them and moves them\nin 64-bit mode. It writes how many they are, the bytes of their code, listing and\nmoved code, how many took a longer form, and the sum of the moved bytes. It reads\nnothing.\n"
}

/// What `--version` writes: the version, and the sets of instructions that the table covers.
#[tactic(auto, unfolding(crate::specs::Texts::version_text))]
fn version_text() -> &'static [u8]
    ensures { result.now ≡ text.version_text }
{
    b"feddurzai 0.2.0\ninteger, x87, MMX, SSE to SSE4.2, AVX, AVX2, BMI, FMA, F16C, AES, PCLMULQDQ\n"
}

/// Writes a text that needs no input.
fn write_text<K: Sink>(text: &[u8], out: &mut K) -> Status
    ensures answer { WritesAs text.now (K.held out.old) (K.held out.new) (Rose (K.faults out.old) (K.faults out.new)) result }
{
    match put_all(out, text) {
        Ok(()) => Status::Done,
        Err(_) => Status::WriteFault,
    }
}

/// Goes through the source as code of a mode.
fn go_through<S: Source, K: Sink>(
    bits: Bits,
    base: u64,
    lines: Lines,
    source: &mut S,
    out: &mut K,
) -> Status
    ensures answer { GoesThroughAs bits base lines (S.left source.old) (S.left source.new) (K.held out.old) (K.held out.new)
        (Rose (S.faults source.old) (S.faults source.new)) (Rose (K.faults out.old) (K.faults out.new)) result }
    ensures complete { (Rose (S.faults source.old) (S.faults source.new) → ⊥) → (Rose (K.faults out.old) (K.faults out.new) → ⊥)
        → CompletesThrough bits base lines (S.left source.old) result }
    ensures taken { Takes code_limit (S.left source.old) (S.left source.new)
        × (result ≡ Status.ReadFault → EndsAtFault S.pull_gives S.left source.new) }
    ensures calls { IsCalledThrough S.left S.pull_gives K.held K.put_gives bits base lines source.old source.new out.old out.new result }
{
    match stream_lines(bits, base, lines, source, out) {
        Ok(_) => Status::Done,
        Err(StreamError::BadCode { offset, error }) => Status::BadCode { offset, error },
        Err(StreamError::ReadFault) => Status::ReadFault,
        Err(StreamError::WriteFault) => Status::WriteFault,
        Err(StreamError::TooLarge { limit }) => Status::TooLarge { limit },
    }
}

/// Writes the table of instructions.
fn rows<K: Sink>(out: &mut K) -> Status
    ensures answer { WritesAs rows_text (K.held out.old) (K.held out.new) (Rose (K.faults out.old) (K.faults out.new)) result }
{
    match write_rows(out) {
        Ok(()) => Status::Done,
        Err(_) => Status::WriteFault,
    }
}

/// Moves the source as one block of code of a mode.
fn move_whole<S: Source, K: Sink>(
    alloc: Global,
    wanted: Wanted,
    bits: Bits,
    old: u64,
    new: u64,
    source: &mut S,
    out: &mut K,
) -> Status
    ensures answer { MovesAs wanted bits (one_block_words old new) (S.left source.old) (S.left source.new) (K.held out.old) (K.held out.new)
        (Rose (S.faults source.old) (S.faults source.new)) (Rose (K.faults out.old) (K.faults out.new)) result }
    ensures complete { (Rose (S.faults source.old) (S.faults source.new) → ⊥) → (Rose (K.faults out.old) (K.faults out.new) → ⊥)
        → CompletesMoving wanted bits (one_block_words old new) (S.left source.old) result }
    ensures taken { Takes whole_limit (S.left source.old) (S.left source.new)
        × (result ≡ Status.ReadFault → EndsAtFault S.pull_gives S.left source.new) }
{
    let block = BlockWords {
        old,
        new,
        len: None,
    };
    move_code(alloc, wanted, bits, &[block], source, out)
}

/// Executes a command.
fn answer<S: Source, K: Sink>(
    alloc: Global,
    command: Command,
    source: &mut S,
    out: &mut K,
) -> Status
    ensures answer { RunsAs command (S.left source.old) (S.left source.new) (K.held out.old) (K.held out.new)
        (Rose (S.faults source.old) (S.faults source.new)) (Rose (K.faults out.old) (K.faults out.new)) result }
    ensures unread { (ReadsInput command → ⊥) → source.new ≡ source.old }
    ensures unwritten { IsWrong command → out.new ≡ out.old }
    ensures complete { (Rose (S.faults source.old) (S.faults source.new) → ⊥) → (Rose (K.faults out.old) (K.faults out.new) → ⊥)
        → Completes command (S.left source.old) result }
    ensures taken { Takes (limit_of command) (S.left source.old) (S.left source.new)
        × (result ≡ Status.ReadFault → EndsAtFault S.pull_gives S.left source.new) }
    ensures calls { IsCalledBy S.left S.pull_gives K.held K.put_gives command source.old source.new out.old out.new result }
{
    match command {
        Command::Help => write_text(help_text(), out),
        Command::Version => write_text(version_text(), out),
        Command::List { bits, base, syntax } => {
            listings_come_to_their_end();
            go_through(bits, base, Lines::Listing { syntax }, source, out)
        }
        Command::Info { bits, base } => go_through(bits, base, Lines::Info, source, out),
        Command::Recode {
            bits,
            base,
            to,
            new_base,
        } => go_through(bits, base, Lines::Recode { to, new_base }, source, out),
        Command::Flow { bits, base } => flow_code(alloc, bits, base, source, out),
        Command::Asm { bits, base } => assemble_code(alloc, bits, base, source, out),
        Command::Move { bits, old, new } => {
            move_whole(alloc, Wanted::MovedBytes, bits, old, new, source, out)
        }
        Command::Map { bits, old, new } => {
            move_whole(alloc, Wanted::MapLines, bits, old, new, source, out)
        }
        Command::Blocks { bits, blocks } => {
            move_code(alloc, Wanted::MovedBytes, bits, &blocks, source, out)
        }
        Command::Slots { old, range } => slot_code(alloc, &range, old, source, out),
        Command::Rows => rows(out),
        Command::Sample { count } => sample(alloc, count.get(), out),
        Command::Wrong { word } => Status::Usage { word },
    }
}

/// Executes the command that the words of a command line give.
///
/// For every mode, every address and all bytes:
///
/// - The listing shows exactly the instructions that the table spells, with their lengths, and single bytes elsewhere. `answer` states this by
///   `WritesLines`, over the sweep of the input. `complete` states that only lack of memory or a stated limit prevents it.
/// - `recode` shows the plain spelling of each instruction that has one, and names why another has none: `answer`, by the same lines.
/// - `flow` shows exactly the offsets that control reaches from the first byte, each with the leader of its basic block: `answer` by `FlowsAs`, over
///   `IsFlowGraph`, and `complete` by `CompletesFlow`.
/// - `asm` writes the bytes of Intel texts, for each line the shortest bytes that print as this text at its address: `answer` by `AssemblesAs`, over
///   `IsCodeOfLines`, and `complete` by `CompletesAssembling`.
/// - `slots` gives each instruction a slot that holds exactly its block; every other byte of the range is CC: `answer` by `SlotsAs`, over
///   `AreSlotted` and `HoldsSlots`. An instruction is refused only if no gap is left or it cannot reach its target: `complete` by `CompletesSlots`.
/// - Moved blocks decode to the images of the old instructions in the least layout, and each image goes to the old target or to its moved copy:
///   `answer` by `MovesAs`, over `IsMoved`, `IsMovedReadBack` and `GoesToGoal`. Moving is refused only at the first operand that cannot reach, or for
///   a stated limit: `answer` states when each refusal may occur, and `complete` by `CompletesMoving` that it occurs then.
///
/// `words` are the words after the program's name. `list BITS BASE SYNTAX` reads `source` to its end and writes the listing to `out`. `BITS` is `16`,
/// `32` or `64`; `BASE` is the address of the first byte in 1 to 16 hexadecimal digits, below 2 to the power of `BITS`; `SYNTAX` is `intel`, `att` or
/// `masm`. `info BITS BASE` reads it too, writes what each instruction does, and ends with `BadCode` at the first offset that starts no instruction.
/// `recode BITS1 OLD BITS2 NEW` ends there too, and writes the bytes of each instruction in mode `BITS2`, with the first byte at the address `NEW`.
///
/// `flow BITS BASE` follows control from the first byte of the source. For each reached offset it writes its address, the address of the leader of
/// its basic block, and the flow of the instruction there, or `invalid` or `too short`.
///
/// `asm BITS BASE` reads lines, each ended by a line feed, and writes their bytes. A line is the Intel text of an instruction, as `list` writes it at
/// the address of the line, or `db` and a single byte, such as `db 0x66`. The first line that is neither ends it with `BadText`.
///
/// `move BITS OLD NEW` moves the whole source from the address `OLD` to the address `NEW` and writes the new bytes. `map BITS OLD NEW` writes the old
/// address, the new address and the form of each instruction instead. `blocks BITS OLD1 NEW1 LEN1 OLD2 NEW2 ..` moves 1 to 16 blocks; each block but
/// the last takes `LEN` bytes of the source, in 1 to 16 hexadecimal digits. They end with `BadCode` at the first offset of the source that starts no
/// instruction, `TooMany` above 65,536 instructions, `Wraps` if an old or new block extends past the address space, and `TooFar` at the first
/// instruction that cannot reach its target.
///
/// `slots BITS OLD REGION SIZE` gives each instruction of the source, whose first byte has the address `OLD`, a slot in the range of `SIZE` bytes at
/// the address `REGION`, in order, and writes the bytes of the range. `SIZE` is a multiple of 16 up to 1,048,576, in hexadecimal digits. It ends with
/// `BadCode` at the first offset that starts no instruction. At the first instruction that gets no slot it ends with `RegionFull` if no gap is long
/// enough, else with `TooFar`.
///
/// `flow`, `asm`, `move`, `map`, `blocks` and `slots` write nothing unless the status is `Done` or `WriteFault`.
///
/// `sample N` makes 1 to 65,536 instructions, `N` in hexadecimal, lists them at 400000, moves them to 10400000 in 64-bit mode, and writes six numbers
/// about the result. `answer` states by `SamplesAs` that the numbers follow from their definition, and that only lack of memory prevents it. It reads
/// nothing.
///
/// `rows` writes a line for each row of the table; `--help` and `--version` write a text. They read nothing and allocate nothing. Each status other
/// than `Done` has a line, which goes to `err`.
pub fn run<S: Source, K: Sink, E: Sink>(
    alloc: Global,
    words: &[&str],
    source: &mut S,
    out: &mut K,
    err: &mut E,
) -> Status
    // Each status comes only with its cause, and what stands in `out` after it.
    ensures answer { RunsAs (command_of (texts words.now)) (S.left source.old) (S.left source.new)
        (K.held out.old) (K.held out.new)
        (Rose (S.faults source.old) (S.faults source.new)) (Rose (K.faults out.old) (K.faults out.new)) result }

    // A port's fault is told only where its count rose. Nothing is written before any other refusal, but that list, info and recode write lines as they
    // go: after a refusal those of the items before bad code stand, or of all items of which 15 bytes were seen.
    ensures read_fault { result ≡ Status.ReadFault → Rose (S.faults source.old) (S.faults source.new) }
    ensures write_fault { result ≡ Status.WriteFault → Rose (K.faults out.old) (K.faults out.new) }
    ensures refused { (result ≡ Status.Done → ⊥) → (result ≡ Status.WriteFault → ⊥)
        → (Streams (command_of (texts words.now)) → ⊥) → K.held out.new ≡ K.held out.old }

    // The number of the first word that is not allowed, missing or too many. Nothing is read or written then.
    ensures usage { (word : ℕ) → (result ≡ Status.Usage word) ↔ (command_of (texts words.now) ≡ Wrong word) }
    ensures unread { (ReadsInput (command_of (texts words.now)) → ⊥) → source.new ≡ source.old }
    ensures unwritten { IsWrong (command_of (texts words.now)) → out.new ≡ out.old }

    // Whatever the status is, what was taken of the source is at most one byte more than the limit of the command. A pull that failed is the last one.
    ensures taken { Takes (limit_of (command_of (texts words.now))) (S.left source.old) (S.left source.new)
        × (result ≡ Status.ReadFault → EndsAtFault S.pull_gives S.left source.new) }

    // The calls of list, info and recode in their order: before each pull the lines of all items of which 15 bytes were seen were put, a pull asks for at most
    // 16,384 bytes, none comes that bad code did not need, and no call follows one that failed.
    ensures calls { IsCalledBy S.left S.pull_gives K.held K.put_gives (command_of (texts words.now)) source.old source.new out.old out.new result }

    // Where no port fails the command is done, within the limit of its input, or ends at the first bad code. What takes its input as a whole may want
    // memory; list, info and recode take none.
    ensures complete { (Rose (S.faults source.old) (S.faults source.new) → ⊥) → (Rose (K.faults out.old) (K.faults out.new) → ⊥)
        → Completes (command_of (texts words.now)) (S.left source.old) result }

    // The line of the status, whole where `err` does not fail.
    ensures err { Says (E.held err.old) (E.held err.new) (status_line result) (Rose (E.faults err.old) (E.faults err.new)) }
{
    let status = answer(alloc, command_of(words), source, out);
    say(err, &status_line(&status));
    status
}
