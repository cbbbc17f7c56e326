//! The calls that users meet first, each with its result. The docstrings of the library show these lines as their examples.

use bitflags::Flags;
use feddurzai::assembling::{
    Assembler, Prepared, Rules, assemble, assemble_code, assemble_code_by, assemble_code_with,
    label_lines, read_intel,
};
use feddurzai::decoding::{Decoder, Items, decode_in, read_items};
use feddurzai::encoding::{encode, encoded_len};
use feddurzai::flow::graph_of_code;
use feddurzai::format::{
    Intel, NoSymbols, Options, Printed, RipOperands, Style, ascii_str, pieces, print_att,
    print_pieces, text_with,
};
use feddurzai::hooks::{
    HookRules, Hooks, StartRule, StartTarget, detour, detour_keeping_endbr, detour_len,
    detour_through_padding, detour_with, look, writes_of,
};
use feddurzai::info::{
    Features, FlagSet, all_memory, all_registers, flags_of, laws, needed_features,
};
use feddurzai::moving::move_code;
use feddurzai::parts::offsets;
use feddurzai::region::Region;
use feddurzai::rows::{code_of, name, notation_of};
use feddurzai::slots::{StepSlots, step_code};
use feddurzai::streams::{Lines, MemSink, MemSource, stream_lines};
use feddurzai::values::Bits;
use std::str::from_utf8;

/// A function: push rbp; mov rbp, rsp; mov eax, edi; pop rbp; ret.
static FUNCTION: [u8; 8] = *b"\x55\x48\x89\xe5\x89\xf8\x5d\xc3";

/// Reads one instruction.
fn read_one(rt: &HostRuntime) -> anyhow::Result<()> {
    let read = decode_in(Bits::B64, 0x40_1000, b"\x48\x89\xe5\xc3")?;
    let instr = read.instr;
    let text = Intel {
        bits: Bits::B64,
        instr,
    };
    println!(rt; "{} bytes: {text}", read.len)?; // 3 bytes: mov rbp, rsp
    Ok(())
}

/// Reads two instructions, one after the other.
fn read_two(rt: &HostRuntime) -> anyhow::Result<()> {
    let mut decoder = Decoder::<64>::new(b"\x55\xe8\xf6\x0f\x00\x00", 0x40_1000);
    let push = decoder.decode()?;
    let call = decoder.decode()?;
    println!(rt; "{} {} {:x}", push.len, call.len, decoder.ip())?; // 1 5 401006
    Ok(())
}

/// Reads all items of some bytes, and prints their addresses.
fn read_each(rt: &HostRuntime) -> anyhow::Result<()> {
    // push rbp, a byte that starts no instruction in 64-bit mode, ret
    for item in Items::new(Bits::B64, 0x40_1000, b"\x55\x06\xc3") {
        match item.reading {
            Ok(read) => println!(rt; "{:x} {}", item.ip, read.len)?, // 401000 1, 401002 1
            Err(why) => println!(rt; "{:x} {why}", item.ip)?,
        }
    }
    Ok(())
}

/// Reads a whole function.
fn read_function(rt: &HostRuntime) -> anyhow::Result<()> {
    let items = read_items(rt.alloc(), Bits::B64, 0x40_1000, &FUNCTION)?;
    println!(rt; "{} instructions", items.len())?; // 5 instructions
    Ok(())
}

/// Finds the parts of an instruction.
fn find_parts(rt: &HostRuntime) -> anyhow::Result<()> {
    let mov = b"\x48\xc7\x40\x08\x01\x00\x00\x00"; // mov qword [rax+0x8], 0x1
    let parts = offsets(Bits::B64, 0x40_1000, mov)?;
    println!(rt; "{:?}", parts.displacement)?; // Part { at: 3, len: 1 }
    println!(rt; "{:?}", parts.immediates[1])?; // Part { at: 4, len: 4 }
    Ok(())
}

/// Encodes a jump at two places.
fn encode_jump(rt: &HostRuntime) -> anyhow::Result<()> {
    let jump = read_intel(Bits::B64, 0x40_1000, b"jmp 0x401080")?;
    let bytes = encode(Bits::B64, 0x40_1000, &jump)?;
    println!(rt; "{}", hex::encode(rt.alloc(), &bytes)?)?; // eb7e
    println!(rt; "{}", encoded_len(Bits::B64, 0x40_1010, &jump)?)?; // 2
    Ok(())
}

/// Assembles a text.
fn assemble_one(rt: &HostRuntime) -> anyhow::Result<()> {
    let bytes = assemble(Bits::B64, 0x40_1000, b"add r12, rax")?;
    println!(rt; "{}", hex::encode(rt.alloc(), &bytes)?)?; // 4901c4
    Ok(())
}

/// Puts a loop together, with a label.
fn build_loop(rt: &HostRuntime) -> anyhow::Result<()> {
    // A loop that adds the numbers from ECX down to 1.
    let mut routine = Assembler::new(rt.alloc(), Bits::B64);
    let again = routine.label()?;
    routine.push(&read_intel(Bits::B64, 0, b"xor eax, eax")?)?;
    routine.place(again)?;
    routine.push(&read_intel(Bits::B64, 0, b"add eax, ecx")?)?;
    routine.push(&read_intel(Bits::B64, 0, b"dec ecx")?)?;
    routine.push_to(&read_intel(Bits::B64, 0, b"jne 0x0")?, again)?;
    routine.push(&read_intel(Bits::B64, 0, b"ret")?)?;
    let made = routine.finish(rt.alloc(), 0x40_1000)?;
    println!(rt; "{}", hex::encode(rt.alloc(), made.bytes())?)?; // 31c001c8ffc975fac3
    println!(rt; "{:?}", made.address(again))?; // Some(4198402)
    Ok(())
}

/// Assembles a loop from its lines.
fn assemble_lines(rt: &HostRuntime) -> anyhow::Result<()> {
    let text = b"again: add eax, ecx\n dec ecx\n jne again ; until it is 0\n ret";
    let made = assemble_code(rt.alloc(), Bits::B64, 0x40_1000, text)?;
    println!(rt; "{}", hex::encode(rt.alloc(), made.bytes())?)?; // 01c8ffc975fac3
    Ok(())
}

/// Assembles a look-up in a table.
fn assemble_table(rt: &HostRuntime) -> anyhow::Result<()> {
    let text =
        b"CMP EDI, 3\n jnb none\n movzx eax, byte ptr [table]\n ret\nnone: xor eax,eax\n ret\ntable: db 7, 2Ah, 'A'";
    let made = assemble_code(rt.alloc(), Bits::B64, 0x40_1000, text)?;
    println!(rt; "{}", hex::encode(rt.alloc(), made.bytes())?)?; // 83ff0373080fb60504000000c331c0c3072a41
    Ok(())
}

/// Assembles a call of a name.
fn assemble_named(rt: &HostRuntime) -> anyhow::Result<()> {
    let names = b"puts = 0x401180\nSIZE = 24";
    let text = b"mov edi, SIZE-1\n call puts\n ret";
    let made = assemble_code_with(rt.alloc(), Bits::B64, 0x40_1000, names, text)?;
    println!(rt; "{}", hex::encode(rt.alloc(), made.bytes())?)?; // bf17000000e876010000c3
    Ok(())
}

/// Says why a jump out of reach is refused where no slot is allowed.
fn refuse_far(rt: &HostRuntime) -> anyhow::Result<()> {
    let rules = Rules {
        names: b"start = 0x10",
        slots: false,
    };
    let text = b"dec ecx\n jmp start";
    if let Err(why) = assemble_code_by(rt.alloc(), Bits::B64, 0x8000_000a, &rules, text) {
        println!(rt; "{why}")?; // line 2, column 2: instruction 1 cannot reach 0x10
    }
    Ok(())
}

/// Prints the line and the address of each label of a routine.
fn find_labels(rt: &HostRuntime) -> anyhow::Result<()> {
    let text = b"again: dec ecx\n jne again\n done: ret";
    let made = assemble_code(rt.alloc(), Bits::B64, 0x40_1000, text)?;
    let labels = label_lines(rt.alloc(), text)?;
    for (number, label) in labels.iter().enumerate() {
        println!(rt; "{} {:?}", label.line, made.address_at(number))?; // 1 Some(4198400), then 3 Some(4198404)
    }
    Ok(())
}

/// Assembles a jump through a table of addresses.
fn assemble_jumps(rt: &HostRuntime) -> anyhow::Result<()> {
    let text = b"jmp [table+rax*8]\none: ret\ntwo: nop\n ret\n align 8\ntable: dq one, two";
    let made = assemble_code(rt.alloc(), Bits::B64, 0x40_1000, text)?;
    println!(rt; "{}", hex::encode(rt.alloc(), made.bytes())?)?; // ff24c510104000c390c3660f1f44000007104000000000000810400000000000
    Ok(())
}

/// Puts a load from a table together.
fn build_table(rt: &HostRuntime) -> anyhow::Result<()> {
    // A load from a table that lies behind the code.
    let mut routine = Assembler::new(rt.alloc(), Bits::B64);
    let table = routine.label()?;
    let load = read_intel(Bits::B64, 0, b"movzx eax, byte [rel 0x0]")?;
    routine.push_to(&load, table)?;
    routine.push(&read_intel(Bits::B64, 0, b"ret")?)?;
    routine.place(table)?;
    routine.bytes(b"\x2a\x2b")?;
    let made = routine.finish(rt.alloc(), 0x40_1000)?;
    println!(rt; "{}", hex::encode(rt.alloc(), made.bytes())?)?; // 0fb60501000000c32a2b
    Ok(())
}

/// Adds an instruction twice, which is encoded once.
fn build_prepared(rt: &HostRuntime) -> anyhow::Result<()> {
    // An instruction that is added several times is encoded once.
    let mut routine = Assembler::new(rt.alloc(), Bits::B64);
    let push = Prepared::new(Bits::B64, &read_intel(Bits::B64, 0, b"push rax")?)?;
    routine.push_prepared(&push)?;
    routine.push_prepared(&push)?;
    let made = routine.finish(rt.alloc(), 0x40_1000)?;
    println!(rt; "{}", hex::encode(rt.alloc(), made.bytes())?)?; // 5050
    Ok(())
}

/// Makes room in a routine.
fn make_room(rt: &HostRuntime) -> anyhow::Result<()> {
    let mut routine = Assembler::new(rt.alloc(), Bits::B64);
    routine.reserve(100)?;
    println!(rt; "{}", routine.len())?; // 0
    Ok(())
}

/// Adds an instruction that was prepared.
fn add_prepared(rt: &HostRuntime) -> anyhow::Result<()> {
    let mut routine = Assembler::new(rt.alloc(), Bits::B64);
    let ret = Prepared::new(Bits::B64, &read_intel(Bits::B64, 0, b"ret")?)?;
    routine.push_prepared(&ret)?;
    println!(rt; "{}", routine.len())?; // 1
    Ok(())
}

/// Adds two jumps to one label.
fn add_prepared_jumps(rt: &HostRuntime) -> anyhow::Result<()> {
    let mut routine = Assembler::new(rt.alloc(), Bits::B64);
    let jump = Prepared::new(Bits::B64, &read_intel(Bits::B64, 0, b"jmp 0x0")?)?;
    let end = routine.label()?;
    routine.push_prepared_to(&jump, end)?;
    routine.push_prepared_to(&jump, end)?;
    routine.place(end)?;
    let made = routine.finish(rt.alloc(), 0)?;
    println!(rt; "{}", hex::encode(rt.alloc(), made.bytes())?)?; // eb02eb00
    Ok(())
}

/// Prints an instruction in the AT&T style.
fn print_one(rt: &HostRuntime) -> anyhow::Result<()> {
    let read = decode_in(Bits::B64, 0x40_1000, b"\xf0\xff\x44\xbe\x10")?;
    let text = print_att(Bits::B64, &read.instr);
    println!(rt; "{}", ascii_str(&text))?; // lock incl 0x10(%rsi,%rdi,4)
    Ok(())
}

/// Shows where the pieces of a text stand.
fn show_pieces(rt: &HostRuntime) -> anyhow::Result<()> {
    let read = decode_in(Bits::B64, 0x40_1000, b"\xe8\xfb\x0f\x00\x00")?; // call 0x402000
    for piece in pieces(Style::Intel, Bits::B64, &read.instr).as_slice() {
        println!(rt; "{} {} {:?}", piece.start, piece.end, piece.kind)?; // 0 4 Mnemonic, then 4 5 Space, then the number
    }
    Ok(())
}

/// Prints an instruction with its pieces.
fn print_and_count(rt: &HostRuntime) -> anyhow::Result<()> {
    let read = decode_in(Bits::B64, 0x40_1000, b"\xe8\xfb\x0f\x00\x00")?;
    let mut printed = Printed::default();
    print_pieces(&mut printed, Style::Intel, Bits::B64, &read.instr);
    let count = printed.pieces.as_slice().len();
    println!(rt; "{} has {count} pieces", from_utf8(&printed.text)?)?; // call 0x402000 has 3 pieces
    Ok(())
}

/// Prints an operand relative to RIP with its distance.
fn show_distance(rt: &HostRuntime) -> anyhow::Result<()> {
    let read = decode_in(Bits::B64, 0x40_1000, b"\x48\x8d\x3d\xbd\x2e\x00\x00")?; // lea rdi, [rel 0x403ec4]
    let options = Options {
        rip_operands: RipOperands::Distance,
        ..Options::default()
    };
    let mut text = Vec::new(rt.alloc());
    text_with(
        &mut text,
        Style::Intel,
        &options,
        Bits::B64,
        &read.instr,
        0x40_1007,
        &NoSymbols,
    )?;
    println!(rt; "{}", from_utf8(&text)?)?; // lea rdi, [rip+0x2ebd]
    Ok(())
}

/// Prints the registers that PUSH touches, implied ones too.
fn show_registers(rt: &HostRuntime) -> anyhow::Result<()> {
    let push = decode_in(Bits::B64, 0x40_1000, b"\x55")?;
    for used in all_registers(Bits::B64, &push.instr).iter() {
        println!(rt; "{:?} {:?}", used.reg, used.access)?; // R64(5) Read, R64(4) ReadWrite
    }
    Ok(())
}

/// Prints the memory that PUSH touches.
fn show_memory(rt: &HostRuntime) -> anyhow::Result<()> {
    let push = decode_in(Bits::B64, 0x40_1000, b"\x55")?;
    for used in all_memory(Bits::B64, &push.instr).iter() {
        println!(rt; "{:?} {} bytes {:?}", used.segment, used.size, used.access)?; // Ss 8 bytes Write
    }
    Ok(())
}

/// Prints whether ADD writes the zero flag, and whether an instruction needs AVX.
fn show_flags(rt: &HostRuntime) -> anyhow::Result<()> {
    let add = decode_in(Bits::B64, 0x40_1000, b"\x01\xf8")?;
    laws::well_formed_codes_are_in_the_table();
    let flags = flags_of(add.instr.code);
    println!(rt; "{}", flags.written.contains(FlagSet::ZF))?; // true
    println!(rt; "{}", needed_features(&add.instr).contains(Features::AVX))?; // false
    Ok(())
}

/// Prints a row of the table.
fn show_row(rt: &HostRuntime) -> anyhow::Result<()> {
    if let Some(code) = code_of("imul", 0) {
        println!(rt; "{} {}", name(code), from_utf8(&notation_of(code))?)?; // imul o16 69 /r iw
    }
    Ok(())
}

/// Moves a function.
fn move_function(rt: &HostRuntime) -> anyhow::Result<()> {
    let moved = move_code(rt.alloc(), Bits::B64, 0x40_1000, &FUNCTION, 0x50_0000)?;
    println!(rt; "{} bytes", moved.bytes().len())?; // 8 bytes
    Ok(())
}

/// Reserves a block of a region.
fn reserve_block(rt: &HostRuntime) -> anyhow::Result<()> {
    let mut region = Region::make(rt.alloc(), 0x50_0000, 4096, 16)?;
    let place = region.place(20)?;
    region.try_fill(place, b"\x90\xc3")?;
    println!(rt; "{place:x} {}", region.block_count())?; // 500000 1
    region.release(place)?;
    Ok(())
}

/// Gives an instruction a slot.
fn step_one(rt: &HostRuntime) -> anyhow::Result<()> {
    let mut slots = StepSlots::make(rt.alloc(), Bits::B64, 0x50_0000, 4096, 16)?;
    let place = step_code(&mut slots, rt.alloc(), 0x40_1000, &FUNCTION)?;
    println!(rt; "{place:x} {}", slots.live().len())?; // 500000 1
    slots.finish(place)?;
    Ok(())
}

/// Follows control.
fn follow_control(rt: &HostRuntime) -> anyhow::Result<()> {
    let code = b"\x74\x01\x90\xc3"; // je 0x401003; nop; ret
    let graph = graph_of_code(rt.alloc(), Bits::B64, 0x40_1000, code)?;
    println!(rt; "{:?} {:?}", graph.starts(), graph.leaders())?; // [0, 2, 3] [0, 2, 3]
    Ok(())
}

/// Makes a patch and a trampoline.
fn hook_function(rt: &HostRuntime) -> anyhow::Result<()> {
    let (ip, to, place) = (0x40_1000, 0x50_0000, 0x60_0000);
    let made = detour(
        rt.alloc(),
        Bits::B64,
        ip,
        &FUNCTION,
        to,
        place,
        StartTarget::Moved,
    )?;
    println!(rt; "{}", hex::encode(rt.alloc(), made.patch())?)?; // e9fbef0f00cc
    println!(rt; "{}", hex::encode(rt.alloc(), made.trampoline())?)?; // 554889e589f8e9fb0fe0ff
    Ok(())
}

/// Looks at a function whose first six bytes a hook overwrites.
fn see_function(rt: &HostRuntime) -> anyhow::Result<()> {
    // mov rax, [rdi]; mov rcx, rax; an instruction that the table does not have; jmp to the second one; ret
    let code = b"\x48\x8b\x07\x48\x89\xc1\x62\xf1\x7c\x48\x28\xc1\xeb\xf5\xc3";
    let view = look(
        rt.alloc(),
        Bits::B64,
        0x40_1000,
        code,
        &[],
        6,
        &[0, 3],
        StartRule::Closed,
    )?;
    println!(rt; "{:?}", view.sight)?; // Ends { at: 6, why: NotRead }
    println!(rt; "{:?}", view.suspect)?; // Some(Passage { from: 12, target: 3 })
    Ok(())
}

/// Makes a patch and a trampoline if all of the function is seen and nothing enters the patch.
fn hook_by_rules(rt: &HostRuntime) -> anyhow::Result<()> {
    let (ip, to, place) = (0x40_1000, 0x50_0000, 0x60_0000);
    let seen = detour_with(
        rt.alloc(),
        Bits::B64,
        ip,
        &FUNCTION,
        to,
        place,
        &[],
        HookRules {
            start: StartTarget::Moved,
            whole: true,
            returns: true,
            calls: false,
        },
    )?;
    println!(rt; "{:?} {:?}", seen.view.sight, seen.detour.place_of(4))?; // Whole Some(4)
    Ok(())
}

/// Makes a patch behind an ENDBR64.
fn hook_behind_endbr(rt: &HostRuntime) -> anyhow::Result<()> {
    // endbr64; push rbp; mov rbp, rsp; mov eax, edi; pop rbp; ret
    let code = b"\xf3\x0f\x1e\xfa\x55\x48\x89\xe5\x89\xf8\x5d\xc3";
    let rules = HookRules {
        start: StartTarget::Moved,
        whole: true,
        returns: false,
        calls: false,
    };
    let (ip, to, place) = (0x40_1000, 0x50_0000, 0x60_0000);
    let made = detour_keeping_endbr(rt.alloc(), Bits::B64, ip, code, to, place, &[], rules)?;
    println!(rt; "{}", made.kept())?; // 4
    println!(rt; "{}", hex::encode(rt.alloc(), made.patch())?)?; // e9f7ef0f00cc
    println!(rt; "{}", hex::encode(rt.alloc(), made.trampoline())?)?; // f30f1efa554889e589f8e9fb0fe0ff
    Ok(())
}

/// Makes a patch of two parts, one of them in the padding in front of a function.
fn hook_through_padding(rt: &HostRuntime) -> anyhow::Result<()> {
    // five bytes of padding; then mov eax, edi; ret
    let (padding, code) = (b"\xcc\xcc\xcc\xcc\xcc", b"\x89\xf8\xc3");
    let rules = HookRules {
        start: StartTarget::Moved,
        whole: true,
        returns: false,
        calls: false,
    };
    let (ip, to, place) = (0x40_1000, 0x50_0000, 0x60_0000);
    let made = detour_through_padding(
        rt.alloc(),
        Bits::B64,
        ip,
        padding,
        code,
        to,
        place,
        &[],
        rules,
    )?;
    println!(rt; "{}", hex::encode(rt.alloc(), made.jump())?)?; // e900f00f00
    println!(rt; "{}", hex::encode(rt.alloc(), made.patch())?)?; // ebf9
    println!(rt; "{}", hex::encode(rt.alloc(), made.trampoline())?)?; // 89f8e9fb0fe0ff
    Ok(())
}

/// Says how many bytes are enough for a trampoline, wherever it will be placed.
fn reserve_trampoline(rt: &HostRuntime) -> anyhow::Result<()> {
    let (ip, to) = (0x40_1000, 0x50_0000);
    let rules = HookRules {
        start: StartTarget::Moved,
        whole: true,
        returns: true,
        calls: false,
    };
    let room = detour_len(rt.alloc(), Bits::B64, ip, &FUNCTION, to, rules)?;
    println!(rt; "{room}")?; // 27
    Ok(())
}

/// Shows in which order a patch is written.
fn order_writes(rt: &HostRuntime) -> anyhow::Result<()> {
    for write in writes_of(b"\xe9\xfb\xef\x0f\x00") {
        println!(rt; "{} {:?}", write.offset, write.bytes)?; // 0 [204], 1 [251, 239, 15, 0], 0 [233]
    }
    Ok(())
}

/// Keeps a hook in a range of trampolines.
fn keep_hook(rt: &HostRuntime) -> anyhow::Result<()> {
    let mut hooks = Hooks::make(rt.alloc(), Bits::B64, 0x60_0000, 4096, 64)?;
    let (ip, to) = (0x40_1000, 0x50_0000);
    let trampoline = hooks.install(rt.alloc(), ip, &FUNCTION, to, StartTarget::Moved)?;
    println!(rt; "{trampoline:x} {}", hooks.live().len())?; // 600000 1
    hooks.remove(trampoline)?;
    Ok(())
}

/// Hooks a function twice.
fn hook_twice(rt: &HostRuntime) -> anyhow::Result<()> {
    let mut hooks = Hooks::make(rt.alloc(), Bits::B64, 0x60_0000, 4096, 64)?;
    let (ip, to) = (0x40_1000, 0x50_0000);
    let first = hooks.install(rt.alloc(), ip, &FUNCTION, to, StartTarget::Moved)?;
    let now = [0xE9, 0xFB, 0xEF, 0x0F, 0x00, 0xCC, 0x5D, 0xC3]; // its patch, and the rest
    let last = hooks.install_over(rt.alloc(), ip, &now, 0x51_0000, StartTarget::Moved)?;
    println!(rt; "{first:x} {last:x}")?; // 600000 600040
    println!(rt; "{:?}", hooks.remove(first).err())?; // Some(Covered { place: 6291456, by: 6291520 })
    Ok(())
}

/// Writes a listing to a sink.
fn list_function(rt: &HostRuntime) -> anyhow::Result<()> {
    let mut source = MemSource::new(&FUNCTION);
    let mut sink = MemSink::new(rt.alloc(), 4096)?;
    let lines = Lines::Listing {
        syntax: Style::Intel,
    };
    let items = stream_lines(Bits::B64, 0x40_1000, lines, &mut source, &mut sink)?;
    println!(rt; "{items} items, {} bytes", sink.bytes().len())?; // 5 items, 287 bytes
    Ok(())
}

/// Runs the examples about single instructions.
fn run_reading(rt: &HostRuntime) -> anyhow::Result<()> {
    read_one(rt)?;
    read_two(rt)?;
    read_each(rt)?;
    read_function(rt)?;
    find_parts(rt)?;
    encode_jump(rt)?;
    assemble_one(rt)?;
    build_loop(rt)?;
    build_table(rt)?;
    build_prepared(rt)?;
    make_room(rt)?;
    add_prepared(rt)?;
    add_prepared_jumps(rt)?;
    assemble_lines(rt)?;
    assemble_table(rt)?;
    assemble_named(rt)?;
    refuse_far(rt)?;
    find_labels(rt)?;
    assemble_jumps(rt)?;
    print_one(rt)?;
    show_pieces(rt)?;
    print_and_count(rt)?;
    show_distance(rt)
}

/// Runs the examples about effects and rows.
fn run_effects(rt: &HostRuntime) -> anyhow::Result<()> {
    show_registers(rt)?;
    show_memory(rt)?;
    show_flags(rt)?;
    show_row(rt)
}

/// Runs the examples about what a hook's author needs before and after a detour is made.
fn run_writing(rt: &HostRuntime) -> anyhow::Result<()> {
    reserve_trampoline(rt)?;
    order_writes(rt)
}

/// Runs all examples.
pub fn run(rt: &HostRuntime) -> anyhow::Result<()> {
    run_reading(rt)?;
    run_effects(rt)?;
    move_function(rt)?;
    reserve_block(rt)?;
    step_one(rt)?;
    follow_control(rt)?;
    hook_function(rt)?;
    see_function(rt)?;
    hook_by_rules(rt)?;
    hook_behind_endbr(rt)?;
    hook_through_padding(rt)?;
    run_writing(rt)?;
    keep_hook(rt)?;
    hook_twice(rt)?;
    list_function(rt)
}
