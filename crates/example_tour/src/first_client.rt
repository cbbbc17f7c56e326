//! A first program over the library, as one writes it who proves nothing: the code of standard input is listed, moved, placed in a region, stepped, and
//! followed.

use feddurzai::decoding::{CodeItem, read_items};
use feddurzai::flow::{FlowGraph, graph_of_code};
use feddurzai::format::Intel;
use feddurzai::info::{flow_of_instr, memory_size_of_instr, near_target};
use feddurzai::moving::{MovedCode, move_code};
use feddurzai::region::Region;
use feddurzai::slots::{StepSlots, step_code};
use feddurzai::values::Bits;
use std::io::Read;

const BITS: Bits = Bits::B64;

/// The old and the new address of the code.
const OLD: u64 = 0x40_1000;

const NEW: u64 = 0x7fff_0000_0000;

/// Writes the near target of an instruction, or else the size of its memory operand.
fn show_target(rt: &HostRuntime, item: &CodeItem) -> anyhow::Result<()> {
    match near_target(&item.instr) {
        Some(target) => println!(rt; " -> {target:x}")?,
        None => println!(rt; " {}", memory_size_of_instr(&item.instr))?,
    }
    Ok(())
}

/// Writes an instruction: its address, its text, its flow and its target.
fn show_item(rt: &HostRuntime, item: CodeItem) -> anyhow::Result<()> {
    let instr = item.instr;
    let text = Intel { bits: BITS, instr };
    print!(rt; "{:x}  {text:<34}{:?}", item.ip, flow_of_instr(&instr))?;
    show_target(rt, &item)
}

/// Writes each instruction of the code.
fn show_items(rt: &HostRuntime, code: &[u8]) -> anyhow::Result<()> {
    let items = read_items(rt.alloc(), BITS, OLD, code)?;
    for item in items.iter() {
        show_item(rt, item)?;
    }
    Ok(())
}

/// Writes bytes as hexadecimal digits.
fn show_bytes(rt: &HostRuntime, bytes: &[u8]) -> anyhow::Result<()> {
    println!(rt; "{}", hex::encode(rt.alloc(), bytes)?)?;
    Ok(())
}

/// Writes the new address of each instruction, and its form.
fn show_places(rt: &HostRuntime, moved: &MovedCode) -> anyhow::Result<()> {
    let places = moved.starts().iter().zip(moved.forms());
    for (item, (start, form)) in moved.items().iter().zip(places) {
        println!(rt; "{:x} -> {start:x} {form:?}", item.ip)?;
    }
    Ok(())
}

/// Moves the code to a place in a region, and writes the new addresses of its instructions.
fn move_into(rt: &HostRuntime, code: &[u8], region: &mut Region) -> anyhow::Result<()> {
    let place = region.place(64)?;
    let moved = move_code(rt.alloc(), BITS, OLD, code, place)?;
    region.try_fill(place, moved.bytes())?;
    show_places(rt, &moved)
}

/// Moves the code into a region, and writes the new addresses of its instructions and the bytes.
fn show_moved(rt: &HostRuntime, code: &[u8]) -> anyhow::Result<()> {
    let mut region = Region::make(rt.alloc(), NEW, 128, 8)?;
    move_into(rt, code, &mut region)?;
    show_bytes(rt, region.image())
}

/// Gives the first instruction a slot for single stepping, and writes the bytes of the slots.
fn show_slot(rt: &HostRuntime, code: &[u8]) -> anyhow::Result<()> {
    let mut slots = StepSlots::make(rt.alloc(), BITS, NEW, 64, 2)?;
    let place = step_code(&mut slots, rt.alloc(), OLD, code)?;
    print!(rt; "slot {place:x} ")?;
    show_bytes(rt, slots.image())?;
    slots.finish(place)?;
    Ok(())
}

/// Writes each offset that control reaches, the first one of its basic block, and its flow.
fn show_reached(rt: &HostRuntime, graph: &FlowGraph) -> anyhow::Result<()> {
    let blocks = graph.leaders().iter().zip(graph.flows());
    for (start, (leader, flow)) in graph.starts().iter().zip(blocks) {
        println!(rt; "{start:x} in {leader:x} {flow:?}")?;
    }
    Ok(())
}

/// Follows control through the code.
fn show_graph(rt: &HostRuntime, code: &[u8]) -> anyhow::Result<()> {
    let graph = graph_of_code(rt.alloc(), BITS, OLD, code)?;
    show_reached(rt, &graph)
}

/// Does all of it with the code of standard input.
pub fn run(rt: &HostRuntime) -> anyhow::Result<()> {
    let mut code = Vec::new(rt.alloc());
    rt.reader().read_to_end(&mut code)?;
    show_items(rt, &code)?;
    show_moved(rt, &code)?;
    show_slot(rt, &code)?;
    show_graph(rt, &code)
}
