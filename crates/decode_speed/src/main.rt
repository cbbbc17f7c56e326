//! How fast code is read: a sweep over standard input, pass after pass.
//!
//!     decode_speed WORK BITS PASSES
//!     decode_speed count BITS
//!
//! WORK is `read`; `print` to make the Intel text of each instruction too; `pieces` to make that text with its pieces; `format` to make it by
//! the default options and without symbols; `encode` to encode each at
//! its own address; or `check` to encode each and read it again. Passes are repeated until two seconds of processor time have gone by, or PASSES
//! times where that number is above 0. `check` prints a second line: how many are shorter, as long, longer or refused, and how many are not read
//! as the same instruction.
//!
//! `count` makes one pass of each work and prints what was counted, and no time.
#![tactic(auto)]

mod passes;

use passes::{Counts, Spellings, Work, pass};
use std::env;
use std::io::{self, Read};
use std::time::CpuClock;
use x86_values::Bits;

/// What the command line wants.
#[derive(Clone, Copy)]
enum Wanted {
    /// One pass of each work, and no time.
    Counts,
    /// Passes of one work, and their time.
    Time(Work),
}

/// Returns the mode that a word names, or 64 for any other word.
fn mode_of(word: &str) -> Bits {
    match word {
        "16" => Bits::B16,
        "32" => Bits::B32,
        _ => Bits::B64,
    }
}

/// Returns what a word wants, or reading for any other word.
fn wanted_of(word: &str) -> Wanted {
    match word {
        "count" => Wanted::Counts,
        "print" => Wanted::Time(Work::Print),
        "pieces" => Wanted::Time(Work::Pieces),
        "format" => Wanted::Time(Work::Format),
        "encode" => Wanted::Time(Work::Encode),
        "check" => Wanted::Time(Work::Check),
        _ => Wanted::Time(Work::Read),
    }
}

/// The name of a line of output.
fn name_of(work: Work) -> &'static str {
    match work {
        Work::Read => "feddurzai",
        Work::Print => "feddurzai, Intel text",
        Work::Pieces => "feddurzai, pieces",
        Work::Format => "feddurzai, by options",
        Work::Encode => "feddurzai, encoded",
        Work::Check => "feddurzai, read again",
    }
}

/// How long the encoded instructions are.
fn tell_spellings(rt: &HostRuntime, spellings: &Spellings) -> io::Result<()> {
    let (shorter, alike, longer) = (spellings.shorter, spellings.alike, spellings.longer);
    let (refused, differing) = (spellings.refused, spellings.differing);
    println!(rt;
        "shorter {shorter}, as long {alike}, longer {longer}, refused {refused}, read otherwise {differing}"
    )
}

/// What a pass of a work counts beside instructions and errors.
fn tell_result(rt: &HostRuntime, work: Work, counts: &Counts) -> io::Result<()> {
    match work {
        Work::Read | Work::Pieces | Work::Format => Ok(()),
        Work::Print => println!(rt; "text {} bytes", counts.text),
        Work::Encode | Work::Check => tell_spellings(rt, &counts.spellings),
    }
}

/// Makes one pass of each work.
fn tell_counts(rt: &HostRuntime, bits: Bits, bytes: &[u8]) -> io::Result<()> {
    for work in [Work::Read, Work::Print, Work::Encode, Work::Check] {
        let counts = pass(rt.alloc(), bytes, bits, work);
        let (name, items, errors) = (name_of(work), counts.items, counts.errors);
        println!(rt;
            "{name}: {} bytes {items} items {errors} errors",
            bytes.len()
        )?;
        tell_result(rt, work, &counts)?;
    }
    Ok(())
}

/// Makes passes of a work, and prints how long they took: so many passes, or as many as two seconds allow if the number is 0.
fn tell_time(
    rt: &HostRuntime,
    bits: Bits,
    bytes: &[u8],
    work: Work,
    wanted: u64,
) -> io::Result<()> {
    let name = name_of(work);
    let start = rt.process_cpu_time()?;
    for passes in 1..u64::MAX {
        let counts = pass(rt.alloc(), bytes, bits, work);
        let used = rt.process_cpu_time()?.saturating_sub(start);
        let done = if wanted > 0 {
            passes >= wanted
        } else {
            used.as_secs() >= 2
        };
        if done {
            let (items, errors) = (counts.items, counts.errors);
            let sum = counts.sum.wrapping_add(counts.text);
            let micros = used.as_micros();
            println!(rt;
                "{name}: {} bytes {items} items {errors} errors {sum} sum {passes} passes {micros} us",
                bytes.len()
            )?;
            if let Work::Check = work {
                tell_spellings(rt, &counts.spellings)?;
            }
            break;
        }
    }
    Ok(())
}

fn main(rt: HostRuntime) -> io::Result<()> {
    let mut words = env::args(&rt)?.skip(1);
    let wanted = match words.next() {
        Some(word) => wanted_of(word.as_str()),
        None => Wanted::Time(Work::Read),
    };
    let bits = match words.next() {
        Some(word) => mode_of(word.as_str()),
        None => Bits::B64,
    };
    let passes = match words.next() {
        Some(word) => word.as_str().parse::<u64>().unwrap_or(0),
        None => 0,
    };
    let mut bytes = Vec::new(rt.alloc());
    rt.stdin().read_to_end(&mut bytes)?;

    match wanted {
        Wanted::Counts => tell_counts(&rt, bits, &bytes),
        Wanted::Time(work) => tell_time(&rt, bits, &bytes, work, passes),
    }
}
