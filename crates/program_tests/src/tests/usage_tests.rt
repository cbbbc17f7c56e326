//! Which word of a command line is wrong: the first that is not allowed, missing or too many.

use crate::tests::outcomes::wrote;
use crate::tests::runs::run_command;
use std::alloc::{AllocError, Global};
use std::process::Abort;
use std::test::Fail;

/// The message for a wrong word, by its number.
fn wrong_word(alloc: Global, word: u64) -> Result<String, AllocError> {
    format!(in alloc; "usage: word {word}\n")
}

/// That a command writes nothing for NOP and tells that the word of this number is wrong.
fn has_wrong_word(rt: &impl Abort, alloc: Global, command: &str, word: u64) -> Result<(), Fail> {
    let told = wrong_word(alloc, word)?;
    let ran = run_command(alloc, command, &[0x90])?;
    wrote(rt, &ran, (1, "", &told), command, "90")
}

#[test]
fn a_wrong_word_is_named(rt: HostRuntime) -> Result<(), Fail> {
    let cases = &[
        ("", 1),
        ("lists 64 0 intel", 1),
        ("list", 2),
        ("list 8 0 intel", 2),
        ("--help list", 2),
        ("list 16 10000 intel", 3),
        ("list 64 0x10 intel", 3),
        ("list 64 00000000000000001 intel", 3),
        ("list 64  intel", 3),
        ("list 64 0", 4),
        ("list 64 0 ATT", 4),
        ("list 64 0 gas", 4),
        ("list 64 0 masm x", 5),
        ("list 64 0 intel intel", 5),
        ("rows x", 2),
        ("info", 2),
        ("info 8 0", 2),
        ("info 64", 3),
        ("info 16 10000", 3),
        ("info 64 0 intel", 4),
        ("recode", 2),
        ("recode 32 100000000 64 0", 3),
        ("recode 64 0", 4),
        ("recode 64 1000 10 0", 4),
        ("recode 64 0 64", 5),
        ("recode 64 0 16 10000", 5),
        ("recode 64 0 16 ffff 0", 6),
        ("asm", 2),
        ("asm 8 0", 2),
        ("asm 64", 3),
        ("asm 16 10000", 3),
        ("asm 64 0 intel", 4),
        ("flow", 2),
        ("flow 8 0", 2),
        ("flow 64", 3),
        ("flow 16 10000", 3),
        ("flow 64 0 intel", 4),
        ("move", 2),
        ("move 64 1000", 4),
        ("move 64 1000 2000 x", 5),
        ("map 16 0 10000", 4),
        ("map 64 1000 2000 x", 5),
        ("blocks", 2),
        ("blocks 64", 3),
        ("blocks 16 10000", 3),
        ("blocks 64 1000", 4),
        ("blocks 64 1000 5000 5", 6),
        ("blocks 64 1000 5000 x 2000 9000", 5),
        ("blocks 64 1000 5000 00000000000000005 2000 9000", 5),
        ("blocks 32 1000 5000 5 2000 100000000", 7),
        ("slots", 2),
        ("slots 8 0 0 10", 2),
        ("slots 64", 3),
        ("slots 16 10000 0 10", 3),
        ("slots 64 1000", 4),
        ("slots 16 0 10000 10", 4),
        ("slots 64 0 2000h 10", 4),
        ("slots 64 1000 2000", 5),
        ("slots 64 1000 2000 8", 5),
        ("slots 64 1000 2000 0", 5),
        ("slots 64 1000 2000 18", 5),
        ("slots 64 1000 2000 100010", 5),
        ("slots 64 1000 2000 fffffffffffffff0", 5),
        ("slots 64 1000 2000 00000000000000010", 5),
        ("slots 16 0 fff0 20", 5),
        ("slots 32 0 fffffff0 20", 5),
        ("slots 64 0 fffffffffffffff0 20", 5),
        ("slots 64 1000 2000 10 10", 6),
        ("sample", 2),
        ("sample 0", 2),
        ("sample 10001", 2),
        ("sample 0x1", 2),
        ("sample 1 1", 3),
    ];
    for (command, word) in cases {
        has_wrong_word(&rt, rt.alloc(), command, *word)?;
    }
    Ok(())
}

// Sixteen blocks have 49 words.
#[test]
fn at_most_sixteen_blocks_are_taken(rt: HostRuntime) -> Result<(), Fail> {
    let mut command = String::new(rt.alloc());
    command.push_str("blocks")?;
    for _ in 0..48 {
        command.push_str(" 16")?;
    }
    let ran = run_command(rt.alloc(), &command, &[])?;
    wrote(&rt, &ran, (0, "", ""), &command, "")?;
    command.push_str(" 16")?;
    let ran = run_command(rt.alloc(), &command, &[])?;
    wrote(&rt, &ran, (1, "", "usage: word 50\n"), &command, "")
}
