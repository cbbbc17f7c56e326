//! Code as lines of text.

use feddurzai::decoding::Items;
use feddurzai::format::{Intel, Style, print_att, register_text};
use feddurzai::info::{flow_of_instr, used_registers};
use feddurzai::values::{Bits, Decoded};
use std::str::from_utf8;

/// Writes a line for each instruction: its address, its text in two styles, where control goes, and what it does to registers.
pub fn show(rt: &HostRuntime, bits: Bits, ip: u64, code: &[u8]) -> anyhow::Result<()> {
    for item in Items::new(bits, ip, code) {
        match item.reading {
            Ok(Decoded { instr, len: _ }) => {
                let intel = Intel { bits, instr };
                let att = print_att(bits, &instr);
                let att = from_utf8(&att)?;
                print!(rt;
                    "{:x}  {intel:<34}{att:<34}{:?}",
                    item.ip,
                    flow_of_instr(&instr)
                )?;
                for used in used_registers(&instr).iter() {
                    let name = register_text(Style::Intel, used.reg);
                    print!(rt; " {}:{:?}", from_utf8(&name)?, used.access)?;
                }
                println!(rt; "")?;
            }
            Err(error) => println!(rt; "{:x}  {error}", item.ip)?,
        }
    }
    Ok(())
}
