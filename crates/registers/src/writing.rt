// Any register as words.
ghost use Rattle.std.specs.Prelude.{◌≡◌};
ghost use Rattle.registers.specs.Writing.{written, ReadBack, SameWords};
ghost use Rattle.registers.specs.WriteFaults.{write_fault};

use crate::register::Register;
use crate::writing::checks::{is_large, lowest_broken, size};
use crate::writing::parts::Tested;
use words::faults::{Fault, Refusal};

pub mod checks;
pub mod each;
pub mod parts;

// Why a register is not written.
#[derive(Clone, Copy, PartialEq, Eq, Debug)]
pub enum WriteFault {
    Large,
    Leads(u32),
    Memory,
}

impl From<WriteFault> for Fault {
    ghost from_gives = { λ f r. r ≡ write_fault f };

    fn from(f: WriteFault) -> Fault {
        match f {
            WriteFault::Large => Refusal::Large.at(0),
            WriteFault::Leads(link) => Refusal::Leads.at(link as usize),
            WriteFault::Memory => Refusal::Memory.at(0),
        }
    }
}

// Writes a register as a register file without landings; tells how many words.
// A refusal changes nothing, and what stands behind the words is kept.
pub fn write<R: Register>(register: &R, out: &mut [u32]) -> Result<usize, WriteFault>
    ensures answer { (result, out.new) ≡ written (R.meaning register.now) out.old }
    ensures back { ReadBack (R.meaning register.now) result out.new }
    ensures again { SameWords (R.meaning register.now) result out.new }
{
    if is_large(register) {
        return Err(WriteFault::Large);
    }
    if let Some(link) = lowest_broken(register) {
        return Err(WriteFault::Leads(link));
    }
    if size(register) > out.len() {
        return Err(WriteFault::Memory);
    }
    Ok(Tested { register }.put_file(out))
}
