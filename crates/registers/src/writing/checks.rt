// What is tested before a register is written.
ghost use Rattle.std.specs.Prelude.{◌≡◌, ◌≤◌, length};
ghost use Rattle.registers.specs.Meaning.{Lawful};
ghost use Rattle.registers.specs.Writing.{crowded, large, astray as astray_of, strays as strays_of, broken, lowest};
ghost use Rattle.registers.specs.Parts.{file_words, row_words, links_words};

use crate::register::Register;

// Whether a kind has more than 65,535 records.
fn is_crowded<R: Register>(register: &R) -> bool
    ensures { result ≡ crowded (R.meaning register.now) }
{
    (0..register.kinds()).any(|kind| register.count(kind) > 65535)
}

// Whether a register passes the limits of a register file.
pub(crate) fn is_large<R: Register>(register: &R) -> bool
    ensures answer { result ≡ large (R.meaning register.now) }
    ensures lawful { Lawful (R.meaning register.now) }
{
    register.kinds() > 32 || register.links() > 64 || is_crowded(register)
}

// Whether an answer is not one of the first `size` records.
fn astray(size: u32, answer: Option<u32>) -> bool
    ensures { result ≡ astray_of size answer }
{
    answer.is_none_or(|led| led >= size)
}

// Whether a record of one kind does not lead to one of another.
pub fn strays<R: Register>(register: &R, link: u32, from: u32, to: u32) -> bool
    ensures { result ≡ strays_of (R.meaning register.now) link from to }
{
    let size = register.count(to);
    // No `any`: out of its closure the optimizer does not take the reading of the link's word, which then costs twice the time.
    for r in 0..register.count(from) {
        if astray(size, register.follow(link, r)) {
            return true;
        }
    }
    false
}

// Whether a link cannot be written.
fn is_broken<R: Register>(register: &R, link: u32) -> bool
    ensures { result ≡ broken (R.meaning register.now) link }
{
    let kinds = register.kinds();
    register.ends(link).is_none_or(|(from, to)| {
        !(from < kinds && to < kinds) || strays(register, link, from, to)
    })
}

// The lowest link that cannot be written.
pub(crate) fn lowest_broken<R: Register>(register: &R) -> Option<u32>
    ensures { result ≡ lowest (broken (R.meaning register.now)) (R.meaning register.now).links }
{
    (0..register.links()).find(|link| is_broken(register, *link))
}

// How many words a link takes.
fn link_size<R: Register>(register: &R, link: u32) -> usize
    ensures words { result ≡ length (row_words (R.meaning register.now) link) }
    ensures fits { result ≤ 4294967296 }
{
    register
        .ends(link)
        .map_or(1, |(from, _)| 1 + register.count(from) as usize)
}

// How many words the links take.
fn links_size<R: Register>(register: &R) -> usize
    requires { (R.meaning register.now).links ≤ 64 }
    ensures words { result ≡ length (links_words (R.meaning register.now) (R.meaning register.now).links) }
    ensures fits { result ≤ 274877906944 }
{
    (0..register.links())
        .map(|link| link_size(register, link))
        .sum()
}

// How many words a register takes.
pub(crate) fn size<R: Register>(register: &R) -> usize
    requires { (R.meaning register.now).links ≤ 64 }
    ensures { result ≡ length (file_words (R.meaning register.now)) }
{
    register.kinds() as usize + links_size(register) + 2
}
