// What is written of registers, and what is read back.
use crate::files::{Run, built};
use crate::write_tables::{
    BLANK_REFUSED, BLANK_WRITTEN, BlankRefused, BlankWritten, LANDED, LOOSE_REFUSED, LOOSE_WRITTEN,
    Landed, LooseRefused, LooseWritten, SAME, STILL, STILLER, Same, THREE, Turned, WHEELS,
};
use registers::blank::Blank;
use registers::held::Held;
use registers::register::Register;
use registers::wheel::Wheel;
use registers::writing::write;
use std::alloc::Global;
use std::process::Abort;
use std::test::Fail;
use words::faults::{Fault, Refusal};

// What the memory holds before a write.
const FILL: u32 = 0x5EED5EED;

// A register on trial: how it is written and read back.
#[derive(Drop)]
struct Trial<'a, 'r, A, R> {
    rt: &'a A,
    heap: Global,
    register: &'r R,
}

impl<A: Abort, R: Register> Trial<'_, '_, A, R> {
    // A write into that much memory is refused, and changes none of it.
    fn refuses(&self, room: usize, refusal: Refusal, place: usize) -> Result<(), Fail> {
        let mut out = Vec::from_elem(self.heap, FILL, room)?;
        let told = write(self.register, &mut out).map_err(Fault::from);
        assert_eq!(self.rt; told, Err(refusal.at(place)));
        assert_eq!(self.rt; out, Vec::from_elem(self.heap, FILL, room)?);
        Ok(())
    }

    // A write into more memory than the words need tells how many they are, and keeps what stands behind them.
    fn writes_before(&self, words: &[u32], more: usize) -> Result<(), Fail> {
        let mut whole = words.to_vec(self.heap)?;
        whole.extend_from_slice(&Vec::from_elem(self.heap, FILL, more)?)?;
        let mut out = Vec::from_elem(self.heap, FILL, whole.len())?;
        assert_eq!(self.rt; write(self.register, &mut out).ok(), Some(words.len()));
        assert_eq!(self.rt; out, whole);
        Ok(())
    }

    // The register is written as these words, and refused where there is less memory.
    fn writes(&self, words: &[u32]) -> Result<(), Fail> {
        for more in [0, 1, 5] {
            self.writes_before(words, more)?;
        }
        self.refuses(words.len().saturating_sub(1), Refusal::Memory, 0)?;
        self.refuses(0, Refusal::Memory, 0)
    }

    // These words are read back with the same answers, and written again as the same words.
    fn is_in(&self, words: &[u32]) -> Result<(), Fail> {
        let mut held = Held::new();
        assert_eq!(self.rt; held.take(words), Ok(()));
        same(self.rt, self.register, &held);
        on_trial(self.rt, self.heap, &held).writes(words)
    }

    // What is written, into exactly that much memory, is read back with the same answers.
    fn comes_back(&self, room: usize) -> Result<(), Fail> {
        let mut out = Vec::from_elem(self.heap, FILL, room)?;
        assert_eq!(self.rt; write(self.register, &mut out).ok(), Some(room));
        self.is_in(&out)
    }
}

fn on_trial<'a, 'r, A: Abort, R: Register>(
    rt: &'a A,
    heap: Global,
    register: &'r R,
) -> Trial<'a, 'r, A, R> {
    Trial { rt, heap, register }
}

fn writes_loose(rt: &impl Abort, heap: Global, table: &[LooseWritten]) -> Result<(), Fail> {
    for case in table {
        let words = built(heap, case.1)?;
        let loose = on_trial(rt, heap, &case.0);
        loose.writes(&words)?;
        loose.is_in(&words)?;
    }
    Ok(())
}

fn refuses_loose(rt: &impl Abort, heap: Global, table: &[LooseRefused]) -> Result<(), Fail> {
    for case in table {
        let loose = on_trial(rt, heap, &case.0);
        loose.refuses(0, case.1, 0)?;
        loose.refuses(300, case.1, 0)?;
    }
    Ok(())
}

#[test]
fn writes_loose_registers(rt: HostRuntime) -> Result<(), Fail> {
    writes_loose(&rt, rt.alloc(), &LOOSE_WRITTEN)?;
    refuses_loose(&rt, rt.alloc(), &LOOSE_REFUSED)
}

fn writes_blank(rt: &impl Abort, heap: Global, table: &[BlankWritten]) -> Result<(), Fail> {
    for case in table {
        let mut held = Held::new();
        assert_eq!(rt; held.take(case.0), Ok(()));
        let blank = Blank::over(held);
        let layer = on_trial(rt, heap, &blank);
        layer.writes(case.1)?;
        layer.is_in(case.1)?;
    }
    Ok(())
}

fn refuses_blank(rt: &impl Abort, heap: Global, table: &[BlankRefused]) -> Result<(), Fail> {
    for case in table {
        let words = built(heap, case.0)?;
        let mut held = Held::new();
        assert_eq!(rt; held.take(&words), Ok(()));
        let blank = Blank::over(held);
        let layer = on_trial(rt, heap, &blank);
        layer.refuses(0, Refusal::Leads, case.1)?;
        layer.refuses(words.len(), Refusal::Leads, case.1)?;
    }
    Ok(())
}

#[test]
fn writes_blank_layers(rt: HostRuntime) -> Result<(), Fail> {
    writes_blank(&rt, rt.alloc(), &BLANK_WRITTEN)?;
    refuses_blank(&rt, rt.alloc(), &BLANK_REFUSED)
}

#[test]
fn writes_blank_over_wheel(rt: HostRuntime) -> Result<(), Fail> {
    let still = Blank::over(Wheel::new(3, &[0]));
    on_trial(&rt, rt.alloc(), &still).writes(&STILL)?;
    on_trial(&rt, rt.alloc(), &Blank::over(still)).writes(&STILLER)?;
    let second = Blank::over(Wheel::new(3, &[0, 1]));
    on_trial(&rt, rt.alloc(), &second).refuses(9, Refusal::Leads, 1)?;
    let first = Blank::over(Wheel::new(3, &[1]));
    on_trial(&rt, rt.alloc(), &first).refuses(0, Refusal::Leads, 0)
}

// A file that is held is written as these words.
fn writes_held(rt: &impl Abort, heap: Global, file: &[Run], after: &[Run]) -> Result<(), Fail> {
    let words = built(heap, file)?;
    let mut held = Held::new();
    assert_eq!(rt; held.take(&words), Ok(()));
    on_trial(rt, heap, &held).writes(&built(heap, after)?)
}

fn writes_same(rt: &impl Abort, heap: Global, table: &[Same]) -> Result<(), Fail> {
    for case in table {
        writes_held(rt, heap, case.0, case.0)?;
    }
    Ok(())
}

fn writes_landed(rt: &impl Abort, heap: Global, table: &[Landed]) -> Result<(), Fail> {
    for case in table {
        writes_held(rt, heap, case.0, case.1)?;
    }
    Ok(())
}

#[test]
fn writes_held_registers(rt: HostRuntime) -> Result<(), Fail> {
    on_trial(&rt, rt.alloc(), &Held::new()).writes(&[0x80000000, 0x70000001])?;
    writes_same(&rt, rt.alloc(), &SAME)?;
    writes_landed(&rt, rt.alloc(), &LANDED)
}

// Two registers answer alike of a link, from the first records and the largest.
fn same_link<A: Register, B: Register>(rt: &impl Abort, one: &A, other: &B, link: u32) {
    assert_eq!(rt; (link, one.ends(link)), (link, other.ends(link)));
    for r in (0..9).chain([65534, 65535, u32::MAX]) {
        assert_eq!(rt;
            (link, r, one.follow(link, r)),
            (link, r, other.follow(link, r))
        );
    }
}

// Two registers answer alike, of the first kinds and links and the largest.
fn same<A: Register, B: Register>(rt: &impl Abort, one: &A, other: &B) {
    assert_eq!(rt; (one.kinds(), one.links()), (other.kinds(), other.links()));
    for n in (0..10).chain([u32::MAX]) {
        assert_eq!(rt; (n, one.count(n)), (n, other.count(n)));
        same_link(rt, one, other, n);
    }
}

// The words of a wheel are three, and one more than its size for each of at most eight steps.
fn wheels_come_back(rt: &impl Abort, heap: Global, table: &[Turned]) -> Result<(), Fail> {
    for case in table {
        let links = case.1.len().min(8);
        let size = case.0 as usize;
        let wheel = Wheel::new(case.0, case.1);
        on_trial(rt, heap, &wheel).comes_back(3 + links * (size + 1))?;
    }
    Ok(())
}

#[test]
fn wheels_are_read_back(rt: HostRuntime) -> Result<(), Fail> {
    on_trial(&rt, rt.alloc(), &Wheel::new(3, &[1])).writes(&THREE)?;
    wheels_come_back(&rt, rt.alloc(), &WHEELS)
}

#[test]
fn layers_are_read_back(rt: HostRuntime) -> Result<(), Fail> {
    let still = Blank::over(Wheel::new(6, &[0, 6]));
    on_trial(&rt, rt.alloc(), &still).comes_back(15)?;
    on_trial(&rt, rt.alloc(), &Blank::over(still)).comes_back(13)?;
    on_trial(&rt, rt.alloc(), &Blank::over(Held::new())).comes_back(2)
}
