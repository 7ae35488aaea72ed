// Files from tables, and the faults that a reader must tell of them.
use problems::read_problem;
use register_files::read_register;
use std::alloc::{AllocError, Global};
use std::fmt::Debug;
use std::process::Abort;
use std::test::Fail;
use words::faults::{Fault, Refusal};

// Which reader reads. A name and no closure: a trial of either is one type, and its methods ask nothing of what they call.
#[derive(Clone, Copy)]
pub enum Reader {
    Register,
    Problem,
}

impl Reader {
    // Whether a file is read, or the fault for which it is refused.
    pub fn reads(self, words: &[u32]) -> Result<(), Fault> {
        match self {
            Reader::Register => read_register(words).map(|_| ())?,
            Reader::Problem => read_problem(words).map(|_| ())?,
        }
        Ok(())
    }

    pub(crate) fn on_trial(self, rt: &HostRuntime) -> Trial<'_, HostRuntime> {
        Trial {
            rt,
            heap: rt.alloc(),
            reader: self,
        }
    }
}

// A file that is refused, why, and at which place.
#[derive(Clone, Copy)]
pub struct Refused(pub &'static [u32], pub Refusal, pub usize);

// The same, with the fault as a word.
#[derive(Clone, Copy)]
pub struct Worded(pub &'static [u32], pub Refusal, pub usize, pub u32);

// A file with another word at a place (behind its last word, one more), the refusal and its place.
#[derive(Clone, Copy)]
pub struct Edit(pub usize, pub u32, pub Refusal, pub usize);

// The first word, by how much each next one is larger, and how many there are.
#[derive(Clone, Copy)]
pub struct Run(pub u32, pub u32, pub u32);

// A file of runs that is refused, why, and at which place.
#[derive(Clone, Copy)]
pub struct RunsRefused(pub &'static [Run], pub Refusal, pub usize);

// A file of runs that is taken, and its outline.
#[derive(Clone, Copy)]
pub struct Taken<T>(pub &'static [Run], pub T);

// Adds the words of a run.
fn push_run(words: &mut Vec<u32>, run: Run) -> Result<(), AllocError> {
    let mut word = run.0;
    for _ in 0..run.2 {
        words.push(word)?;
        word = word.wrapping_add(run.1);
    }
    Ok(())
}

// Adds the words of all runs.
pub(crate) fn push_runs(words: &mut Vec<u32>, runs: &[Run]) -> Result<(), AllocError> {
    for run in runs {
        push_run(words, *run)?;
    }
    Ok(())
}

// The words of runs.
pub(crate) fn built(heap: Global, runs: &[Run]) -> Result<Vec<u32>, AllocError> {
    let mut words = Vec::new(heap);
    push_runs(&mut words, runs)?;
    Ok(words)
}

// The words with another one at a place, or with one more.
fn edited(heap: Global, words: &[u32], at: usize, word: u32) -> Result<Vec<u32>, AllocError> {
    let mut copy = words.to_vec(heap)?;
    match copy.get_mut(at) {
        Some(old) => *old = word,
        None => copy.push(word)?,
    }
    Ok(copy)
}

// The next two keep bare numbers: they are a second source of the format, against which the readers are tested.

// Whether a word of that tag may stand where a run of other words can end.
fn may_follow(tag: u32) -> bool {
    matches!(tag, 1 | 2 | 3 | 5 | 7 | 10 | 12)
}

// The lowest bit of a word that belongs to no field; 28 if there is none.
fn lowest_free(word: u32) -> u32 {
    match word / 0x10000000 {
        4 | 8 => 8,
        3 => 24,
        7 | 12 => 28,
        _ => 16,
    }
}

// A reader on trial: what it must take, and what it must refuse.
#[derive(Drop)]
pub(crate) struct Trial<'a, A> {
    rt: &'a A,
    heap: Global,
    reader: Reader,
}

impl<A: Abort> Trial<'_, A> {
    pub(crate) fn takes_each<T: Copy + PartialEq + Debug, F: Fn(&[u32]) -> Option<T>>(
        &self,
        table: &[Taken<T>],
        outline: F,
    ) -> Result<(), Fail>
        requires { F.IsAlwaysCallable outline }
    {
        for (row, case) in table.iter().enumerate() {
            let words = built(self.heap, case.0)?;
            assert_eq!(self.rt; (row, outline(&words)), (row, Some(case.1)));
        }
        Ok(())
    }

    fn refuses(&self, row: usize, words: &[u32], refusal: Refusal, place: usize) {
        assert_eq!(self.rt;
            (row, self.reader.reads(words)),
            (row, Err(refusal.at(place)))
        );
    }

    pub(crate) fn refuses_each(&self, table: &[Refused]) {
        for (row, case) in table.iter().enumerate() {
            self.refuses(row, case.0, case.1, case.2);
        }
    }

    pub(crate) fn refuses_worded(&self, table: &[Worded]) {
        for (row, case) in table.iter().enumerate() {
            self.refuses(row, case.0, case.1, case.2);
            assert_eq!(self.rt; (row, case.1.at(case.2).word()), (row, case.3));
        }
    }

    pub(crate) fn refuses_runs(&self, table: &[RunsRefused]) -> Result<(), Fail> {
        for (row, case) in table.iter().enumerate() {
            self.refuses(row, &built(self.heap, case.0)?, case.1, case.2);
        }
        Ok(())
    }

    // The first words of a whole file, however many: the next one is missing.
    pub(crate) fn misses_each(&self, words: &[u32]) {
        for n in 0..words.len() {
            self.refuses(n, &words[..n], Refusal::Missing, n);
        }
    }

    // The words are refused with this one at a place.
    fn refuses_edited(&self, row: usize, words: &[u32], edit: Edit) -> Result<(), Fail> {
        let file = edited(self.heap, words, edit.0, edit.1)?;
        self.refuses(row, &file, edit.2, edit.3);
        Ok(())
    }

    pub(crate) fn refuses_edits(&self, words: &[u32], table: &[Edit]) -> Result<(), Fail> {
        for (row, edit) in table.iter().enumerate() {
            self.refuses_edited(row, words, *edit)?;
        }
        Ok(())
    }

    // Another tag at a place is wrong there, unless both tags may follow a run.
    fn refuses_tags_at(&self, words: &[u32], at: usize, word: u32) -> Result<(), Fail> {
        let tag = word / 0x10000000;
        for other in 0..16u32 {
            if other != tag && !(may_follow(tag) && may_follow(other)) {
                let wrong = other * 0x10000000 + word % 0x10000000;
                self.refuses_edited(at, words, Edit(at, wrong, Refusal::Wrong, at))?;
            }
        }
        Ok(())
    }

    pub(crate) fn refuses_tags(&self, words: &[u32]) -> Result<(), Fail> {
        for (at, word) in words.iter().enumerate() {
            self.refuses_tags_at(words, at, *word)?;
        }
        Ok(())
    }

    // Each bit without a field is wrong where it is set.
    fn refuses_bits_at(&self, words: &[u32], at: usize, word: u32) -> Result<(), Fail> {
        for bit in lowest_free(word)..28 {
            let wrong = word | (1u32 << bit);
            self.refuses_edited(at, words, Edit(at, wrong, Refusal::Wrong, at))?;
        }
        Ok(())
    }

    pub(crate) fn refuses_bits(&self, words: &[u32]) -> Result<(), Fail> {
        for (at, word) in words.iter().enumerate() {
            self.refuses_bits_at(words, at, *word)?;
        }
        Ok(())
    }
}
