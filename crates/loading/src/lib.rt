// The load of an opened table: every test first, then the copies of the problem and of the source.
#![tactic(auto)]

ghost use Rattle.std.specs.Prelude.{◌≡◌, ◌+◌, ◌/◌, ◌≤◌, min};
ghost use Rattle.loading.specs.Taking.{Plans, Takes};

use crate::copies::{clear, put_words};
use crate::offer::Offer;
use crate::places::{pile, stack};
use machine::answers::LoadFault;
use problems::read_problem;
use registers::register::Register;
use rows::Source;
use rows::problem::Load;

mod copies;
mod offer;
mod places;

// What a load found, and where its parts lie.
#[derive(Clone, Copy)]
pub struct Loading {
    pub load: Load,
    pub source: Source,
    pub lands: usize,
    pub records: usize,
    pub base: usize,
    pub links: usize,
    pub capacity: usize,
}

// The entries that so many words hold.
fn entries(room: usize, links: usize) -> usize
    requires { links ≤ 64 }
    ensures { result ≡ min 65535 (room / (links + 3)) }
{
    (room / (links + 3)).min(65535)
}

// The tests in their order; nothing is written.
fn plan<R: Register>(work: usize, problem: &[u32], source: &R) -> Result<Loading, LoadFault>
    ensures { Plans work problem.now (R.meaning source.now) result }
{
    let found = read_problem(problem)?;
    let schema = found.source;
    let offer = Offer {
        problem,
        schema,
        source,
    };
    if offer.other_shape() {
        return Err(LoadFault::Shape);
    }
    let lands = problem.len();
    let counts = offer.counts();
    let (kinds, next) = stack(&counts[..schema.kinds as usize], lands);
    let records = next - lands;
    if records > 4095 {
        return Err(LoadFault::Large);
    }
    if let Some(link) = offer.lowest_stray() {
        return Err(LoadFault::Leads(link));
    }
    let (leads, base) = pile(&offer.leavings()[..schema.links], next);
    let Some(room) = work.checked_sub(base) else {
        return Err(LoadFault::Memory);
    };
    let links = found.target.links;
    Ok(Loading {
        load: Load { found, leads },
        source: kinds,
        lands,
        records,
        base,
        links,
        capacity: entries(room, links),
    })
}

// Takes a problem and a source into the work words. A refusal changes nothing.
pub fn load<R: Register>(
    words: &mut [u32],
    problem: &[u32],
    source: &R,
) -> Result<Loading, LoadFault>
    ensures { Takes words.old problem.now (R.meaning source.now) result words.new }
{
    let loading = plan(words.len(), problem, source)?;
    put_words(words, problem);
    clear(words, loading.lands, loading.records);
    let offer = Offer {
        problem,
        schema: loading.load.found.source,
        source,
    };
    offer.put_links(words, loading.lands + loading.records);
    Ok(loading)
}
