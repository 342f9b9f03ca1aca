// Grounds 1 to 5 along the chain of a plan (those of one record are crate recordgrounds'), and the tables that are filled on the way:
// excluded ranges go into `reach` and `hot` (crate ranges), the numbers of the kind 3 records, in the order of the chain, into
// `pil`, and their indices into `rec`. The walk starts at record 0, or goes on at a later one with the tables of those before it.
#![tactic(auto)]

ghost use Rattle.std.specs.Prelude.{◌≡◌, true, false, length, ◌+◌, ◌/◌, ◌≤◌, ◌<◌};
ghost use Rattle.counting.specs.Search.{bit};
ghost use Rattle.rules.specs.Fits.{Fits};
ghost use Rattle.rules.specs.Plan.{is_range};
ghost use Rattle.rules.specs.Grounds.{bad_length, grounds1to5, pilots_max};
ghost use Rattle.ranges.specs.Reach.{Table, Flags};
ghost use Rattle.records.specs.Read.{entry_of, Narrow};
ghost use Rattle.plan.specs.Noted.{finding_of, Filled};
ghost use Rattle.plan.specs.Walk.{PutIf, Taken, Kept};

use ranges::note_if;
use recordgrounds::record_ground;
use records::{Record, bad_length, record_at};
use rules::{Device, Refusal};

// A chain in which no ground holds: how many pilots it has, and the index of its last record.
#[derive(Clone, Copy)]
pub struct GoodChain {
    pub pilots: usize,
    pub last: usize,
}

// A number put behind the first `np`, if `on`.
fn put_if(on: bool, np: usize, v: u16, list: &mut [u16; 128])
    requires { (length list.old ≡ 128) × (np < 128) }
    ensures { PutIf on np v list.old list.new }
{
    if !on {
        return;
    }
    list[np] = v;
}

// One more pilot, if `on`.
fn one_more(np: usize, on: bool) -> usize
    requires { np ≤ pilots_max }
    ensures { result ≡ np + bit on }
{
    if on {
        return np + 1;
    }
    np
}

// A record in which no ground holds is taken: a range goes into `reach` and `hot`, a pilot behind the `np` of `pil` and `rec`.
// The answer is how many pilots there are then.
fn take_record(
    size: usize,
    np: usize,
    e: Record,
    reach: &mut [u16; 4096],
    hot: &mut [u8; 256],
    pil: &mut [u16; 128],
    rec: &mut [u16; 128],
) -> usize
    requires { Table reach.old size × Flags reach.old hot.old × (size ≤ 4096) × (is_range (entry_of e) ≡ true → (e.low < e.high + 1) × (e.high + 1 ≤ size)) × Narrow (entry_of e) × (np ≤ pilots_max) × (length pil.old ≡ 128) × (length rec.old ≡ 128) }
    ensures { Taken size (entry_of e) np result reach.old pil.old rec.old reach.new hot.new pil.new rec.new }
{
    note_if(e.kind == 2, e.low, e.high + 1, size, reach, hot);
    put_if(e.kind == 3, np, e.low as u16, pil);
    put_if(e.kind == 3, np, e.index as u16, rec);
    one_more(np, e.kind == 3)
}

// Grounds 1 to 5; the ranges and the pilots of a good chain go into the tables. The walk goes on at record `from` of the chain, in whose
// records before it no ground holds; their ranges and `before` pilots are in the tables.
pub fn walk_chain(
    d: Device,
    plan: &[u8],
    from: usize,
    before: usize,
    reach: &mut [u16; 4096],
    hot: &mut [u8; 256],
    pil: &mut [u16; 128],
    rec: &mut [u16; 128],
) -> Result<GoodChain, Refusal>
    requires { Fits d × (bad_length plan.now ≡ false → Kept d plan.now (length plan.now / 8) from before reach.old hot.old pil.old rec.old) }
    ensures { (finding_of result ≡ grounds1to5 d plan.now) × Filled result d plan.now reach.new hot.new pil.new rec.new }
{
    if bad_length(plan) {
        return Err(Refusal {
            number: 1,
            place: 0,
        });
    }
    let records = plan.len() / 8;
    let mut i = from;
    let mut np = before;
    // Counted by hand: each record names the next one, so that the data say how far i goes.
    loop {
        let e = record_at(plan, i);
        if let Some(number) = record_ground(d, records, np, e) {
            return Err(Refusal {
                number,
                place: i as u32,
            });
        }
        np = take_record(d.subcarriers, np, e, reach, hot, pil, rec);
        if e.next == 0 {
            return Ok(GoodChain {
                pilots: np,
                last: i,
            });
        }
        i = e.next;
    }
}
