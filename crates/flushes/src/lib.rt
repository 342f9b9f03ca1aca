// The places of fresh stores: an emitter's, which hold the flushes that would have come before its first step, and places of filler. Place i of
// an emitter's cell is sent i symbols on, so it is a placeholder exactly if the pattern then stands on the subcarrier of the cell, and else
// filler. specs/Spotted says what the places are made from, specs/Placeholders which of them are placeholders.
#![tactic(auto)]

ghost use Rattle.std.specs.Prelude.{◌≡◌, ◌+◌, ◌%◌, ◌≤◌, ◌<◌, length, replicate};
ghost use Rattle.std.proofs.lemmas.List.Edits.{sets};
ghost use Rattle.rules.specs.Device.{phases};
ghost use Rattle.rules.specs.Fits.{capacity};
ghost use Rattle.rules.specs.Plan.{plan_of};
ghost use Rattle.rules.specs.Frame.{frame_of, filler};
ghost use Rattle.rules.specs.Places.{emitter_delay, places_before};
ghost use Rattle.rules.specs.Store.{emitter_places, fresh_store};
ghost use Rattle.flushes.specs.Spotted.{Spotted};
ghost use Rattle.flushes.specs.Placeholders.{with_placeholder, with_placeholders};

use rules::Device;

// The mark of a scattered placeholder.
const PLACEHOLDER: u16 = 0x8000;

// The mark of filler.
const FILLER: u16 = 0x8001;

// Filler goes into the first n places.
pub fn put_filler(store: &mut [u16], n: usize)
    requires { n ≤ length store.old }
    ensures { store.new ≡ sets store.old 0 (replicate n filler) }
{
    store[..n].fill(FILLER);
}

// The delay of the next cell, at depth m.
pub fn next_delay(delay: usize, m: usize) -> usize
    requires { (delay < m) × (m ≤ capacity) }
    ensures { result ≡ (delay + 1) % m }
{
    if delay + 1 < m { delay + 1 } else { 0 }
}

// Place i of the `delay` places from `at` on becomes a placeholder, if there is such a place.
fn put_placeholder(store: &mut [u16], at: usize, delay: usize, i: usize)
    requires { at + delay ≤ length store.old }
    ensures { store.new ≡ with_placeholder at delay i store.old }
{
    if i < delay {
        store[at + i] = PLACEHOLDER;
    }
}

// The placeholders among the places of the cells, whose subcarriers are kc: of each cell at most one. Now the pattern stands on the subcarriers
// that are `base` modulo 128.
fn put_placeholders(m: usize, base: usize, kc: &[u16], store: &mut [u16])
    requires { (0 < m) × (m ≤ capacity) × (length kc.now ≤ capacity) × (places_before (emitter_delay m) (length kc.now) ≤ length store.old) }
    ensures { store.new ≡ with_placeholders m base kc.now store.old (length kc.now) }
{
    let mut at = 0;
    let mut delay = 0;
    for k in kc {
        let i = pattern::symbols_until(base, *k);
        put_placeholder(store, at, delay, i);
        at += delay;
        delay = next_delay(delay, m);
    }
}

// The places of a fresh emitter's store at phase j, from the subcarriers of the cells.
pub fn fresh_places(d: Device, plan: &[u8], j: usize, kc: &[u16], store: &mut [u16])
    requires { Spotted d plan.now kc.now × (j < phases) × (emitter_places (frame_of d (plan_of plan.now)) ≤ length store.old) }
    ensures { store.new ≡ fresh_store (frame_of d (plan_of plan.now)) j store.old }
{
    let l = records::number_at(plan, 4);
    let m = records::number_at(plan, 6);
    put_filler(store, places::emitter_places(m, kc.len()));
    put_placeholders(m, l + d.plc_width + j, kc, store);
}
