// The places of a fresh emitter's store over two-byte cells, as flushes has them over cells. Only the bytes of its places are written.
#![tactic(auto)]

ghost use Rattle.std.specs.Prelude.{◌≡◌, ◌+◌, ◌*◌, ◌≤◌, ◌<◌, length};
ghost use Rattle.rules.specs.Device.{phases};
ghost use Rattle.rules.specs.Fits.{capacity};
ghost use Rattle.rules.specs.Plan.{plan_of};
ghost use Rattle.rules.specs.Frame.{frame_of};
ghost use Rattle.rules.specs.Places.{emitter_delay, places_before};
ghost use Rattle.rules.specs.Store.{emitter_places, fresh_store};
ghost use Rattle.flushes.specs.Spotted.{Spotted};
ghost use Rattle.flushes.specs.Placeholders.{with_placeholder, with_placeholders};
ghost use Rattle.bytecells.specs.Octets.{cells_of, bytes_of, Whole};

use rules::Device;

// The mark of a scattered placeholder.
const PLACEHOLDER: u16 = 0x8000;

// The mark of filler.
const FILLER: u16 = 0x8001;

// Place i of the `delay` places from `at` on becomes a placeholder, if there is such a place.
fn put_placeholder(store: &mut [u8], at: usize, delay: usize, i: usize)
    requires { Whole store.old × (2 * (at + delay) ≤ length store.old) }
    ensures { store.new ≡ bytes_of (with_placeholder at delay i (cells_of store.old)) }
{
    if i < delay {
        let cell = [PLACEHOLDER];
        bytewrite::write_cells(store, at + i, &cell);
    }
}

// The placeholders among the places of the cells, whose subcarriers are kc: of each cell at most one. Now the pattern stands on the
// subcarriers that are `base` modulo 128.
fn put_placeholders(m: usize, base: usize, kc: &[u16], store: &mut [u8])
    requires { (0 < m) × (m ≤ capacity) × (length kc.now ≤ capacity) × Whole store.old × (2 * places_before (emitter_delay m) (length kc.now) ≤ length store.old) }
    ensures { store.new ≡ bytes_of (with_placeholders m base kc.now (cells_of store.old) (length kc.now)) }
{
    let mut at = 0;
    let mut delay = 0;
    for k in kc {
        put_placeholder(store, at, delay, pattern::symbols_until(base, *k));
        at += delay;
        delay = flushes::next_delay(delay, m);
    }
}

// The places of a fresh emitter's store at phase j, from the subcarriers of the cells.
pub fn fresh_places(d: Device, plan: &[u8], j: usize, kc: &[u16], store: &mut [u8])
    requires { Spotted d plan.now kc.now × (j < phases) × Whole store.old × (2 * emitter_places (frame_of d (plan_of plan.now)) ≤ length store.old) }
    ensures { store.new ≡ bytes_of (fresh_store (frame_of d (plan_of plan.now)) j (cells_of store.old)) }
{
    let l = records::number_at(plan, 4);
    let m = records::number_at(plan, 6);
    bytewrite::write_same(store, places::emitter_places(m, kc.len()), FILLER);
    put_placeholders(m, l + d.plc_width + j, kc, store);
}
