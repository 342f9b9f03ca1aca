// The places of a second emitter's fresh literal store (document 02, request 09), which hold the flushes that would have come before its first
// step. The lines stand side by side, line r with r * J places, J for each symbol of its delay: place i * J + q is that of cell q * M + r, sent i
// symbols on. So it is a placeholder exactly if the pattern then stands on the subcarrier of the cell, and else filler, as the places of dummies
// are. Crate figure says what a fresh literal store holds, specs/Placeholders which places become placeholders.
#![tactic(auto)]

ghost use Rattle.std.specs.Prelude.{◌≡◌, ◌+◌, ◌*◌, ◌≤◌, ◌<◌, length};
ghost use Rattle.rules.specs.Device.{phases};
ghost use Rattle.rules.specs.Fits.{capacity};
ghost use Rattle.rules.specs.Plan.{plan_of};
ghost use Rattle.rules.specs.Frame.{frame_of};
ghost use Rattle.flushes.specs.Spotted.{Spotted};
ghost use Rattle.figure.specs.Figure as figure;
ghost use Rattle.figure.specs.Steps.{literal_places, fresh_literal};
ghost use Rattle.figureflushes.specs.Placeholders.{with_placeholder, with_placeholders};

use rules::Device;

// The mark of a scattered placeholder.
const PLACEHOLDER: u16 = 0x8000;

// The place of a cell that is sent i symbols on becomes a placeholder, if there is such a place: the cell's line begins at `begins` and has J places,
// here j, for each of the `delay` symbols of its delay, and among these the cell's is number `turn`.
fn put_placeholder(store: &mut [u16], begins: usize, turn: usize, j: usize, delay: usize, i: usize)
    requires { (turn < j) × (begins + delay * j ≤ length store.old) }
    ensures { store.new ≡ with_placeholder begins turn j delay i store.old }
{
    if i < delay {
        store[begins + (i * j + turn)] = PLACEHOLDER;
    }
}

// The placeholders among the places of the cells, whose subcarriers are kc: of each cell at most one. Now the pattern stands on the subcarriers
// that are `base` modulo 128.
fn put_placeholders(m: usize, base: usize, kc: &[u16], store: &mut [u16])
    requires { (0 < m) × (m ≤ capacity) × (length kc.now ≤ capacity) × (figure.line_begins (figure.ceiling (length kc.now) m) m ≤ length store.old) }
    ensures { store.new ≡ with_placeholders m (figure.ceiling (length kc.now) m) base kc.now store.old (length kc.now) }
{
    let j = figure::ceiling(kc.len(), m);
    let mut begins = 0;
    let mut line = 0;
    let mut turn = 0;
    for k in kc {
        let i = pattern::symbols_until(base, *k);
        put_placeholder(store, begins, turn, j, line, i);
        if line + 1 == m {
            begins = 0;
            line = 0;
            turn += 1;
        } else {
            begins += line * j;
            line += 1;
        }
    }
}

// The places of a fresh literal store at a phase, from the subcarriers of the cells.
pub fn fresh_lines(d: Device, plan: &[u8], phase: usize, kc: &[u16], store: &mut [u16])
    requires { Spotted d plan.now kc.now × (phase < phases) × (literal_places (frame_of d (plan_of plan.now)) ≤ length store.old) }
    ensures { store.new ≡ fresh_literal (frame_of d (plan_of plan.now)) phase store.old }
{
    let l = records::number_at(plan, 4);
    let m = records::number_at(plan, 6);
    flushes::put_filler(store, figure::literal_places(m, kc.len()));
    put_placeholders(m, l + d.plc_width + phase, kc, store);
}
