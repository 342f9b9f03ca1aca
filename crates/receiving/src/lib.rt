// What the state of a receiver says: whether it is warming, whether a data buffer is too short, which input symbol is handed out, and the
// state of the next step. The receivers over cells and over two-byte cells share it.
#![tactic(auto)]

ghost use Rattle.std.specs.Prelude.{◌≡◌, not, ◌&&◌, ◌+◌, ◌-◌, ◌%◌, ◌≤◌, ◌<◌, ltb};
ghost use Rattle.counting.specs.Search.{pick};
ghost use Rattle.rules.specs.Device.{phases};

use rules::ReceiverState;

// Phases are 0 to 127.
const PHASES: usize = 128;

// The phase of the input symbol that is handed out, m - 1 symbols back.
pub fn out_phase(phase: u32, m: usize) -> usize
    requires { (0 < m) × (m ≤ phases) }
    ensures { result ≡ (phase + (phases - (m - 1))) % phases }
{
    let j = phase as usize;
    let back = m - 1;
    (j + (PHASES - back)) % PHASES
}

// Warming: fewer than m - 1 symbols were heard.
pub fn warms(heard: u32, m: usize) -> bool
    requires { 0 < m }
    ensures { result ≡ ltb heard (m - 1) }
{
    (heard as usize) < m - 1
}

// Whether a buffer of so many places is too short for nd data cells. While warming none are written.
pub fn lacks(heard: u32, m: usize, nd: usize, places: usize) -> bool
    requires { 0 < m }
    ensures { result ≡ (not (ltb heard (m - 1)) && ltb places nd) }
{
    if warms(heard, m) {
        return false;
    }
    places < nd
}

// The symbols heard after this one: one more while warming.
fn next_heard(heard: u32, m: usize) -> u32
    requires { (heard < m) × (m ≤ 4096) }
    ensures { result ≡ pick (ltb heard (m - 1)) (heard + 1) heard }
{
    let more: u32 = if warms(heard, m) { 1 } else { 0 };
    heard + more
}

// The state of the next step: the phase goes up by one, heard does while warming.
pub fn next_state(m: usize, state: ReceiverState) -> ReceiverState
    requires { (state.phase < phases) × (state.heard < m) × (m ≤ 4096) }
    ensures { result ≡ record { phase = (state.phase + 1) % phases; heard = pick (ltb state.heard (m - 1)) (state.heard + 1) state.heard } }
{
    ReceiverState {
        phase: steps::next_phase(state.phase),
        heard: next_heard(state.heard, m),
    }
}
