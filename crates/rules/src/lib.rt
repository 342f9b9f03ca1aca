// The rules of document 01 as definitions (specs/), a table of them at a small device (proofs/SmallTable; crate starred has the starred
// cases), and the types that definitions and code share: a device's sizes and the answers of the entries. Fields are spelled as in the
// definitions.
#![tactic(auto)]

ghost use Rattle.std.specs.Prelude.{◌≡◌};
ghost use Rattle.rules.specs.Device.{khz50};

// The sizes in which devices differ.
#[derive(Clone, Copy)]
pub struct Device {
    // subcarriers are numbered from 0
    pub subcarriers: usize,
    // active subcarriers lie in low_active to high_active
    pub low_active: usize,
    pub high_active: usize,
    // the lowest PLC subcarrier, L, lies in low_plc to high_plc
    pub low_plc: usize,
    pub high_plc: usize,
    // depth M is 1 to depth_max
    pub depth_max: usize,
    // the PLC is plc_width subcarriers from L on, in the centre of plc_margin more on either side
    pub plc_width: usize,
    pub plc_margin: usize,
    // of the predefined pilots, below L and above the PLC's last subcarrier
    pub distances: [u16; 4],
    // so many excluded in a row are an exclusion band
    pub exclusion_run: usize,
    // each band has at least width band_min, and one band_wide
    pub band_min: usize,
    pub band_wide: usize,
    // a window of long_window subcarriers has at most long_max excluded, one of short_window at most short_max
    pub long_window: usize,
    pub long_max: usize,
    pub short_window: usize,
    pub short_max: usize,
    // N_I is at most this
    pub ranked_max: usize,
    // the frequency rule reads 2^row_bits rows of cells
    pub row_bits: usize,
}

// A refusal: the number of the first ground that holds, and its place.
#[derive(Clone, Copy)]
pub struct Refusal {
    pub number: u32,
    pub place: u32,
}

// What a look for grounds finds: nothing, or the number and place of one.
pub type Finding = Result<(), Refusal>;

// The answer of the judge: accepted with N_I, or refused.
pub type Verdict = Result<u32, Refusal>;

#[derive(Clone, Copy)]
pub enum Role {
    Excluded,
    Plc,
    Continuous,
    Scattered,
    Data,
}

// What a subcarrier is doing at a phase, and why.
#[derive(Clone, Copy)]
pub enum Reason {
    // excluded, by this record, the first such on the chain
    ExcludedBy(u32),
    // PLC, by this record, which is record 0
    PlcBy(u32),
    // continuous: a predefined pilot, at this distance below L
    PilotBelow(u32),
    // continuous: a predefined pilot, at this distance above the last PLC subcarrier
    PilotAbove(u32),
    // continuous: a further pilot, by this record, the first such on the chain
    PilotBy(u32),
    // scattered, at this phase, the one asked about, and at no other
    ScatteredOnly(u32),
    // data, at every phase but this one, at which a scattered pilot stands there
    DataBut(u32),
}

// The state of an emitter: the phase of its next step.
#[derive(Clone, Copy)]
pub struct EmitterState {
    pub phase: u32,
}

// The state of a receiver: the phase of its next step, and how many symbols it has heard, up to M - 1.
#[derive(Clone, Copy)]
pub struct ReceiverState {
    pub phase: u32,
    pub heard: u32,
}

// A refused step: the refusal, and the state as it was given.
#[derive(Clone, Copy)]
pub struct RefusedStep<S> {
    pub refusal: Refusal,
    pub state: S,
}

// What a receive step that no ground refuses hands out: nothing while it warms, and then so many data cells; with the next state.
#[derive(Clone, Copy)]
pub enum Heard<S> {
    Warming(S),
    Data(S, u32),
}

// The 50 kHz device.
pub fn khz50_device() -> Device
    ensures { result ≡ khz50 }
{
    Device {
        subcarriers: 4096,
        low_active: 148,
        high_active: 3948,
        low_plc: 204,
        high_plc: 3885,
        depth_max: 32,
        plc_width: 8,
        plc_margin: 56,
        distances: [15, 24, 35, 47],
        exclusion_run: 20,
        band_min: 40,
        band_wide: 440,
        long_window: 120,
        long_max: 6,
        short_window: 20,
        short_max: 4,
        ranked_max: 3745,
        row_bits: 7,
    }
}
