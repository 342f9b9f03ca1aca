// The limits of data cells under a load profile.
use rules::Refusal;

// The bytes of a stream of ones that fills any symbol: 4,096 cells of 14 bits.
const ONES: usize = 7168;

// The limit of a cell that ones fill with x: a cell without bits is filled with 0, and is 0 or 1.
fn raised(x: u16) -> u16 {
    if x == 0 { 1 } else { x }
}

// The same of all cells.
fn raise(limits: &mut [u16]) {
    for c in 0..limits.len() {
        limits[c] = raised(limits[c]);
    }
}

// Puts the limits of the data cells of the input symbol at a phase into the first cells, by filling it from a stream of ones; nd is N_D. The
// answer is that of the filling.
pub(crate) fn put(
    plan: &[u8],
    profile: &[u8],
    phase: u32,
    nd: usize,
    limits: &mut [u16],
) -> Result<u32, Refusal> {
    if limits.len() < nd {
        return Err(Refusal {
            number: 18,
            place: 0,
        });
    }
    let ones = [255u8; ONES];
    let answer = filling::fill_symbol(plan, profile, phase, &ones, 0, &mut limits[..nd]);
    raise(limits);
    answer
}

// The lowest number that is above the limit of a load.
pub(crate) fn above(load: u8) -> u16 {
    match load {
        0 => 2,
        4 => 16,
        6 => 64,
        7 => 128,
        8 => 256,
        9 => 512,
        10 => 1024,
        11 => 2048,
        12 => 4096,
        13 => 8192,
        _ => 16384,
    }
}

// The load of a subcarrier, 14 past the end of the profile.
pub(crate) fn load_at(profile: &[u8], k: usize) -> u8 {
    if k < profile.len() {
        return profile[k];
    }
    14
}
