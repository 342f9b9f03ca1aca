// What a case and its acts are given: the profile, the stream, and the numbers of standard input.
use console::Standard;

// The bytes of the profile, one more than are right, and of each stream.
pub(crate) const PROFILE: usize = 4097;

pub(crate) const STREAM: usize = 8192;

// What a case is given beside its plan: the starting phase, the numbers that its profile and its stream are made from, and how many acts it has.
#[derive(Clone, Copy)]
pub(crate) struct Head {
    pub phase: u32,
    pub step: u32,
    pub turn: u32,
    pub seed: u32,
    pub acts: u32,
}

// An act, false in `read` where it could not be read whole: what it does, and what it is given. The changes of the profile and of cells are
// each a place in the upper two bytes and what stands there in the lower two.
#[derive(Clone, Copy)]
pub(crate) struct Act {
    pub read: bool,
    pub kind: u32,
    pub phase: u32,
    pub profile: u32,
    pub load: u32,
    pub cells: u32,
    pub cell: u32,
    pub room: u32,
    pub start: usize,
}

// The next act of standard input.
pub(crate) fn next_act(streams: &mut Standard) -> Act {
    let mut bytes = [0u8; 36];
    let read = console::fill(streams, b"fillcases", &mut bytes);
    let high = console::number_at(&bytes, 7);
    let low = console::number_at(&bytes, 8);
    Act {
        read,
        kind: console::number_at(&bytes, 0),
        phase: console::number_at(&bytes, 1),
        profile: console::number_at(&bytes, 2),
        load: console::number_at(&bytes, 3),
        cells: console::number_at(&bytes, 4),
        cell: console::number_at(&bytes, 5),
        room: console::number_at(&bytes, 6),
        start: (high as usize) * 4294967296 + low as usize,
    }
}

// The load of an index: 0, 4, 6, 7, and so on.
fn load_of(index: u32) -> u8 {
    match index {
        0 => 0,
        1 => 4,
        _ => (index % 11) as u8 + 4,
    }
}

// Fills the profile: byte k has the load of index (k * step + turn) % 11.
pub(crate) fn make_profile(head: Head, profile: &mut [u8; PROFILE]) {
    let step = head.step % 11;
    let mut index = head.turn % 11;
    for load in profile.iter_mut() {
        *load = load_of(index);
        index = (index + step) % 11;
    }
}

// The generator's next number; 0 stays 0.
fn drawn(x: u32) -> u32 {
    (((x as u64) * 48271) % 2147483647) as u32
}

// Fills the stream from the generator's numbers; it is left as it is where the seed is 0.
pub(crate) fn make_stream(seed: u32, stream: &mut [u8; STREAM]) {
    if seed == 0 {
        return;
    }
    let mut x = seed;
    for byte in stream.iter_mut() {
        x = drawn(x);
        *byte = (x % 256) as u8;
    }
}

// Puts a load into a byte, if there is such a byte, and gives what stood there, 0 past the end.
fn swap(profile: &mut [u8; PROFILE], k: usize, load: u8) -> u8 {
    if PROFILE <= k {
        return 0;
    }
    let old = profile[k];
    profile[k] = load;
    old
}

// Makes a change of the profile, and gives the change that takes it back.
pub(crate) fn changed_load(profile: &mut [u8; PROFILE], change: u32) -> u32 {
    let place = change / 65536;
    let old = swap(profile, place as usize, (change % 256) as u8);
    place * 65536 + old as u32
}

// Makes a change of cells, and gives the change that takes it back.
pub(crate) fn changed(cells: &mut [u16], change: u32) -> u32 {
    let place = change / 65536;
    let old = samples::swap(cells, place as usize, (change % 65536) as u16);
    place * 65536 + old as u32
}
