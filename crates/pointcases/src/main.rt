// Asks the entries on points and on what stands on the line, and prints what tests/points.py works out with its own model. A line for each
// load, 0 to 16 and three that are far above: the load, and the checksums of the points and of the scaled points of the values 0 to 16400,
// 65536 and 4294967295, of the values of the points whose coordinates are -130 to 130 or an end of their type, and of what stands on the
// line for the cells 32766 to 32775, 65535, 0 and 1 with either sign bit.
#![tactic(auto)]

use console::Standard;
use modulator::OnLine;
use rules::Refusal;
use scaling::ScaledPoint;

// The checksum with number and place of a refusal more.
fn mixed_refusal(sum: u32, refusal: Refusal) -> u32 {
    sums::mixed(sums::mixed(sum, refusal.number), refusal.place)
}

// The checksum with a coordinate more: its sign, then its absolute value.
fn mixed_coordinate(sum: u32, c: i32) -> u32 {
    sums::mixed(sums::mixed(sum, (c < 0) as u32), gray::magnitude(c))
}

// The checksum with the point of a value more.
fn mixed_point(sum: u32, load: u32, value: u32) -> u32 {
    match points::point_of(load, value) {
        Ok(p) => mixed_coordinate(mixed_coordinate(sum, p.x), p.y),
        Err(refusal) => mixed_refusal(sum, refusal),
    }
}

// The checksum of the points of all values.
fn all_points(load: u32) -> u32 {
    let mut sum: u32 = 0;
    for v in 0..16401u32 {
        sum = mixed_point(sum, load, v);
    }
    mixed_point(mixed_point(sum, load, 65536), load, 4294967295)
}

// The checksum with both coordinates of a scaled point more, by their bits.
fn mixed_singles(sum: u32, s: ScaledPoint) -> u32 {
    sums::mixed_single(sums::mixed_single(sum, s.x), s.y)
}

// The checksum with the scaled point of a value more.
fn mixed_scaled(sum: u32, load: u32, value: u32) -> u32 {
    match scaling::scaled_of(load, value) {
        Ok(s) => mixed_singles(sum, s),
        Err(refusal) => mixed_refusal(sum, refusal),
    }
}

// The number under the root first, then the checksum with the scaled points of all values more.
fn all_scaled(load: u32) -> u32 {
    let mut sum: u32 = match scaling::root_of(load) {
        Ok(d) => d,
        Err(refusal) => mixed_refusal(0, refusal),
    };
    for v in 0..16401u32 {
        sum = mixed_scaled(sum, load, v);
    }
    mixed_scaled(mixed_scaled(sum, load, 65536), load, 4294967295)
}

// -130 to 130, then the ends of the type.
fn coordinate(k: u32) -> i32 {
    if k < 130 {
        return gray::with_sign(-1, 130 - k);
    }
    if k < 261 {
        return gray::with_sign(1, k - 130);
    }
    if k == 261 {
        return -2147483648;
    }
    2147483647
}

// The checksum with the value of a point more.
fn mixed_value(sum: u32, load: u32, x: i32, y: i32) -> u32 {
    match values::value_of(load, x, y) {
        Ok(v) => sums::mixed(sum, v),
        Err(refusal) => mixed_refusal(sum, refusal),
    }
}

// The checksum with the values of all points of a first coordinate more.
fn row_of_values(sum: u32, load: u32, x: i32) -> u32 {
    let mut mix = sum;
    for k in 0..263u32 {
        mix = mixed_value(mix, load, x, coordinate(k));
    }
    mix
}

// The checksum of the values of all points.
fn all_values(load: u32) -> u32 {
    let mut sum: u32 = 0;
    for k in 0..263u32 {
        sum = row_of_values(sum, load, coordinate(k));
    }
    sum
}

// The checksum with what stands on the line more: 1 silent, 2 open, 3 and a scaled point, 4 and a pilot's amplitude.
fn mixed_on_line(sum: u32, line: OnLine) -> u32 {
    match line {
        OnLine::Silent => sums::mixed(sum, 1),
        OnLine::Open => sums::mixed(sum, 2),
        OnLine::Point(s) => mixed_singles(sums::mixed(sum, 3), s),
        OnLine::Pilot(a) => sums::mixed_single(sums::mixed(sum, 4), a),
    }
}

// The checksum with the answer for a cell more.
fn mixed_line(sum: u32, cell: u16, load: u32, minus: bool) -> u32 {
    match modulator::on_line(cell, load, minus) {
        Ok(line) => mixed_on_line(sum, line),
        Err(refusal) => mixed_refusal(sum, refusal),
    }
}

// The checksum with the answers for a cell with either sign bit more.
fn mixed_cell(sum: u32, cell: u16, load: u32) -> u32 {
    mixed_line(mixed_line(sum, cell, load, false), cell, load, true)
}

// The checksum of what stands on the line for all cells.
fn all_lines(load: u32) -> u32 {
    let mut sum: u32 = 0;
    for cell in 32766..32776u16 {
        sum = mixed_cell(sum, cell, load);
    }
    mixed_cell(mixed_cell(mixed_cell(sum, 65535, load), 0, load), 1, load)
}

// The line of a load; false where it was not written.
fn print_load(streams: &mut Standard, load: u32) -> bool {
    let points = all_points(load);
    let scaled = all_scaled(load);
    let values = all_values(load);
    let lines = all_lines(load);
    console::print_line(
        streams,
        b"pointcases",
        b"# # # # #\n",
        [load, points, scaled, values, lines, 0, 0],
    )
}

// The loads 0 to 16, and three of which a byte or two bytes would be load 6, or which no bits hold.
const LOADS: [u32; 20] = [
    0, 1, 2, 3, 4, 5, 6, 7, 8, 9, 10, 11, 12, 13, 14, 15, 16, 262, 65542, 4294967295,
];

fn main(rt: HostRuntime) {
    let mut streams = console::standard(&rt);
    for load in LOADS {
        if !print_load(&mut streams, load) {
            return;
        }
    }
}
