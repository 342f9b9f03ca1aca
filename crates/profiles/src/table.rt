// The limits of the loads. A function takes the table before its loop: indexed in the loop, it would be built for each cell.
ghost use Rattle.std.specs.Prelude.{◌≡◌};

// The limit of each load up to 14; a profile holds none of 1, 2, 3 and 5.
pub const LIMITS: [u16; 15] = [
    1, 1, 3, 7, 15, 31, 63, 127, 255, 511, 1023, 2047, 4095, 8191, 16383,
];
