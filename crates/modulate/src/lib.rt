// Filling a modulator symbol (request 04): one pass tries every subcarrier, and where none is refused, one pass writes the two numbers of each.
#![tactic(auto)]

ghost use Rattle.std.specs.Prelude.{◌≡◌, true, false, ◌&&◌, ◌+◌, ◌*◌, ◌≤◌, ◌<◌, eqb, length, None, Ok};
ghost use Rattle.counting.specs.Search.{lowest};
ghost use Rattle.rules.specs.Device.{khz50};
ghost use Rattle.rules.specs.Fits.{capacity};
ghost use Rattle.coordinates.specs.Table.{Filled};
ghost use Rattle.modulator.specs.Lines.{line_answer};
ghost use Rattle.modulator.specs.Symbols.{is_minus, line_at, put_answer, filled_to, refused_at, modulates, modulate_step};
ghost use Rattle.loadlimits.specs.Limits.{limit_of, admits, unadmitted};

use coordinates::{ENTRIES, fill_table, point_from};
use loadlimits::first_refused;
use modulator::{OnLine, RefusedPoint, fill_subcarrier, mark_line, on_line};
use rules::Refusal;

// The load that a byte says.
fn load_of(b: u8) -> u32
    ensures { result ≡ b }
{
    b as u32
}

// The sign that a byte says.
fn is_minus(b: u8) -> bool
    ensures { result ≡ is_minus b }
{
    b != 0
}

// What stands on the line for a cell that is not refused: a mark, or the point of its value, from the table.
fn line_from(t: &[f32; ENTRIES], cell: u16, load: u32, minus: bool) -> OnLine
    requires { Filled t.now × (admits (limit_of load) cell ≡ true) }
    ensures { Ok result ≡ line_answer cell load minus }
{
    if cell < 0x8000 {
        return OnLine::Point(point_from(t, load, cell as u32));
    }
    mark_line(cell, minus)
}

// Fills subcarrier k.
fn fill_at(
    t: &[f32; ENTRIES],
    symbol: &[u16],
    loads: &[u8],
    minus: &[u8],
    k: usize,
    out: &mut [f32],
)
    requires { Filled t.now × (k < length symbol.now) × (k < length loads.now) × (k < length minus.now) × (2 * k + 1 < length out.old) × (unadmitted symbol.now loads.now k ≡ false) }
    ensures { out.new ≡ put_answer out.old k (line_at symbol.now loads.now minus.now k) }
{
    let line = line_from(t, symbol[k], load_of(loads[k]), is_minus(minus[k]));
    fill_subcarrier(out, k, line);
}

// Fills every subcarrier, by a table of the coordinates.
fn fill_from(t: &[f32; ENTRIES], symbol: &[u16], loads: &[u8], minus: &[u8], out: &mut [f32])
    requires { Filled t.now × (length loads.now ≡ length symbol.now) × (length minus.now ≡ length symbol.now) × (length out.old ≡ 2 * length symbol.now) × (lowest (unadmitted symbol.now loads.now) (length symbol.now) ≡ None) }
    ensures { out.new ≡ filled_to symbol.now loads.now minus.now (length symbol.now) out.old }
{
    for k in 0..symbol.len() {
        fill_at(t, symbol, loads, minus, k, out);
    }
}

// Makes the table, and fills every subcarrier.
fn fill(symbol: &[u16], loads: &[u8], minus: &[u8], out: &mut [f32])
    requires { (length loads.now ≡ length symbol.now) × (length minus.now ≡ length symbol.now) × (length out.old ≡ 2 * length symbol.now) × (lowest (unadmitted symbol.now loads.now) (length symbol.now) ≡ None) }
    ensures { out.new ≡ filled_to symbol.now loads.now minus.now (length symbol.now) out.old }
{
    let mut t = [0.0f32; ENTRIES];
    fill_table(&mut t);
    fill_from(&t, symbol, loads, minus, out);
}

// Whether four lengths are those of n subcarriers (17).
fn lengths_fit(n: usize, symbol: usize, loads: usize, minus: usize, out: usize) -> bool
    requires { n ≤ capacity }
    ensures { result ≡ (eqb symbol n && eqb loads n && eqb minus n && eqb out (2 * n)) }
{
    if symbol != n {
        return false;
    }
    if loads != n {
        return false;
    }
    if minus != n {
        return false;
    }
    out == 2 * n
}

// The refusal of subcarrier k.
fn refusal(symbol: &[u16], loads: &[u8], minus: &[u8], k: usize) -> Result<(), RefusedPoint>
    requires { (length symbol.now ≤ capacity) × (k < length symbol.now) × (k < length loads.now) × (k < length minus.now) }
    ensures { result ≡ refused_at k (line_at symbol.now loads.now minus.now k) }
{
    match on_line(symbol[k], load_of(loads[k]), is_minus(minus[k])) {
        Ok(_) => Ok(()),
        Err(refusal) => Err(RefusedPoint {
            refusal,
            subcarrier: k as u32,
        }),
    }
}

// Fills a modulator symbol of the 50 kHz device: two numbers for each subcarrier, from the symbol on the line, the load of each subcarrier and the
// sign of its pilot. What it refuses, it leaves as it was.
pub fn modulate(
    symbol: &[u16],
    loads: &[u8],
    minus: &[u8],
    out: &mut [f32],
) -> Result<(), RefusedPoint>
    ensures { modulates result out.new ≡ modulate_step symbol.now loads.now minus.now khz50 out.old }
{
    let d = rules::khz50_device();
    if !lengths_fit(
        d.subcarriers,
        symbol.len(),
        loads.len(),
        minus.len(),
        out.len(),
    ) {
        return Err(RefusedPoint {
            refusal: Refusal {
                number: 17,
                place: 0,
            },
            subcarrier: 0,
        });
    }
    let k = first_refused(symbol, loads);
    if k < symbol.len() {
        return refusal(symbol, loads, minus, k);
    }
    fill(symbol, loads, minus, out);
    Ok(())
}
