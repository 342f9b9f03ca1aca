// The pilot lamp and the list of pilots over bytes (document 02, Req 10, as request 01 has it): a symbol of two-byte cells, high byte first, and
// lent buffers for the lights and for the list. The entries try ground 21 first and ask nothing of their caller; what they refuse, they leave
// as it was.
#![tactic(auto)]

ghost use Rattle.std.specs.Prelude.{◌*◌, ◌≤◌, ◌≡◌, length, get_or};
ghost use Rattle.rules.specs.Device.{khz50};
ghost use Rattle.rules.specs.Fits.{Fits};
ghost use Rattle.bytecells.specs.Octets.{cells_of};
ghost use Rattle.pilots.specs.Pilots.{pilots_most};
ghost use Rattle.lampgrounds.specs.Steps.{leaves_record, lamp_step};
ghost use Rattle.lampgrounds.specs.Opening.{cells_at};
ghost use Rattle.bytelamp.specs.ByteLamp.{leaves_list, listed, leaves_lamp, put_if, pilots_bytes, lamp_bytes};

use counting::wide;
use lampgrounds::LampAnswer;
use pilots::{PILOTS, PilotAnswer};
use rules::{Device, Refusal};

// The bytes of a list of pilots, two for each.
const LIST: usize = 256;

// Puts the pilots into the buffer, if nothing refuses.
fn put_list(p: PilotAnswer, list: &mut [u8]) -> Result<u32, Refusal>
    requires { (length p.list ≡ pilots_most) × (2 * pilots_most ≤ length list.old) }
    ensures { leaves_list result list.new ≡ listed p list.old }
{
    let n = p.answer?;
    bytewrite::write_cells(list, 0, &p.list);
    Ok(n)
}

// The continuous pilots of a plan in rising order, two bytes each.
pub fn pilots(plan: &[u8], list: &mut [u8]) -> Result<u32, Refusal>
    ensures { leaves_list result list.new ≡ pilots_bytes khz50 plan.now list.old }
{
    if list.len() < LIST {
        return Err(Refusal {
            number: 21,
            place: 0,
        });
    }
    put_list(pilots::pilots(plan), list)
}

// The cell of subcarrier k; 0 past the end of the symbol.
fn cell_at(symbol: &[u8], k: usize) -> u16
    ensures { result ≡ get_or (cells_of symbol.now) k 0 }
{
    if k < symbol.len() / 2 {
        return bytecells::join(symbol[2 * k], symbol[2 * k + 1]);
    }
    0
}

// The cells of a symbol at the pilots.
fn cells_at(list: [u16; PILOTS], symbol: &[u8]) -> [u16; PILOTS]
    ensures { result ≡ cells_at list (cells_of symbol.now) }
{
    let mut cells = [0u16; PILOTS];
    for (i, k) in list.iter().enumerate() {
        cells[i] = cell_at(symbol, wide(*k));
    }
    cells
}

// The lamp is given a symbol, for any device that fits.
fn lamp_on(d: Device, plan: &[u8], symbol: &[u8], counts: &mut [u8]) -> LampAnswer
    requires { Fits d }
    ensures { leaves_record result counts.new ≡ lamp_step d plan.now counts.old (cells_of symbol.now) }
{
    let p = lampgrounds::open_step(d, plan, symbol.len() / 2, counts);
    match p.answer {
        Err(refusal) => lampgrounds::refused(refusal),
        Ok(n) => lampgrounds::hear(&cells_at(p.list, symbol), n, counts),
    }
}

// Puts the lights into the buffer, if nothing refuses.
fn put_lights(a: LampAnswer, lights: &mut [u8]) -> Result<u32, Refusal>
    requires { (length a.lights ≡ pilots_most) × (pilots_most ≤ length lights.old) }
    ensures { (result ≡ a.answer) × (lights.new ≡ put_if a.answer a.lights lights.old) }
{
    let n = a.answer?;
    lights[..PILOTS].copy_from_slice(&a.lights);
    Ok(n)
}

// The lamp is given a symbol: its record goes on, and its lights go to the buffer, one byte a pilot.
pub fn lamp(
    plan: &[u8],
    symbol: &[u8],
    counts: &mut [u8],
    lights: &mut [u8],
) -> Result<u32, Refusal>
    ensures { leaves_lamp result counts.new lights.new ≡ lamp_bytes khz50 plan.now symbol.now counts.old lights.old }
{
    if bytecells::halved(symbol) {
        return Err(Refusal {
            number: 21,
            place: 0,
        });
    }
    if lights.len() < PILOTS {
        return Err(Refusal {
            number: 21,
            place: 0,
        });
    }
    let answer = lamp_on(rules::khz50_device(), plan, symbol, counts);
    put_lights(answer, lights)
}
