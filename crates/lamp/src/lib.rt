// The pilot lamp (document 02, Req 10): it hears a symbol, keeps its record and answers its lights. The entry `lamp` reads the plan bytes anew
// and asks nothing of its caller. It changes its record and nothing else, and what it refuses, it leaves as it was. It never refuses on a
// cell. specs/Claims says what holds over whole lists of symbols.
#![tactic(auto)]

ghost use Rattle.std.specs.Prelude.{ℕ, ◌≡◌, List, get_or};
ghost use Rattle.rules.specs.declared.Device.{Device};
ghost use Rattle.rules.specs.Device.{khz50};
ghost use Rattle.rules.specs.Fits.{Fits};
ghost use Rattle.lampgrounds.specs.Steps.{leaves_record, lamp_step};
ghost use Rattle.lampgrounds.specs.Opening.{cells_at};
ghost use Rattle.lamp.specs.Claims.{LampClaims};

use counting::wide;
use lampgrounds::LampAnswer;
use pilots::PILOTS;
use rules::Device;

// The cell of subcarrier k; 0 past the end of the symbol.
fn cell_at(symbol: &[u16], k: usize) -> u16
    ensures { result ≡ get_or symbol.now k 0 }
{
    if k < symbol.len() {
        return symbol[k];
    }
    0
}

// The cells of a symbol at the pilots.
fn cells_at(list: [u16; PILOTS], symbol: &[u16]) -> [u16; PILOTS]
    ensures { result ≡ cells_at list symbol.now }
{
    let mut cells = [0u16; PILOTS];
    for i in 0..PILOTS {
        cells[i] = cell_at(symbol, wide(list[i]));
    }
    cells
}

// The lamp is given a symbol, for any device that fits.
fn lamp_on(d: Device, plan: &[u8], symbol: &[u16], counts: &mut [u8]) -> LampAnswer
    requires { Fits d }
    ensures { leaves_record result counts.new ≡ lamp_step d plan.now counts.old symbol.now }
{
    let p = lampgrounds::open_step(d, plan, symbol.len(), counts);
    match p.answer {
        Err(refusal) => lampgrounds::refused(refusal),
        Ok(n) => lampgrounds::hear(&cells_at(p.list, symbol), n, counts),
    }
}

// The lamp is given a symbol: its record goes on, and its lights are answered with the number of pilots.
pub fn lamp(plan: &[u8], symbol: &[u16], counts: &mut [u8]) -> LampAnswer
    ensures { leaves_record result counts.new ≡ lamp_step khz50 plan.now counts.old symbol.now }
{
    lamp_on(rules::khz50_device(), plan, symbol, counts)
}

// Any device that fits, any bytes as a plan: it never refuses on a cell, and a refusal changes nothing. Every accepted plan and all lists of
// symbols from a fresh record on, refused ones included: after each the record and the lights are those worked out afresh.
pub fn lamp_claims()
    ensures { (d : Device) → Fits d → (s : List ℕ) → LampClaims d s }
{}
