// The modulator symbol of a symbol of two-byte cells, high byte first (request 04). The entry `modulate` asks nothing of its caller; what
// it refuses, it leaves as it was.
#![tactic(auto)]

ghost use Rattle.std.specs.Prelude.{◌≡◌};
ghost use Rattle.rules.specs.Device.{khz50};
ghost use Rattle.modulator.specs.Symbols.{modulates};
ghost use Rattle.bytemodulate.specs.ByteSymbols.{modulate_bytes};

use modulator::RefusedPoint;
use rules::Refusal;

// Fills a modulator symbol: refused by 21, then as over cells.
pub fn modulate(
    symbol: &[u8],
    loads: &[u8],
    minus: &[u8],
    out: &mut [f32],
) -> Result<(), RefusedPoint>
    ensures { modulates result out.new ≡ modulate_bytes symbol.now loads.now minus.now khz50 out.old }
{
    if bytecells::halved(symbol) {
        return Err(RefusedPoint {
            refusal: Refusal {
                number: 21,
                place: 0,
            },
            subcarrier: 0,
        });
    }
    let d = rules::khz50_device();
    if symbol.len() / 2 != d.subcarriers {
        return Err(RefusedPoint {
            refusal: Refusal {
                number: 17,
                place: 0,
            },
            subcarrier: 0,
        });
    }
    let mut cells = [0u16; 4096];
    bytecells::read_cells(symbol, &mut cells);
    modulate::modulate(&cells, loads, minus, out)
}
