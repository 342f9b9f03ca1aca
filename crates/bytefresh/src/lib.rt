// Fresh starts over a store of two-byte cells, as fresh has them over cells. The entries `fresh_emitter` and `fresh_receiver` read the plan
// bytes anew and ask nothing of their caller; what they refuse, they leave as it was. Only the bytes of the store's places are written.
#![tactic(auto)]

ghost use Rattle.std.specs.Prelude.{◌≡◌};
ghost use Rattle.rules.specs.Device.{khz50};
ghost use Rattle.rules.specs.Steps.{starts};
ghost use Rattle.rules.specs.Receive.{listens};
ghost use Rattle.bytecells.specs.ByteSteps.{start_bytes, listen_bytes};

use rules::{EmitterState, ReceiverState, Refusal};

// The mark of filler.
const FILLER: u16 = 0x8001;

// A fresh emitter at a phase: the places of the lent store filled.
pub fn fresh_emitter(plan: &[u8], phase: u32, store: &mut [u8]) -> Result<EmitterState, Refusal>
    ensures { starts result store.new ≡ start_bytes khz50 plan.now phase store.old }
{
    if bytecells::halved(store) {
        return Err(Refusal {
            number: 21, // tried before 1
            place: 0,
        });
    }
    let d = rules::khz50_device();
    let places = store.len() / 2;
    let mut kc = [0u16; 4096];
    let n = startgrounds::admit_emitter(d, plan, phase, places, &mut kc, false)?;
    let ni = n as usize;
    byteflushes::fresh_places(d, plan, phase as usize, &kc[..ni], store);
    Ok(EmitterState { phase })
}

// A fresh receiver at a phase: heard 0, and filler in all places of the lent store.
pub fn fresh_receiver(plan: &[u8], phase: u32, store: &mut [u8]) -> Result<ReceiverState, Refusal>
    ensures { listens result store.new ≡ listen_bytes khz50 plan.now phase store.old }
{
    if bytecells::halved(store) {
        return Err(Refusal {
            number: 21,
            place: 0, // of 21 always
        });
    }
    let d = rules::khz50_device();
    let places = store.len() / 2;
    let n = startgrounds::admit_receiver(d, plan, phase, places)?;
    bytewrite::write_same(store, n as usize, FILLER);
    Ok(ReceiverState { phase, heard: 0 })
}
