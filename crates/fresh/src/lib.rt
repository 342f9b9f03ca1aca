// Fresh starts: an emitter's store holds the flushes that would have come before its first step, a receiver's is all filler. The entries
// `fresh_emitter` and `fresh_receiver` read the plan bytes anew and ask nothing of their caller; what they refuse, they leave as it was.
#![tactic(auto)]

ghost use Rattle.std.specs.Prelude.{◌≡◌};
ghost use Rattle.rules.specs.Device.{khz50};
ghost use Rattle.rules.specs.Steps.{starts, start_step};
ghost use Rattle.rules.specs.Receive.{listens, listen_step};

use rules::{EmitterState, ReceiverState, Refusal};

// A fresh emitter at a phase: the places of the lent store filled.
pub fn fresh_emitter(plan: &[u8], phase: u32, store: &mut [u16]) -> Result<EmitterState, Refusal>
    ensures { starts result store.new ≡ start_step khz50 plan.now phase store.old }
{
    let d = rules::khz50_device();
    let mut kc = [0u16; 4096];
    let n = startgrounds::admit_emitter(d, plan, phase, store.len(), &mut kc, false)?;
    let ni = n as usize;
    flushes::fresh_places(d, plan, phase as usize, &kc[..ni], store);
    Ok(EmitterState { phase })
}

// A fresh receiver at a phase: heard 0, and filler in all places of the lent store.
pub fn fresh_receiver(plan: &[u8], phase: u32, store: &mut [u16]) -> Result<ReceiverState, Refusal>
    ensures { listens result store.new ≡ listen_step khz50 plan.now phase store.old }
{
    let d = rules::khz50_device();
    let n = startgrounds::admit_receiver(d, plan, phase, store.len())?;
    flushes::put_filler(store, n as usize);
    Ok(ReceiverState { phase, heard: 0 })
}
