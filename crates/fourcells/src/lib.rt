// Four cells of a row at a time, for the loops that go along a row.
#![tactic(auto)]

ghost use Rattle.std.specs.Prelude.{◌≡◌, ℕ, ◌+◌, ◌*◌, ◌≤◌, ◌<◌, length, get_or};
ghost use Rattle.rules.specs.Fits.{capacity};
ghost use Rattle.walk.specs.Stores.{stores};

use counting::wide;

// Four cells of a row, from `cell` on and each `rows` after the one before, are given the subcarriers of their ranks.
pub fn carry_four(car: &[u16], rank: usize, cell: usize, rows: usize, kc: &mut [u16])
    requires { (rows ≤ capacity) × (cell + 3 * rows < length kc.old) × (rank + 3 < length car.now) }
    ensures { kc.new ≡ stores (λ t. cell + t * rows) (λ t. get_or car.now (rank + t) 0) 4 kc.old }
{
    kc[cell] = car[rank];
    kc[cell + rows] = car[rank + 1];
    kc[cell + 2 * rows] = car[rank + 2];
    kc[cell + 3 * rows] = car[rank + 3];
}

// Four cells of a row, from cell p on and each `rows` after the one before, go to the subcarriers of their ranks. All are read before any
// is stored, so that no read waits for a store.
pub fn place_four(car: &[u16], rank: usize, cells: &[u16], p: usize, rows: usize, out: &mut [u16])
    requires { (rows ≤ capacity) × (p + 3 * rows < length cells.now) × (rank + 3 < length car.now) × ((t : ℕ) → t < 4 → get_or car.now (rank + t) 0 < length out.old) }
    ensures { out.new ≡ stores (λ t. get_or car.now (rank + t) 0) (λ t. get_or cells.now (p + t * rows) 0) 4 out.old }
{
    let k0 = wide(car[rank]);
    let k1 = wide(car[rank + 1]);
    let k2 = wide(car[rank + 2]);
    let k3 = wide(car[rank + 3]);
    let x0 = cells[p];
    let x1 = cells[p + rows];
    let x2 = cells[p + 2 * rows];
    let x3 = cells[p + 3 * rows];
    out[k0] = x0;
    out[k1] = x1;
    out[k2] = x2;
    out[k3] = x3;
}
