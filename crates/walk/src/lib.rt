// The walk from cell to cell, row after row in the order of reversed bits (document 02, Req 06), for any number of rows and of cells and any
// turn of the full columns: laws, and symbols in its order. The function does nothing; its contract is the claim.
#![tactic(auto)]

ghost use Rattle.std.specs.Prelude.{ℕ, ◌^◌, ◌≤◌, List};
ghost use Rattle.rules.specs.declared.Device.{Device};
ghost use Rattle.walk.specs.Walk.{Stays, turned_key, next_cell, walked};
ghost use Rattle.walk.specs.Claims.{RowAfterRow, PlanWalk};
ghost use Rattle.walk.specs.Table.{WalkTable};

// The step leads from rank to rank and its walk reads each cell once, for any number of rows, of cells, and any turn of the full columns;
// and of every plan on any device, whose symbols are filled in that order. And a table of walks, by computation.
pub fn row_after_row()
    ensures numbers { (b c n : ℕ) (s : ℕ → ℕ) → n ≤ c → Stays (2 ^ b) n s → RowAfterRow (turned_key b c s) n (next_cell b n s) (walked b n s) }
    ensures plans { (d : Device) (s : List ℕ) → PlanWalk d s }
    ensures table { WalkTable }
{}
