// The bytes of a copy of a plan that also excludes a range (document 02, Req 05): specs/Copy says which. The plan itself is only read.
#![tactic(auto)]

ghost use Rattle.std.specs.Prelude.{◌+◌, ◌≤◌, ◌≡◌, length, take};
ghost use Rattle.std.proofs.lemmas.List.Edits.{sets};
ghost use Rattle.chains.specs.Last.{last_index};
ghost use Rattle.copies.specs.Copy.{plan_max, two_bytes, range_record, copy_with};

// The bytes of the longest copy: that of a plan of 4,096.
pub const COPY_MAX: usize = 4104;

// The kind of a record that excludes a range, then byte 1, as one number of two bytes.
const RANGE: u16 = 512;

// A two-byte number put at byte `at`.
fn put(copy: &mut [u8], at: usize, n: u16)
    requires { at + 2 ≤ length copy.old }
    ensures { copy.new ≡ sets copy.old at (two_bytes n) }
{
    copy[at] = (n / 256) as u8;
    copy[at + 1] = (n % 256) as u8;
}

// The new record put at byte `at`.
fn put_range(copy: &mut [u8], at: usize, first: u16, last: u16)
    requires { at + 8 ≤ length copy.old }
    ensures { copy.new ≡ sets copy.old at (range_record first last) }
{
    put(copy, at, RANGE);
    put(copy, at + 2, 0);
    put(copy, at + 4, first);
    put(copy, at + 6, last);
}

// The copy of a plan that also excludes first to last, at the start of `copy`; `end` is the index of the plan's last chain record, the
// answer the copy's length.
pub fn extend(plan: &[u8], end: usize, first: u16, last: u16, copy: &mut [u8]) -> usize
    requires { (8 ≤ length plan.now) × (length plan.now ≤ plan_max) × (end ≡ last_index plan.now) × (length plan.now + 8 ≤ length copy.old) }
    ensures { (take result copy.new ≡ copy_with plan.now first last) × (result ≡ length plan.now + 8) }
{
    let n = plan.len();
    copy[..n].copy_from_slice(plan);
    put(copy, 8 * end + 2, (n / 8) as u16);
    put_range(copy, n, first, last);
    n + 8
}
