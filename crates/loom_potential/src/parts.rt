ghost use Rattle.std.specs.Prelude.{◌≡◌, ◌<◌, ◌≤◌, ℕ, IsTrue, bit_and};
ghost use Rattle.loom_potential.specs.FirstBreak.{is_first_part};

/// The least part of a mask that holds its first cavity: this cavity alone.
pub fn first_part(mask: u32) -> u32
    requires { 1 ≤ mask }
    ensures is_part { IsTrue (is_first_part mask result) }
    ensures within { result ≤ mask }
    ensures least { (part : ℕ) → IsTrue (is_first_part mask part) → result ≤ part }
{
    1 << mask.trailing_zeros()
}

/// The next greater part of a mask that holds its first cavity; the last of them is the mask.
pub fn next_part(mask: u32, part: u32) -> u32
    requires is_part { IsTrue (is_first_part mask part) }
    requires below { part < mask }
    ensures is_part { IsTrue (is_first_part mask result) }
    ensures within { result ≤ mask }
    ensures greater { part < result }
    ensures least { (later : ℕ) → part < later → IsTrue (is_first_part mask later)
        → result ≤ later }
{
    let first = 1 << mask.trailing_zeros();
    first + next_within(mask - first, part - first)
}

/// The next greater number all of whose bits stand in the mask.
fn next_within(mask: u32, bits: u32) -> u32
    requires within { bit_and bits mask ≡ bits }
    requires below { bits < mask }
    ensures within { bit_and result mask ≡ result }
    ensures greater { bits < result }
    ensures least { (later : ℕ) → bits < later → bit_and later mask ≡ later → result ≤ later }
{
    bits.wrapping_sub(mask) & mask
}
