ghost use Rattle.std.specs.Prelude.{◌≡◌, ◌<◌};
ghost use Rattle.loom_types.specs.SetMask.{stem_of, rest_of, SetIsStemAndRest};

/// The first terminal of a set; bit i of its mask stands for the net's terminal i.
pub fn stem(mask: u32) -> u32
    requires { 0 < mask }
    ensures { result ≡ stem_of mask }
{
    mask.trailing_zeros()
}

/// The set's terminals past its first as a mask of the net's table, whose bit i stands for terminal
/// i + 1.
pub fn rest(mask: u32) -> u32
    requires { 0 < mask }
    ensures { result ≡ rest_of mask }
{
    (mask - (1 << stem(mask))) / 2
}

/// The cavities of a set are its first one and then those of the rest. The function does nothing:
/// its contract is the law, and a caller whose proof needs the law calls it.
#[tactic(auto, using(crate::proofs::SetMasks::set_is_stem_and_rest))]
pub fn set_is_stem_and_rest()
    ensures { SetIsStemAndRest }
{}
