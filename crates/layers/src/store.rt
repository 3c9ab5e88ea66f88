// Layers in a lent slice: the words of part i are the 32 from 32 × i on.
ghost use Rattle.std.specs.Prelude.{◌+◌};
ghost use Rattle.layers.specs.Scratch.{HasRoom, IsLoaded, Stores};

pub(crate) fn load(scratch: &[u64], i: usize) -> [u64; 32]
    requires { HasRoom (i + 1) scratch.now }
    ensures { IsLoaded i scratch.now result }
{
    scratch.as_chunks::<32>().0[i]
}

// By copy_from_slice: the contract of as_chunks_mut says nothing of what the slice ends as.
pub(crate) fn store(scratch: &mut [u64], i: usize, layer: [u64; 32])
    requires { HasRoom (i + 1) scratch.old }
    ensures { Stores i layer scratch.old scratch.new }
{
    scratch[32 * i..32 * i + 32].copy_from_slice(&layer);
}
