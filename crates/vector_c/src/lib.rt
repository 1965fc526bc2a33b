//! The vector check for C: the archive of the two functions that `include/xm_vector.h` declares, on a byte slice, which C passes
//! as a pointer and a length.
#![tactic(auto)]

ghost use Rattle.std.specs.Prelude.{◌≡◌};
ghost use Rattle.vector.specs.Reading.{verdict, number_in, place_in};

use vector::check;

/// The number of the refusal; 0 where the vector is taken.
#[unsafe(no_mangle)]
pub extern "C" fn xm_vector_refusal(bytes: &[u8]) -> u32
    ensures { result ≡ number_in (verdict bytes.now) }
{
    check(bytes).err().map_or(0, |refusal| refusal.number())
}

/// The place of the refusal; 0 where the vector is taken.
#[unsafe(no_mangle)]
pub extern "C" fn xm_vector_place(bytes: &[u8]) -> usize
    ensures { result ≡ place_in (verdict bytes.now) }
{
    check(bytes).err().map_or(0, |refusal| refusal.place())
}
