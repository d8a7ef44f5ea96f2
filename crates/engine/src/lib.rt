// The heap for Rust or C to link: exported functions on numbers and slices only. An answer is a code, 0 or the number of a
// refusal, and words lent for the rest, so that nothing is passed that the two sides could lay out differently.
#![tactic(auto)]

mod header;
mod objects;

ghost use Rattle.std.specs.Prelude.{◌≡◌};
ghost use Rattle.base.specs.Heap.{heap};
ghost use Rattle.new_codes.specs.NewCodes.{needed_on, make_heap_on};

// The words and bytes that a heap of these sizes needs: 0, with both in out; 4; or 1.
#[unsafe(no_mangle)]
pub extern "C" fn sieddesan_needed(sizes: &[u32], out: &mut [u32]) -> u32
    ensures { (result, out.new) ≡ needed_on sizes.now out.old }
{
    new_codes::needed(sizes, out)
}

// A new heap of these sizes in the two lent buffers: 0; 4; or 1.
#[unsafe(no_mangle)]
pub extern "C" fn sieddesan_make_heap(w: &mut [u32], b: &mut [u8], sizes: &[u32]) -> u32
    ensures { (result, heap w.new b.new) ≡ make_heap_on sizes.now (heap w.old b.old) }
{
    new_codes::make_heap(w, b, sizes)
}
