// Where rows begin, noted while they are written.
ghost use Rattle.std.specs.Prelude.{◌≡◌, slice_set};

// Notes the start of the stored row s, if the list has an entry for it. By an index: after `get_mut` of a slice no proof
// knows its elements.
pub(crate) fn note_start(starts: &mut [u64], s: usize, place: usize)
    ensures { starts.new ≡ slice_set starts.old s place }
{
    if s < starts.len() {
        starts[s] = place as u64;
    }
}
