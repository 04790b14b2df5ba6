// Texts put into a buffer, one behind the other.
ghost use Rattle.trials.specs.Puts.{Puts, place_or_zero};

// Writes a text at a place, where it fits, and gives the place behind it.
pub fn put(out: &mut [u8], at: usize, text: &[u8]) -> Option<usize>
    ensures { Puts out.old at text.now out.new (place_or_zero result) }
{
    let end = at.checked_add(text.len())?;
    if out.len() < end {
        return None;
    }
    out[at..end].copy_from_slice(text);
    Some(end)
}
