// Where a record of a joined text stands.

ghost use Rattle.std.specs.Prelude.{◌≡◌};
ghost use Rattle.split_join.specs.Place.{place_in};

/// In which text a record of all stands, and its number there, where each text has so many records. Texts are numbered from 0,
/// records from 1; a record behind all stands in the text behind the last.
pub fn place_of(counts: &[u32], number: u32) -> (usize, u32)
    ensures { result ≡ place_in counts.now number }
{
    let mut left = number;
    for text in 0..counts.len() {
        let count = counts[text];
        if left <= count {
            return (text, left);
        }
        left -= count;
    }
    (counts.len(), left)
}
