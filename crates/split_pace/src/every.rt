// The pieces of time that fixes are in.

ghost use Rattle.std.specs.Prelude.{◌≡◌};
ghost use Rattle.split_pace.specs.Every.{piece_of};

use split_clock::Clock;
use split_tracks::Entry;

// The piece of time that an entry is in, where pieces of so many seconds are counted by this clock from midnight of 1 January
// 1970 on. All are in piece 0 where pieces have no second.
pub(crate) fn piece_of(length: u64, clock: &Clock, entry: &Entry) -> i128
    ensures { result ≡ piece_of length clock.now.zone entry.now }
{
    if length == 0 {
        return 0;
    }
    clock
        .local_second(entry.moment.second)
        .div_euclid(i128::from(length))
}
