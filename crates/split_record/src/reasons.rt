// The words of reasons.

ghost use Rattle.std.specs.Prelude.{◌≡◌};
ghost use Rattle.split_record.specs.Lines.{reason_words};

use split_tracks::Reason;

/// What a record of tracks calls a reason for which fixes were left out.
pub fn reason_words(reason: Reason) -> &'static [u8]
    ensures { result.now ≡ reason_words reason }
{
    match reason {
        Reason::Animal => b"animal",
        Reason::Coordinates => b"coordinates",
        Reason::Zero => b"zero",
        Reason::Sensor => b"sensor",
        Reason::Outlier => b"outlier",
        Reason::Class => b"class",
        Reason::NoDop => b"no dop",
        Reason::Dop => b"dop",
        Reason::Type => b"type",
        Reason::Before => b"before",
        Reason::After => b"after",
        Reason::Grid => b"grid",
        Reason::Speed => b"speed",
        Reason::Every => b"every",
    }
}
