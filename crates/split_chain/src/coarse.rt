// Coordinates that may have been rounded, and how much: of all animals or of one, and of both axes or of one.

ghost use Rattle.std.specs.Prelude.{IfErr};
ghost use Rattle.split_refusal.specs.Refused.{IsOfNoFix};

use crate::divisor::Divisor;
use range_plane::{OutOfMemory, Scale};
use split_export::Export;
use split_reading::{Row, Told};
use split_refusal::Refusal;
use split_said::Said;
use std::alloc::Global;

// The fewest fixes that are not round by chance.
const FEWEST: usize = 20;

// A length of which coordinates may be multiples, in trillionths of a degree or in metres, and how that is said.
#[derive(Clone, Copy)]
struct Step {
    length: u64,
    said: &'static str,
}

// The steps of degrees with none to three decimals.
const DEGREES: [Step; 4] = [
    Step {
        length: 1_000_000_000_000,
        said: "no decimals, and so steps of 111 km",
    },
    Step {
        length: 100_000_000_000,
        said: "at most one decimal, and so steps of 11 km",
    },
    Step {
        length: 10_000_000_000,
        said: "at most two decimals, and so steps of 1.1 km",
    },
    Step {
        length: 1_000_000_000,
        said: "at most three decimals, and so steps of 110 m",
    },
];

// The steps of metres, of which the first that all have is said.
const METRES: [Step; 2] = [
    Step {
        length: 1000,
        said: "multiples of 1000 m",
    },
    Step {
        length: 100,
        said: "multiples of 100 m",
    },
];

// How round the coordinates of some fixes are.
#[derive(Clone, Copy)]
struct Rounds {
    fixes: usize,
    first: Divisor,
    second: Divisor,
}

impl Rounds {
    // Those of no fix.
    fn none() -> Rounds {
        Rounds {
            fixes: 0,
            first: Divisor::none(),
            second: Divisor::none(),
        }
    }

    // The same with one fix more.
    fn with(self, pair: (i64, i64)) -> Rounds {
        Rounds {
            fixes: self.fixes.saturating_add(1),
            first: self.first.with(pair.0),
            second: self.second.with(pair.1),
        }
    }

    // Those of the fixes of both.
    fn both(self, other: Rounds) -> Rounds {
        Rounds {
            fixes: self.fixes.saturating_add(other.fixes),
            first: self.first.both(other.first),
            second: self.second.both(other.second),
        }
    }
}

// What is read of the coordinates of fixes: their steps, how many units one of these lengths has, and what they are called.
#[derive(Clone, Copy)]
struct Grain {
    steps: &'static [Step],
    units: u64,
    is_of_degrees: bool,
    // Whether nothing else is read, so that one axis alone counts too.
    are_alone: bool,
}

impl Grain {
    // That of the coordinates of an export: of degrees, if it has some, or of metres in a unit.
    fn of(export: &Export<'_>, unit: Scale) -> Grain {
        let is_of_degrees = export.columns.degrees.is_some();
        let units = match unit {
            Scale::Decimetre if !is_of_degrees => 10,
            _ => 1,
        };
        Grain {
            steps: if is_of_degrees { &DEGREES } else { &METRES },
            units,
            is_of_degrees,
            are_alone: export.columns.metres.is_none() || !is_of_degrees,
        }
    }

    // The coordinates of a row that has a fix.
    fn pair_of(self, row: &Row) -> Option<(i64, i64)> {
        match row.told {
            Told::Fix(fix) if self.is_of_degrees => fix.degrees,
            Told::Fix(fix) => fix.metres,
            Told::LeftOut(_) => None,
        }
    }

    // How the first step is said of which these all are multiples, and differ; none where there is none.
    fn step_of(self, axes: &[Divisor]) -> Option<&'static str> {
        for step in self.steps {
            let length = step.length.saturating_mul(self.units);
            if axes.iter().all(|axis| axis.is_multiple(length)) {
                return Some(step.said);
            }
        }
        None
    }

    // The same of one axis.
    fn step_of_one(self, axis: Divisor) -> Option<&'static str> {
        if self.are_alone && axis.differs() {
            self.step_of(&[axis])
        } else {
            None
        }
    }

    // What is asked of coordinates that are called so, of these animals, and have this step.
    fn words(
        self,
        alloc: Global,
        called: &str,
        whose: &str,
        step: &str,
    ) -> Result<String, OutOfMemory> {
        let words = if self.is_of_degrees {
            format!(in alloc; "{called}{whose} have {step}: were they rounded?")?
        } else {
            format!(in alloc; "all {called}{whose} are {step}: were they rounded?")?
        };
        Ok(words)
    }

    // What both coordinates, the first and the second are called.
    fn called(self) -> (&'static str, &'static str, &'static str) {
        if self.is_of_degrees {
            ("longitudes and latitudes", "longitudes", "latitudes")
        } else {
            ("eastings and northings", "eastings", "northings")
        }
    }

    // What is asked of fixes of which these are called so; none where nothing is.
    fn asked(
        self,
        alloc: Global,
        rounds: Rounds,
        whose: &str,
    ) -> Result<Option<String>, OutOfMemory> {
        if rounds.fixes < FEWEST {
            return Ok(None);
        }
        let (both, first, second) = self.called();
        let (own, other) = (rounds.first, rounds.second);
        let found = [
            (both, self.step_of(&[own, other])),
            (first, self.step_of_one(own)),
            (second, self.step_of_one(other)),
        ];
        for (called, step) in found {
            if let Some(step) = step {
                return Ok(Some(self.words(alloc, called, whose, step)?));
            }
        }
        Ok(None)
    }
}

// How round the coordinates of each animal are.
fn rounds_of(alloc: Global, grain: Grain, export: &Export<'_>) -> Result<Vec<Rounds>, OutOfMemory> {
    let mut all = vec![in alloc; Rounds::none(); export.ledger.names.len()]?;
    for row in &export.ledger.rows {
        let (Some(animal), Some(pair)) = (row.animal, grain.pair_of(row)) else {
            continue;
        };
        let place = usize::try_from(animal).unwrap_or(usize::MAX);
        if let Some(own) = all.get_mut(place) {
            *own = own.with(pair);
        }
    }
    Ok(all)
}

// Asks it of the first animal of which it is to be asked.
fn tell_first(
    alloc: Global,
    said: &mut Said,
    grain: Grain,
    export: &Export<'_>,
    rounds: &[Rounds],
) -> Result<(), OutOfMemory> {
    for (name, own) in export.ledger.names.iter().zip(rounds) {
        let name = str::from_utf8(name).unwrap_or("");
        let whose = format!(in alloc; " of '{name}'")?;
        if let Some(words) = grain.asked(alloc, *own, &whose)? {
            return said.say(alloc, words.as_bytes());
        }
    }
    Ok(())
}

// Asks it of all fixes, or else of the first animal of several of which it is to be asked; but not of Argos, which has few decimals.
fn tell(
    alloc: Global,
    said: &mut Said,
    unit: Scale,
    export: &Export<'_>,
) -> Result<(), OutOfMemory> {
    if export.columns.argos.is_some() {
        return Ok(());
    }
    let grain = Grain::of(export, unit);
    let rounds = rounds_of(alloc, grain, export)?;
    let whole = rounds
        .iter()
        .fold(Rounds::none(), |all, own| all.both(*own));
    match grain.asked(alloc, whole, "")? {
        Some(words) => said.say(alloc, words.as_bytes()),
        None if rounds.len() > 1 => tell_first(alloc, said, grain, export, &rounds),
        None => Ok(()),
    }
}

/// Asks whether coordinates were rounded that are all multiples of a long step, of all fixes or of an animal.
///
/// # Errors
///
/// Memory ran out.
pub(crate) fn tell_coarse(
    alloc: Global,
    said: &mut Said,
    unit: Scale,
    export: &Export<'_>,
) -> Result<(), Refusal>
    ensures { IfErr result IsOfNoFix }
{
    match tell(alloc, said, unit, export) {
        Ok(()) => Ok(()),
        Err(_) => Err(Refusal::out_of_memory(alloc)),
    }
}
