// The answers of the calls as numbers that cross the boundary, each by its definition: C has no enum with values in it, so that what is
// refused or missing is a number with a value beside it, and each struct has its own fields.
ghost use Rattle.std.specs.Prelude.{◌≡◌};
ghost use Rattle.measure.specs.Answers.{measured_told, distance_told};
ghost use Rattle.axis.specs.Cache.{cached_told};
ghost use Rattle.classify.specs.Call.{classified_told};
ghost use Rattle.quads.specs.Call.{merged_told};
ghost use Rattle.walk.specs.Call.{labelled_told};
ghost use Rattle.abi.specs.Answers.{number_from, apart_from, cache_from, verdict_from, count_from, counts_from};

use crate::{Apart, Cache, Count, Counts, Number, Verdict};
use axis::AxisCache;
use measure::Distance;
use refusal::Refusal;
use walk::Labelled;

impl From<Result<f32, Refusal>> for Number {
    ghost from_gives = { λ answer number. number ≡ number_from (measured_told answer) };

    fn from(answer: Result<f32, Refusal>) -> Number {
        match answer {
            Ok(value) => Number {
                refused: 0,
                place: 0,
                value,
            },
            Err(why) => Number {
                refused: refusal::number(why),
                place: refusal::place(why),
                value: 0.0,
            },
        }
    }
}

impl From<Distance> for Apart {
    ghost from_gives = { λ answer apart. apart ≡ apart_from (distance_told answer) };

    fn from(answer: Distance) -> Apart {
        match answer {
            Distance::Known(value) => Apart { known: 1, value },
            Distance::Missing => Apart {
                known: 0,
                value: 0.0,
            },
        }
    }
}

impl From<Result<AxisCache, Refusal>> for Cache {
    ghost from_gives = { λ answer cache. cache ≡ cache_from (cached_told answer) };

    fn from(answer: Result<AxisCache, Refusal>) -> Cache {
        match answer {
            Ok(cache) => Cache {
                refused: 0,
                place: 0,
                angle0: cache.angle0,
                informative0: u32::from(cache.informative0),
                angle1: cache.angle1,
                informative1: u32::from(cache.informative1),
            },
            Err(why) => Cache {
                refused: refusal::number(why),
                place: refusal::place(why),
                angle0: 0.0,
                informative0: 0,
                angle1: 0.0,
                informative1: 0,
            },
        }
    }
}

impl From<Result<(), Refusal>> for Verdict {
    ghost from_gives = { λ answer verdict. verdict ≡ verdict_from (classified_told answer) };

    fn from(answer: Result<(), Refusal>) -> Verdict {
        match answer {
            Ok(()) => Verdict {
                refused: 0,
                place: 0,
            },
            Err(why) => Verdict {
                refused: refusal::number(why),
                place: refusal::place(why),
            },
        }
    }
}

// Of the quads made, and of those kept.
impl From<Result<u32, Refusal>> for Count {
    ghost from_gives = { λ answer count. count ≡ count_from (merged_told answer) };

    fn from(answer: Result<u32, Refusal>) -> Count {
        match answer {
            Ok(count) => Count {
                refused: 0,
                place: 0,
                beside: 0,
                count,
            },
            Err(why) => Count {
                refused: refusal::number(why),
                place: refusal::place(why),
                beside: refusal::beside(why),
                count: 0,
            },
        }
    }
}

impl From<Result<Labelled, Refusal>> for Counts {
    ghost from_gives = { λ answer counts. counts ≡ counts_from (labelled_told answer) };

    fn from(answer: Result<Labelled, Refusal>) -> Counts {
        match answer {
            Ok(counts) => Counts {
                refused: 0,
                place: 0,
                beside: 0,
                components: counts.components,
                entries: counts.entries,
            },
            Err(why) => Counts {
                refused: refusal::number(why),
                place: refusal::place(why),
                beside: refusal::beside(why),
                components: 0,
                entries: 0,
            },
        }
    }
}
