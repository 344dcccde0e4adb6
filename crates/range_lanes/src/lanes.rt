// Eight signed numbers, and operations on them that give exact results.

ghost use Rattle.std.specs.Prelude.{◌≡◌, ◌+◌, ◌++◌, ◌&&◌, ◌≤◌, ◌+ℤ◌, ◌-ℤ◌, ◌*ℤ◌, All, pos, count_by, length, map, replicate, take};
ghost use Rattle.std.specs.Int.{int_min, int_max};
ghost use Rattle.std.specs.Simd.Lanes.{zip2, chunk, Each1};
ghost use Rattle.range_plane.specs.Plane.{IsCoordinate, coordinate_limit, turn_limit};
ghost use Rattle.range_lanes.specs.Lanes.{IsBounded, is_not_negative};

use std::marker::Model;
use std::simd::prelude::*;

// How many numbers a vector has.
pub(crate) const LANE_COUNT: usize = 8;

// Eight numbers of 64 bits. Contracts see a list of integers.
#[derive(Clone, Copy)]
pub(crate) struct Lanes {
    lanes: i64x8,
}

impl Model for Lanes {
    ghost use Rattle.std.specs.Prelude.{List, ℤ};
    ghost use Rattle.range_lanes.specs.Lanes.{AreLanes};

    ghost Value = { List ℤ };

    ghost view = { λ s. s.lanes };

    ghost invariant = { λ s. AreLanes s.lanes };

    ghost inverse = { λ xs. record { lanes = xs } };
}

impl Lanes {
    // The same number eight times.
    #[inline(always)]
    pub(crate) fn splat(value: i64) -> Lanes
        ensures { result ≡ replicate LANE_COUNT value }
    {
        Lanes {
            lanes: i64x8::splat(value),
        }
    }

    // The eight numbers from `at` on.
    #[inline(always)]
    pub(crate) fn load(numbers: &[i64], at: usize) -> Lanes
        requires room { at + LANE_COUNT ≤ length numbers.now }
        requires limits { All IsCoordinate numbers.now }
        ensures { result ≡ chunk at LANE_COUNT numbers.now }
    {
        Lanes {
            lanes: i64x8::from_slice(&numbers[at..]),
        }
    }

    #[inline(always)]
    pub(crate) fn plus(self, other: Lanes) -> Lanes
        requires left { Each1 (IsBounded turn_limit) self }
        requires right { Each1 (IsBounded turn_limit) other }
        ensures { result ≡ zip2 ◌+ℤ◌ self other }
    {
        Lanes {
            lanes: self.lanes.strict_add(other.lanes),
        }
    }

    #[inline(always)]
    pub(crate) fn minus(self, other: Lanes) -> Lanes
        requires left { Each1 (IsBounded turn_limit) self }
        requires right { Each1 (IsBounded turn_limit) other }
        ensures { result ≡ zip2 ◌-ℤ◌ self other }
    {
        Lanes {
            lanes: self.lanes.strict_sub(other.lanes),
        }
    }

    #[inline(always)]
    pub(crate) fn times(self, other: Lanes) -> Lanes
        requires left { Each1 (IsBounded coordinate_limit) self }
        requires right { Each1 (IsBounded coordinate_limit) other }
        ensures { result ≡ zip2 ◌*ℤ◌ self other }
    {
        let (a, b) = (self.narrow(), other.narrow());
        Lanes {
            lanes: a.lanes.strict_mul(b.lanes),
        }
    }

    // The same numbers, taken through 32 bits, so that the processor multiplies halves of its lanes, which is faster.
    #[inline(always)]
    fn narrow(self) -> Lanes
        requires { Each1 (IsBounded coordinate_limit) self }
        ensures { result ≡ self }
    {
        Lanes {
            lanes: self.lanes.cast::<i32>().cast::<i64>(),
        }
    }

    // The smaller of each two.
    #[inline(always)]
    pub(crate) fn least(self, other: Lanes) -> Lanes
        ensures { result ≡ zip2 int_min self other }
    {
        Lanes {
            lanes: self.lanes.simd_min(other.lanes),
        }
    }

    // The greater of each two.
    #[inline(always)]
    pub(crate) fn greatest(self, other: Lanes) -> Lanes
        ensures { result ≡ zip2 int_max self other }
    {
        Lanes {
            lanes: self.lanes.simd_max(other.lanes),
        }
    }

    // Numbers of which each is negative exactly where at least one of the two is.
    #[inline(always)]
    pub(crate) fn negative_in_either(self, other: Lanes) -> Lanes
        ensures { map is_not_negative result
            ≡ zip2 ◌&&◌ (map is_not_negative self) (map is_not_negative other) }
    {
        Lanes {
            lanes: self.lanes | other.lanes,
        }
    }

    #[inline(always)]
    pub(crate) fn to_array(self) -> [i64; LANE_COUNT]
        ensures { result ≡ self }
    {
        self.lanes.to_array()
    }

    // Each number times `factor`.
    #[inline(always)]
    pub(crate) fn scaled(self, factor: i64) -> Lanes
        requires small { Each1 (IsBounded coordinate_limit) self }
        requires factor { IsBounded coordinate_limit factor }
        ensures { result ≡ map (λ x. factor *ℤ x) self }
    {
        Lanes::splat(factor).times(self)
    }

    // `by` and each number.
    #[inline(always)]
    pub(crate) fn raised(self, by: i64) -> Lanes
        requires small { Each1 (IsBounded turn_limit) self }
        requires by { IsBounded turn_limit by }
        ensures { result ≡ map (λ x. by +ℤ x) self }
    {
        Lanes::splat(by).plus(self)
    }

    // 0 less each number.
    #[inline(always)]
    pub(crate) fn negated(self) -> Lanes
        requires { Each1 (IsBounded turn_limit) self }
        ensures { result ≡ map (λ x. pos 0 -ℤ x) self }
    {
        Lanes::splat(0).minus(self)
    }

    // How many of the numbers are at least 0.
    #[inline(always)]
    pub(crate) fn count_not_negative(self) -> u32
        ensures { result ≡ count_by is_not_negative self }
    {
        self.lanes
            .simd_ge(i64x8::splat(0))
            .to_bitmask()
            .count_ones()
    }

    // Sets the eight flags from `at` on: whether each number is at least 0.
    #[inline(always)]
    pub(crate) fn flag_not_negative(self, flags: &mut [bool], at: usize)
        requires { at + LANE_COUNT ≤ length flags.old }
        ensures { take (at + LANE_COUNT) flags.new ≡ take at flags.old ++ map is_not_negative self }
    {
        let numbers = self.to_array();
        for i in 0..LANE_COUNT {
            flags[at + i] = numbers[i] >= 0;
        }
    }
}
