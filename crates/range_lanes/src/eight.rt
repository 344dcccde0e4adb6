// Eight points of columns.

ghost use Rattle.std.specs.Prelude.{◌≡◌, ◌+◌, ◌≤◌, ◌-ℤ◌, length, map};
ghost use Rattle.std.specs.Simd.Lanes.{chunk, Each1};
ghost use Rattle.range_plane.specs.Plane.{IsCoordinate, coordinate_limit};
ghost use Rattle.range_lanes.specs.Lanes.{IsBounded};

use crate::lanes::{LANE_COUNT, Lanes};
use range_plane::Columns;
use std::alloc::Allocator;
use std::marker::Model;

// Eight points, by their eastings and their northings.
#[derive(Drop)]
pub(crate) struct Eight {
    eastings: Lanes,
    northings: Lanes,
}

impl Model for Eight {
    ghost use Rattle.std.specs.Prelude.{List};
    ghost use Rattle.std.specs.Simd.Lanes.{zip2};
    ghost use Rattle.range_plane.specs.Plane.{Position, position};
    ghost use Rattle.range_lanes.specs.Lanes.{AreEight};

    ghost Value = { List Position };

    ghost view = { λ b. zip2 position b.eastings b.northings };

    ghost invariant = { λ b. AreEight b.eastings b.northings };
}

impl Eight {
    // The eight points from `at` on.
    #[inline(always)]
    pub(crate) fn load<A: Allocator>(cols: &Columns<A>, at: usize) -> Eight
        requires { at + LANE_COUNT ≤ length cols.now.points }
        ensures { result ≡ chunk at LANE_COUNT cols.now.points }
    {
        Eight {
            eastings: Lanes::load(cols.eastings(), at),
            northings: Lanes::load(cols.northings(), at),
        }
    }

    // How far each point lies east of the easting `e`.
    #[inline(always)]
    pub(crate) fn east_of(&self, e: i64) -> Lanes
        requires { IsCoordinate e }
        ensures value { result ≡ map (λ p. p.e -ℤ e) self.now }
        ensures small { Each1 (IsBounded coordinate_limit) result }
    {
        self.eastings.minus(Lanes::splat(e))
    }

    // How far each point lies north of the northing `n`.
    #[inline(always)]
    pub(crate) fn north_of(&self, n: i64) -> Lanes
        requires { IsCoordinate n }
        ensures value { result ≡ map (λ p. p.n -ℤ n) self.now }
        ensures small { Each1 (IsBounded coordinate_limit) result }
    {
        self.northings.minus(Lanes::splat(n))
    }
}
