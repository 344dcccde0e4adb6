// What is known of an animal by itself.

ghost use Rattle.std.specs.Prelude.{◌≤◌, length};
ghost use Rattle.range_plane.specs.Fix.{fix_limit};

use crate::animal::Animal;
use range_plane::Columns;

// An animal and the points of its fixes.
#[derive(Drop)]
pub(crate) struct Measured {
    pub(crate) animal: Animal,
    pub(crate) fixes: Columns,
    pub(crate) ghost few: { length fixes.points ≤ fix_limit },
}
