// An animal before its tables are made.

ghost use Rattle.std.specs.Prelude.{◌≤◌, length};

use range_estimator::Estimator;
use range_fixes::Name;

/// An animal and the estimator of its fixes, of which there is at least one.
#[derive(Drop)]
pub struct Track {
    pub name: Name,
    pub estimator: Estimator,
    pub ghost some: { 1 ≤ length estimator.fixes },
}
