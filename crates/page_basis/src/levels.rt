// The level that is quoted.

use page_report::Report;

// The level that is quoted where it is there.
const USUAL: u8 = 95;

/// The level whose area is quoted in sentences: 95, else the highest; 0 where there is none.
pub fn quoted_level(report: &Report) -> u8 {
    let Some(animal) = report.animals.first() else {
        return 0;
    };
    let mut quoted = 0;
    for own in &animal.percents {
        if quoted != USUAL && (own.level == USUAL || own.level > quoted) {
            quoted = own.level;
        }
    }
    quoted
}
