// Laws of reports, for who reads what is promised. Each is a function that promises the law and does nothing, but that one calls
// a law from which its own follows. Nobody else calls them.

ghost use Rattle.page_laws.specs.Laws.{AReportIsReadBack, ReportsWithinLimitsAreReadBack};

use range_fixes::reads_exactly;

/// The report of an analysis whose names and numbers a report may have is read as the unit, the animals and the overlaps of the
/// analysis.
pub fn reports_within_limits_are_read_back()
    ensures { ReportsWithinLimitsAreReadBack }
{}

/// So is the report of each analysis of files that tell their bytes, with the levels and as many files as a run may have.
pub fn a_report_is_read_back()
    ensures { AReportIsReadBack }
{
    reads_exactly();
}
