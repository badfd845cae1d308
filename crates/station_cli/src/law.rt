// What the definitions say of reports.

ghost use Rattle.station_cli.specs.Headline.{ReportsHold, FreeHolds};
ghost use Rattle.station_cli.specs.OneReport.{OneReport, OneCourse};

/// A file has one report at most: its name and its bytes determine the verdict, each alarm, each
/// range and the counts.
pub fn one_report()
    ensures { OneReport }
{
    st_units::text_laws();
    first_form::form_laws();
}

/// The report that is defined for a text holds of each run of the program that the text spells;
/// where it is FREE, no run faults and no task waits. This is said of the report as data, whatever
/// is written of it and where.
pub fn reports_hold()
    ensures all { ReportsHold }
    ensures free { FreeHolds }
{
    st_units::text_laws();
    first_form::form_laws();
    cycle_analysis::headline();
}

/// Where the files tell, the words and the contents determine the status and the bytes of a call
/// that comes to its end.
pub fn one_course()
    ensures { OneCourse }
{
    one_report();
}
